//! Standard input as a source of bytes.

ghost use Rattle.std.specs.Prelude.{◌≡◌, None};

use fs_dev::{ReadFailed, Source};
use std::io::Read;

/// Reads a stream, which the program makes standard input, and counts the reads that failed.
#[derive(Drop)]
pub struct StandardInput<R> {
    stream: R,
    faults: u64,
}

impl<R: Read> StandardInput<R> {
    pub fn new(stream: R) -> StandardInput<R>
        ensures { result.faults ≡ 0 }
    {
        StandardInput { stream, faults: 0 }
    }
}

impl<R: Read> Source for StandardInput<R> {
    // What the system gives is not known beforehand.
    ghost left = { λ _. None };

    ghost faults = { λ s. s.faults };

    fn read(&mut self, out: &mut [u8]) -> Result<usize, ReadFailed> {
        match self.stream.read(out) {
            Ok(n) => Ok(n),
            Err(_) => {
                self.faults = self.faults.saturating_add(1);
                Err(ReadFailed)
            }
        }
    }
}
