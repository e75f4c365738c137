//! Standard output as a sink of bytes.

ghost use Rattle.std.specs.Prelude.{◌≡◌, None};

use fs_dev::{Sink, WriteFailed};
use std::io::Write;

/// Writes to a stream without a buffer, which the program makes standard output, and counts the
/// writes that failed.
#[derive(Drop)]
pub struct StandardOutput<W> {
    stream: W,
    faults: u64,
}

impl<W: Write> StandardOutput<W> {
    pub fn new(stream: W) -> StandardOutput<W>
        ensures { result.faults ≡ 0 }
    {
        StandardOutput { stream, faults: 0 }
    }
}

impl<W: Write> Sink for StandardOutput<W> {
    // What reached the system is not known afterwards.
    ghost held = { λ _. None };

    ghost faults = { λ s. s.faults };

    fn write(&mut self, b: &[u8]) -> Result<usize, WriteFailed> {
        match self.stream.write(b) {
            Ok(n) if 0 < n || b.is_empty() => Ok(n),
            // A stream that takes none of the bytes would be asked again without end.
            _ => {
                self.faults = self.faults.saturating_add(1);
                Err(WriteFailed)
            }
        }
    }
}
