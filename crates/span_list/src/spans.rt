//! What keeps sorted fragments of a file.

ghost use Rattle.std.specs.Prelude.{◌≡◌, ◌≤◌, ◌<◌, ◌+◌, ◌^◌, ℕ, List, [], IsOk, OnOk, OnErr};
ghost use Rattle.fs_types.specs.Pieces.{Fragment};
ghost use Rattle.fs_types.specs.declared.limits.TheConstants.{LONGEST_FILE};
ghost use Rattle.span_list.specs.Spans.{AreSpans, cut_fragments, next_fragment, put_fragment};

use fs_types::{Frag, Want};
use std::alloc::Global;

/// Keeps fragments of a file, none over another, in order of place.
pub trait Spans: Sized {
    /// Its fragments, in order of place.
    ghost fragments: { Self → List Fragment };

    /// How many more fragments fit without taking memory.
    ghost spare: { Self → ℕ };

    /// No fragments. It takes no memory.
    fn new(alloc: Global) -> Self
        ensures none { fragments result ≡ [] }
        ensures no_spare { spare result ≡ 0 };

    /// Puts a fragment over the others. It adds at most two to their number, so with a spare of 2
    /// it takes no memory.
    fn put(&mut self, f: Frag) -> Result<(), Want>
        requires has_bytes { 0 < f.len }
        requires in_file { f.at + f.len ≤ LONGEST_FILE }
        requires in_piece { f.from + f.len < 2 ^ 32 }
        ensures put { OnOk result (fragments self.new ≡ put_fragment f (fragments self.old)) }
        ensures used { OnOk result (spare self.old ≤ spare self.new + 2) }
        ensures same { OnErr result (fragments self.new ≡ fragments self.old) }
        ensures same_spare { OnErr result (spare self.new ≡ spare self.old) }
        ensures room { 2 ≤ spare self.old → IsOk result };

    /// Drops all bytes from the place `size` on. It takes no memory.
    fn cut(&mut self, size: u64)
        ensures cut { fragments self.new ≡ cut_fragments size (fragments self.old) }
        ensures spare { spare self.old ≤ spare self.new };

    /// The first whole fragment that ends after the place `at`, if any. It takes no memory.
    fn next(&self, at: u64) -> Option<Frag>
        ensures { result ≡ next_fragment at (fragments self.now) };

    /// Makes room for so many more fragments. It takes no memory where they fit already.
    fn reserve(&mut self, n: usize) -> Result<(), Want>
        ensures room { OnOk result (n ≤ spare self.new) }
        ensures succeeds { n ≤ spare self.old → IsOk result }
        ensures same { fragments self.new ≡ fragments self.old }
        ensures spare { spare self.old ≤ spare self.new }
        ensures same_spare { OnErr result (spare self.new ≡ spare self.old) };

    /// None of its fragments is empty or reaches too far, and each ends before a later one begins.
    ghost are_spans: { (s : Self) → AreSpans (fragments s) };
}
