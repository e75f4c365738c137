//! A plain list of sorted fragments.

ghost use Rattle.std.specs.Prelude.{◌≡◌};
ghost use Rattle.span_list.specs.Spans.{AreSpans};

use crate::places::{cut_list, next_in_list, put_in_list};
use crate::spans::Spans;
use fs_types::{Frag, Want};
use std::alloc::Global;

/// Fragments of a file in a list, in order of place. A look-up is a binary search; a put shifts
/// those behind it by as many places as it adds or takes away.
#[derive(Debug, Drop)]
pub struct SpanList {
    frags: Vec<Frag>,
    ghost are_spans: { AreSpans frags.items },
}

impl SpanList {
    ghost use Rattle.span_list.specs.SpanList.{fragments_of};

    /// A list of these fragments, which are in order. It takes no memory.
    pub fn from_frags(frags: Vec<Frag>) -> SpanList
        requires { AreSpans frags.items }
        ensures { fragments_of result ≡ frags.items }
    {
        SpanList { frags }
    }

    /// Its fragments, in order of place.
    pub fn into_frags(self) -> Vec<Frag>
        ensures frags { result.items ≡ fragments_of self }
        ensures are_spans { AreSpans result.items }
    {
        self.frags
    }
}

impl Spans for SpanList {
    ghost use Rattle.span_list.specs.SpanList.{fragments_of, spare_of};

    ghost fragments = { fragments_of };

    ghost spare = { spare_of };

    ghost are_spans = { λ list. list.are_spans };

    fn new(alloc: Global) -> SpanList {
        SpanList {
            frags: Vec::new(alloc),
        }
    }

    fn put(&mut self, f: Frag) -> Result<(), Want> {
        self.frags.reserve(2)?;
        put_in_list(&mut self.frags, f);
        Ok(())
    }

    fn cut(&mut self, size: u64) {
        cut_list(&mut self.frags, size);
    }

    fn next(&self, at: u64) -> Option<Frag> {
        next_in_list(&self.frags, at)
    }

    fn reserve(&mut self, n: usize) -> Result<(), Want> {
        self.frags.reserve(n)?;
        Ok(())
    }
}
