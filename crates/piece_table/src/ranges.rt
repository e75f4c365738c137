//! The fragments that lie whole in a range of a file, and how many end in it: walks of those alone;
//! and a list of all.

ghost use Rattle.std.specs.Prelude.{◌≡◌, ◌≤◌, ◌+◌, ◌∷◌, ◌++◌, [], length, find, vec_len};
ghost use Rattle.std.specs.Prelude.{vec_capacity, IfSome, MatchOption};
ghost use Rattle.fs_types.specs.Fragments.{end_of};
ghost use Rattle.fs_types.specs.declared.limits.TheConstants.{LONGEST_FILE};
ghost use Rattle.span_list.specs.Spans.{AreSpans, IsSpan, begins_from};
ghost use Rattle.piece_table.specs.Ranges.{covered, ending_count, ends_under, reaching};

use fs_types::{Frag, LONGEST_FILE};
use span_list::Spans;

// The first fragment that doesn't begin before a place.
fn next_begun<S: Spans>(spans: &S, at: u64) -> Option<Frag>
    ensures next { result ≡ find (begins_from at) (S.fragments spans.now) }
    ensures span { IfSome result IsSpan }
{
    let Some(g) = spans.next(at) else {
        return None;
    };
    if at <= g.at {
        return Some(g);
    }
    spans.next(g.at + g.len)
}

/// The first fragment that lies whole between two places. The next one lies behind its end.
pub fn next_covered<S: Spans>(spans: &S, at: u64, end: u64) -> Option<Frag>
    ensures next { MatchOption result (covered at end (S.fragments spans.now) ≡ [])
        (λ g. covered at end (S.fragments spans.now)
        ≡ g ∷ covered (end_of g) end (S.fragments spans.now)) }
    ensures span { IfSome result IsSpan }
{
    let Some(g) = next_begun(spans, at) else {
        return None;
    };
    if g.at + g.len > end {
        return None;
    }
    Some(g)
}

/// The fragment that reaches past two places, if there is one.
pub fn next_reaching<S: Spans>(spans: &S, at: u64, end: u64) -> Option<Frag>
    requires { at ≤ end }
    ensures { MatchOption result (reaching at end (S.fragments spans.now) ≡ [])
        (λ g. reaching at end (S.fragments spans.now) ≡ g ∷ []) }
{
    let Some(g) = spans.next(at) else {
        return None;
    };
    if at <= g.at || g.at + g.len <= end {
        return None;
    }
    Some(g)
}

// The next fragment from a place on, if it doesn't end past another.
fn next_ending<S: Spans>(spans: &S, at: u64, end: u64) -> Option<Frag>
    ensures next { MatchOption result (ending_count at end (S.fragments spans.now) ≡ 0)
        (λ g. ending_count at end (S.fragments spans.now)
        ≡ 1 + ending_count (end_of g) end (S.fragments spans.now)) }
    ensures span { IfSome result IsSpan }
{
    let Some(g) = spans.next(at) else {
        return None;
    };
    if end < g.at + g.len {
        return None;
    }
    Some(g)
}

/// How many fragments end behind a place and not past another.
pub fn count_ending<S: Spans>(spans: &S, at: u64, end: u64) -> usize
    ensures { result ≡ ending_count at end (S.fragments spans.now) }
{
    let mut count = 0;
    let mut place = at;
    while let Some(g) = next_ending(spans, place, end) {
        count += 1;
        place = g.at + g.len;
    }
    count
}

/// How many fragments have their last byte in the range of each of these, in all.
pub fn count_under<S: Spans>(spans: &S, over: &[Frag]) -> usize
    requires { AreSpans over.now }
    ensures { result ≡ ends_under over.now (S.fragments spans.now) }
{
    let mut count = 0;
    for f in over {
        count += count_ending(spans, f.at, f.at + f.len);
    }
    count
}

/// How many fragments lie whole between two places.
pub fn count_covered<S: Spans>(spans: &S, at: u64, end: u64) -> usize
    ensures { result ≡ length (covered at end (S.fragments spans.now)) }
{
    let mut count = 0;
    let mut place = at;
    while let Some(g) = next_covered(spans, place, end) {
        count += 1;
        place = g.at + g.len;
    }
    count
}

/// Adds all fragments, in order of place, to a list with room for them. It takes no memory.
pub fn list_fragments<S: Spans>(spans: &S, list: &mut Vec<Frag>)
    requires { vec_len list.old + length (S.fragments spans.now) ≤ vec_capacity list.old }
    ensures { list.new.items ≡ list.old.items ++ S.fragments spans.now }
{
    let mut place = 0;
    while let Some(f) = next_covered(spans, place, LONGEST_FILE) {
        list.push_reserved(f);
        place = f.at + f.len;
    }
}
