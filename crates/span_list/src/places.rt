//! A vector of sorted fragments: where a place stands in it, and what is put there.

ghost use Rattle.std.specs.Prelude.{◌≡◌, ◌≤◌, ◌<◌, ◌+◌, ◌-◌, ◌++◌, not, take, drop, length};
ghost use Rattle.std.specs.Prelude.{vec_len, vec_capacity, OnSome};
ghost use Rattle.std.specs.List.{flat_map, position_or_len};
ghost use Rattle.std.specs.Option.{option_to_list};
ghost use Rattle.span_list.specs.Spans.{AreSpans, IsSpan, begins_from, ends_after, cut_fragments};
ghost use Rattle.span_list.specs.Spans.{next_fragment, put_fragment, rest_before, rest_from};

use crate::replacing::replace;
use crate::rests::{rest_before, rest_from};
use fs_types::Frag;

// How many of the first fragments end at or before a place.
fn count_ended(frags: &[Frag], at: u64) -> usize
    requires { AreSpans frags.now }
    ensures count { result ≡ position_or_len (ends_after at) frags.now }
    ensures within { result ≤ length frags.now }
{
    frags.partition_point(
        |f: &Frag| -> bool
            ensures { result ≡ not (ends_after at f.now) }
        { f.at <= at && f.len <= at - f.at },
    )
}

// How many of the first fragments begin before a place.
fn count_begun(frags: &[Frag], at: u64) -> usize
    requires { AreSpans frags.now }
    ensures count { result ≡ position_or_len (begins_from at) frags.now }
    ensures within { result ≤ length frags.now }
{
    frags.partition_point(
        |f: &Frag| -> bool
            ensures { result ≡ not (begins_from at f.now) }
        { f.at < at },
    )
}

/// The first fragment that ends after a place, if any.
pub fn next_in_list(frags: &[Frag], at: u64) -> Option<Frag>
    requires { AreSpans frags.now }
    ensures { result ≡ next_fragment at frags.now }
{
    frags[count_ended(frags, at)..].first().copied()
}

// How many of the fragments stand whole before a place, and what of the next one stands before it.
fn part_before(frags: &[Frag], at: u64) -> (usize, Option<Frag>)
    requires { AreSpans frags.now }
    ensures part { flat_map (rest_before at) frags.now
        ≡ take result.0 frags.now ++ option_to_list result.1 }
    ensures count { result.0 ≡ position_or_len (ends_after at) frags.now }
    ensures next { OnSome result.1 (result.0 < length frags.now) }
{
    let whole = count_ended(frags, at);
    match frags[whole..].first() {
        Some(f) => (whole, rest_before(*f, at)),
        None => (whole, None),
    }
}

// What of the last fragment that begins before a place stands from the place on, and how many
// fragments there are up to that one.
fn part_from(frags: &[Frag], at: u64) -> (Option<Frag>, usize)
    requires { AreSpans frags.now }
    ensures part { flat_map (rest_from at) frags.now
        ≡ option_to_list result.0 ++ drop result.1 frags.now }
    ensures count { result.1 ≡ position_or_len (begins_from at) frags.now }
    ensures within { result.1 ≤ length frags.now }
{
    let begun = count_begun(frags, at);
    match frags[..begun].last() {
        Some(f) => (rest_from(*f, at), begun),
        None => (None, begun),
    }
}

// What a range takes away from fragments: those from the first to before the last, of which
// something may be left on each side.
#[derive(Drop)]
struct Gap {
    first: usize,
    last: usize,
    before: Option<Frag>,
    behind: Option<Frag>,
}

// The gap from a place to before another.
fn gap_between(frags: &[Frag], at: u64, end: u64) -> Gap
    requires spans { AreSpans frags.now }
    requires rising { at < end }
    ensures before { flat_map (rest_before at) frags.now
        ≡ take result.first frags.now ++ option_to_list result.before }
    ensures behind { flat_map (rest_from end) frags.now
        ≡ option_to_list result.behind ++ drop result.last frags.now }
    ensures order { result.first ≤ result.last }
    ensures within { result.last ≤ length frags.now }
    ensures few { length (option_to_list result.before) + length (option_to_list result.behind)
        ≤ 1 + (result.last - result.first) }
{
    let (first, before) = part_before(frags, at);
    let (behind, last) = part_from(frags, end);
    Gap {
        first,
        last,
        before,
        behind,
    }
}

/// Puts a fragment over the others, where there is room for two more.
pub fn put_in_list(frags: &mut Vec<Frag>, f: Frag)
    requires spans { AreSpans frags.old.items }
    requires span { IsSpan f }
    requires room { vec_len frags.old + 2 ≤ vec_capacity frags.old }
    ensures items { frags.new.items ≡ put_fragment f frags.old.items }
    ensures len { vec_len frags.new ≤ vec_len frags.old + 2 }
    ensures capacity { vec_capacity frags.old ≤ vec_capacity frags.new }
{
    let gap = gap_between(frags, f.at, f.at + f.len);
    match (gap.before, gap.behind) {
        (None, None) => replace(frags, gap.first, gap.last, &[f]),
        (Some(before), None) => replace(frags, gap.first, gap.last, &[before, f]),
        (None, Some(behind)) => replace(frags, gap.first, gap.last, &[f, behind]),
        (Some(before), Some(behind)) => {
            replace(frags, gap.first, gap.last, &[before, f, behind])
        }
    }
}

/// Drops all bytes from a place on.
pub fn cut_list(frags: &mut Vec<Frag>, size: u64)
    requires { AreSpans frags.old.items }
    ensures items { frags.new.items ≡ cut_fragments size frags.old.items }
    ensures capacity { vec_capacity frags.old ≤ vec_capacity frags.new }
    ensures len { vec_len frags.new ≤ vec_len frags.old }
{
    let (whole, rest) = part_before(frags, size);
    frags.truncate(whole);
    if let Some(rest) = rest {
        frags.push_reserved(rest);
    }
}
