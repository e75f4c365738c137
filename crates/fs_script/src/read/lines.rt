//! The lines of a text: a line feed ends each, and the last may lack it.

ghost use Rattle.std.specs.Prelude.{◌≡◌, [], length, MatchOption};
ghost use Rattle.fs_script.specs.Reading.Tokens.{BeginsWithLine, lines_of};

use crate::read::tokens::position_of;

/// The first line of the text and what follows it, or `None` where the text is empty.
pub fn next_line(text: &[u8]) -> Option<(&[u8], &[u8])>
    ensures { MatchOption result (lines_of text.now ≡ [])
        (λ x. BeginsWithLine text.now x.0.now x.1.now) }
{
    match position_of(b'\n', text) {
        Some(end) => Some((&text[..end], &text[end + 1..])),
        None if text.is_empty() => None,
        None => Some((text, &[])),
    }
}

/// How many lines the text has.
pub fn line_count(text: &[u8]) -> usize
    ensures { result ≡ length (lines_of text.now) }
{
    let mut count = 0;
    let mut rest = text;
    while let Some((_, others)) = next_line(rest) {
        count += 1;
        rest = others;
    }
    count
}
