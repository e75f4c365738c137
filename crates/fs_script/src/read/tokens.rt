//! The tokens of a text, such as the words of a line, one by one.

ghost use Rattle.std.specs.Prelude.{◌≡◌, ◌==◌, option_copied, option_map};
ghost use Rattle.std.specs.List.{position};
ghost use Rattle.fs_script.specs.Reading.Tokens.{tokens, one_token, two_tokens, three_tokens};

use std::marker::Model;

/// The tokens of a text between the places where a byte stands. A clause sees the list of those
/// that are still to come.
#[derive(Debug, Drop)]
pub struct Tokens<'a> {
    separator: u8,
    rest: Option<&'a [u8]>,
}

impl<'a> Model for Tokens<'a> {
    ghost use Rattle.std.specs.Prelude.{ℕ, List, option_copied};
    ghost use Rattle.fs_script.specs.Reading.Tokens.{tokens_left};

    ghost Value = { List (List ℕ) };

    ghost view = { λ p. tokens_left p.separator (option_copied p.rest) };
}

/// Where the byte first stands in the text.
pub fn position_of(byte: u8, text: &[u8]) -> Option<usize>
    ensures { result ≡ position (λ b. b == byte) text.now }
{
    text.iter().position(|b| *b == byte)
}

impl<'a> Tokens<'a> {
    pub fn new(separator: u8, text: &'a [u8]) -> Tokens<'a>
        ensures { result ≡ tokens separator text.now }
    {
        Tokens {
            separator,
            rest: Some(text),
        }
    }

    /// The token, where there is one and no other.
    pub fn one(mut self) -> Option<&'a [u8]>
        ensures { option_copied result ≡ one_token self.entry }
    {
        let first = self.next()?;
        if self.next().is_some() {
            return None;
        }
        Some(first)
    }

    /// The tokens, where there are two.
    pub fn two(mut self) -> Option<(&'a [u8], &'a [u8])>
        ensures { option_map (λ x. (x.0.now, x.1.now)) result ≡ two_tokens self.entry }
    {
        let first = self.next()?;
        let second = self.one()?;
        Some((first, second))
    }

    /// The tokens, where there are three.
    pub fn three(mut self) -> Option<(&'a [u8], &'a [u8], &'a [u8])>
        ensures { option_map (λ x. (x.0.now, x.1.now, x.2.now)) result ≡ three_tokens self.entry }
    {
        let first = self.next()?;
        let (second, third) = self.two()?;
        Some((first, second, third))
    }
}

impl<'a> Iterator for Tokens<'a> {
    ghost use Rattle.std.specs.Iterator.{item_count, YieldsFirstRef};

    type Item = &'a [u8];

    ghost next_gives = { YieldsFirstRef (λ s. s) };

    ghost remaining = { item_count (λ s. s) };

    fn next(&mut self) -> Option<&'a [u8]> {
        let text = self.rest?;
        match position_of(self.separator, text) {
            Some(end) => {
                self.rest = Some(&text[end + 1..]);
                Some(&text[..end])
            }
            None => {
                self.rest = None;
                Some(text)
            }
        }
    }
}
