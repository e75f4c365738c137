//! Numbers: decimal, below 2 ^ 64, with no leading zero.

ghost use Rattle.std.specs.Prelude.{◌≡◌};
ghost use Rattle.std.specs.List.{list_all};
ghost use Rattle.std.specs.Char.{is_ascii_digit};
ghost use Rattle.fs_script.specs.Reading.Numbers.{is_numeral, number_of};

fn are_digits(word: &[u8]) -> bool
    ensures { result ≡ list_all is_ascii_digit word.now }
{
    word.iter().all(|b| b.is_ascii_digit())
}

#[tactic(auto, using(crate::proofs::Number::all_ascii_digits_is))]
fn is_numeral(word: &[u8]) -> bool
    ensures { result ≡ is_numeral word.now }
{
    are_digits(word) && !word.is_empty() && (word.len() == 1 || word[0] != b'0')
}

/// The number that the word spells.
pub fn read_number(word: &[u8]) -> Option<u64>
    ensures { result ≡ number_of word.now }
{
    if !is_numeral(word) {
        return None;
    }
    let mut value: u64 = 0;
    for b in word {
        value = value.checked_mul(10)?.checked_add(u64::from(b - b'0'))?;
    }
    Some(value)
}
