//! Fragments of a vector, in whose place others are put. It touches nothing outside that vector.

ghost use Rattle.std.specs.Prelude.{◌≡◌, ◌≤◌, ◌+◌, ◌-◌, length, vec_len, vec_capacity};
ghost use Rattle.std.specs.List.{splice};

use fs_types::Frag;

// Writes others over those from a place on.
fn overwrite(frags: &mut Vec<Frag>, place: usize, new: &[Frag])
    requires { place + length new.now ≤ vec_len frags.old }
    ensures items { frags.new.items
        ≡ splice frags.old.items place (place + length new.now) new.now }
    ensures len { vec_len frags.new ≡ vec_len frags.old }
    ensures capacity { vec_capacity frags.new ≡ vec_capacity frags.old }
{
    frags[place..place + new.len()].copy_from_slice(new);
}

// Takes out those from the first to before the last, and puts others there, where there is room.
fn splice(frags: &mut Vec<Frag>, first: usize, last: usize, new: &[Frag])
    requires order { first ≤ last }
    requires within { last ≤ vec_len frags.old }
    requires room { vec_len frags.old + length new.now ≤ vec_capacity frags.old + (last - first) }
    ensures items { frags.new.items ≡ splice frags.old.items first last new.now }
    ensures len { vec_len frags.new + (last - first) ≡ vec_len frags.old + length new.now }
    ensures capacity { vec_capacity frags.old ≤ vec_capacity frags.new }
{
    frags.drain(first..last);
    frags.extend_from_slice(new).unwrap();
    frags[first..].rotate_right(new.len());
}

/// Puts others in the place of those from the first to before the last, where there is room. Those
/// behind are shifted by the difference of the two numbers, and not where there is none.
pub fn replace(frags: &mut Vec<Frag>, first: usize, last: usize, new: &[Frag])
    requires order { first ≤ last }
    requires within { last ≤ vec_len frags.old }
    requires room { vec_len frags.old + length new.now ≤ vec_capacity frags.old + (last - first) }
    ensures items { frags.new.items ≡ splice frags.old.items first last new.now }
    ensures len { vec_len frags.new + (last - first) ≡ vec_len frags.old + length new.now }
    ensures capacity { vec_capacity frags.old ≤ vec_capacity frags.new }
{
    // Then none is left to be taken out, or none to be put in.
    let (over, more) = new.split_at(new.len().min(last - first));
    overwrite(frags, first, over);
    splice(frags, first + over.len(), last, more);
}
