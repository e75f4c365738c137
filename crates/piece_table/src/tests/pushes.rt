//! Pushes of two pieces over fragments.

ghost use Rattle.std.specs.Prelude.{◌≡◌, ◌∷◌, [], ℕ, None, true, IfOk};
ghost use Rattle.fs_types.specs.Fragments.{IsWellFormedPush};
ghost use Rattle.piece_table.specs.HeldSpans.{AreHeld, held};

use super::{Kept, assert_stand, held_of, lines, piece, put};
use fs_types::{Frag, LONGEST_FILE, MemHold, Push};
use std::alloc::Global;
use std::test::Fail;

// A push of two pieces: the first of line 11, the whole second, of line 12, and the rest of the
// first.
fn push_of(alloc: Global, at: u64, lens: [u32; 3]) -> Result<Push<MemHold>, Fail>
    ensures well_formed { IfOk result (IsWellFormedPush (λ h. h.piece) (λ h. h.bytes)) }
    ensures holds { IfOk result (λ push. (a : ℕ) × (b : ℕ) × (push.holds.items
        ≡ record { piece = record { line = 11; part = 0 }; bytes = a; room = None }
        ∷ record { piece = record { line = 12; part = 0 }; bytes = b; room = None } ∷ [])) }
{
    let [before, between, behind] = lens;
    if before == 0 || between == 0 || behind == 0 || at > LONGEST_FILE / 2 {
        return Err("fragments of no file".into());
    }
    let Some(bytes) = before.checked_add(behind) else {
        return Err("a piece that is too long".into());
    };
    let first = piece(11);
    let second = piece(12);
    let mut frags = Vec::new(alloc);
    let mut holds = Vec::new(alloc);
    let len = u64::from(before);
    frags.push(Frag {
        at,
        len,
        piece: first,
        from: 0,
    })?;
    let at = at + len;
    let len = u64::from(between);
    frags.push(Frag {
        at,
        len,
        piece: second,
        from: 0,
    })?;
    let at = at + len;
    let len = u64::from(behind);
    frags.push(Frag {
        at,
        len,
        piece: first,
        from: before,
    })?;
    holds.push(MemHold::new(first, bytes, None))?;
    holds.push(MemHold::new(second, between, None))?;
    Ok(Push { frags, holds })
}

// Puts such a push.
fn put_push(kept: &mut Kept, push: Push<MemHold>, dead: &mut Vec<MemHold>) -> Result<(), Fail>
    requires are_held { AreHeld (λ _. true) (λ h. h.piece) (λ h. h.bytes) (held kept.old) }
    requires well_formed { IsWellFormedPush (λ h. h.piece) (λ h. h.bytes) push }
    requires holds { (a : ℕ) × (b : ℕ) × (push.holds.items
        ≡ record { piece = record { line = 11; part = 0 }; bytes = a; room = None }
        ∷ record { piece = record { line = 12; part = 0 }; bytes = b; room = None } ∷ []) }
    ensures are_held { AreHeld (λ _. true) (λ h. h.piece) (λ h. h.bytes) (held kept.new) }
{
    if kept.get(piece(11)).is_some() || kept.get(piece(12)).is_some() {
        return Err("a piece is there".into());
    }
    match kept.put_push(push, dead) {
        Ok(()) => Ok(()),
        Err(_) => Err("there is memory".into()),
    }
}

#[test]
fn a_push_is_put_over_fragments(rt: HostRuntime) -> Result<(), Fail> {
    let alloc = rt.alloc();
    for (name, at, lens, marks, want) in [
        (
            "over an end and a begin",
            5,
            [2, 3, 5],
            [
                (4, 1),
                (5, 11),
                (6, 11),
                (7, 12),
                (9, 12),
                (10, 11),
                (14, 11),
                (15, 2),
            ]
            .as_slice(),
            [].as_slice(),
        ),
        (
            "over all of one",
            0,
            [3, 4, 3],
            &[
                (0, 11),
                (2, 11),
                (3, 12),
                (6, 12),
                (7, 11),
                (9, 11),
                (10, 2),
            ],
            &[1],
        ),
        (
            "over all",
            0,
            [9, 1, 10],
            &[(0, 11), (8, 11), (9, 12), (10, 11), (19, 11)],
            &[1, 2],
        ),
        (
            "behind all",
            20,
            [1, 1, 1],
            &[(0, 1), (19, 2), (20, 11), (21, 12), (22, 11)],
            &[],
        ),
    ] {
        let mut dead = Vec::new(alloc);
        let mut kept = held_of(alloc, &[(0, 10, 1), (10, 10, 2)], &mut dead)?;
        put_push(&mut kept, push_of(alloc, at, lens)?, &mut dead)?;
        assert_stand(&rt, name, &kept, marks);
        let found = lines(alloc, &dead)?;
        assert_eq!(rt; found.as_slice(), want, "{name}");
        assert_eq!(rt; kept.piece_count(), 4 - want.len(), "{name}");
    }
    Ok(())
}

#[test]
fn a_piece_of_a_push_is_held_for_each_of_its_fragments(rt: HostRuntime) -> Result<(), Fail> {
    let alloc = rt.alloc();
    let mut dead = Vec::new(alloc);
    let mut kept = held_of(alloc, &[], &mut dead)?;
    put_push(&mut kept, push_of(alloc, 0, [4, 2, 4])?, &mut dead)?;
    for (at, len, line, want) in [
        (0, 4, 1, [].as_slice()),
        (4, 2, 2, &[12]),
        (6, 4, 3, &[11, 12]),
    ] {
        put(&mut kept, at, len, line, &mut dead)?;
        let found = lines(alloc, &dead)?;
        assert_eq!(rt; found.as_slice(), want, "line {line}");
    }
    Ok(())
}
