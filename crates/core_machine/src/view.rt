//! What a client sees of a range of a file: what was found there alone, or with the client's own
//! pending writes put over it. It touches nothing outside memory.

ghost use Rattle.std.specs.Prelude.{◌≡◌, ◌+◌, ℕ, List, true, None, is_some, IfOk};
ghost use Rattle.fs_types.specs.Pieces.{Piece};
ghost use Rattle.client_map.specs.Kept.{pending_in};
ghost use Rattle.piece_table.specs.HeldSpans.{put_fragments};
ghost use Rattle.span_list.specs.Spans.{AreSpans};
ghost use Rattle.fs_script.specs.Vocabulary.{Job, shown};
ghost use Rattle.owner_book.specs.Kept.{BookFile};
ghost use Rattle.owner_book.specs.Lookups.{parts_in};
ghost use Rattle.core_machine.specs.BookFiles.{IsFile};
ghost use Rattle.core_machine.specs.ClientPath.{pending_of};
ghost use Rattle.core_machine.specs.PendingWrites.{ArePending};
ghost use Rattle.core_machine.specs.Pins.{either_hold};
ghost use Rattle.core_machine.specs.Reads.{IsFoundIn, IsSeenIn, found_hold, marks_seen};

use crate::client::Client;
use crate::plain_hold::PlainHold;
use fs_types::{Attr, Frag, Path, Want};
use owner_book::{Looked, part_within};
use span_list::{SpanList, Spans};

// Puts what a client has pending on a path in a range over fragments, which are in order.
fn put_parts(
    base: Vec<Frag>,
    client: &Client,
    p: &Path,
    from: u64,
    to: u64,
) -> Result<Vec<Frag>, Want>
    requires { AreSpans base.items }
    ensures put { IfOk result (λ v. v.items ≡ put_fragments
        (parts_in from to (pending_in client.now.pending p.now).fragments) base.items) }
    ensures spans { IfOk result (λ v. AreSpans v.items) }
{
    let mut spans = SpanList::from_frags(base);
    let mut at = from;
    while let Some(part) = part_within(client.pending.next(p, at), at, to) {
        at = part.at + part.len;
        spans.put(part)?;
    }
    Ok(spans.into_frags())
}

/// What a client sees of at most `len` bytes of a path from `off` on, by what was found there of
/// the file: that alone, or with the client's pending writes put over it.
pub fn view(
    found: Looked<PlainHold>,
    with_own: bool,
    client: &Client,
    p: &Path,
    off: u64,
    len: u64,
) -> Result<Looked<PlainHold>, Want>
    requires { AreSpans found.frags.items }
    ensures seen { IfOk result (λ seen. (s : Job) (lines : List ℕ) (f : BookFile PlainHold)
        → IsFile f → IsFoundIn f off len found
        → ArePending s (pending_of client.now p.now lines)
        → ((q : Piece)
        → is_some ((pending_in client.now.pending p.now).hold_of q) ≡ true
        → f.held.hold_of q ≡ None)
        → IsSeenIn (shown (marks_seen s with_own lines f) off len) off len
        (either_hold (found_hold seen) (pending_in client.now.pending p.now).hold_of) seen) }
    ensures holds { IfOk result (λ seen. seen.holds ≡ found.holds) }
    ensures version { IfOk result (λ seen. seen.v ≡ found.v) }
{
    if !with_own {
        return Ok(found);
    }
    let size = found.attr.size.max(client.pending.end(p));
    // No fragment ends behind the longest file, so an end that is cut off leaves out none.
    let frags = put_parts(found.frags, client, p, off, off.saturating_add(len))?;
    Ok(Looked {
        v: found.v,
        attr: Attr { size, ..found.attr },
        frags,
        holds: found.holds,
        bare: found.bare,
    })
}
