//! What a report says of a path's file.

ghost use Rattle.std.specs.Prelude.{◌≡◌, map, IfOk, IfSome};
ghost use Rattle.fs_types.specs.Overwrite.{shown};
ghost use Rattle.fs_script.specs.Report.{file_state_of};
ghost use Rattle.fs_script.specs.Vocabulary.{Job, marked_byte};
ghost use Rattle.owner_book.specs.Calls.{IsAsBefore};
ghost use Rattle.owner_book.specs.Kept.{BookFile, path_in};
ghost use Rattle.core_machine.specs.BookFiles.{IsFile, marks_of_file};
ghost use Rattle.core_machine.specs.Kept.{file_hold, file_of};
ghost use Rattle.core_machine.specs.Logs.{AreInMemory, HoldsStand};
ghost use Rattle.core_machine.specs.Reads.{IsFoundIn};

use crate::books::Book;
use crate::digest::digest;
use crate::fetching::fetch_all;
use crate::pins::table_of;
use crate::plain_hold::PlainHold;
use crate::read_runs::runs_of;
use fs_dev::SpillDev;
use fs_script::limits::DIGEST_LIMIT;
use fs_types::{FileState, Path, Want};
use owner_book::Looked;
use slot_plain::PlainLog;
use std::alloc::Global;

// The first bytes of a file, from which its digest is made, by what was found of them.
fn first_bytes<D: SpillDev + Drop>(
    alloc: Global,
    found: &Looked<PlainHold>,
    logs: &mut [PlainLog<D>],
) -> Result<Vec<u8>, Want>
    requires found { (f : BookFile PlainHold) × IsFile f × IsFoundIn f 0 DIGEST_LIMIT found.now
        × (s : Job) × HoldsStand s logs.old f.held.hold_of × AreInMemory s logs.old }
    ensures bytes { IfOk result (λ v. (s : Job) (f : BookFile PlainHold) → IsFile f
        → IsFoundIn f 0 DIGEST_LIMIT found.now → HoldsStand s logs.old f.held.hold_of
        → v.items ≡ map (marked_byte s) (shown (marks_of_file f) 0 DIGEST_LIMIT)) }
    ensures logs { logs.new ≡ logs.old }
{
    let runs = runs_of(alloc, &found.frags, 0)?;
    let mut bytes = vec![in alloc; 0; found.attr.size.min(DIGEST_LIMIT) as usize]?;
    let holds = table_of(alloc, &found.holds)?;
    fetch_all(&holds, &runs, logs, &mut bytes);
    Ok(bytes)
}

/// The length of a path's file, whether it is frozen, and the digest of its first bytes.
pub fn file_state<D: SpillDev + Drop>(
    alloc: Global,
    book: &mut Book,
    gfid: u64,
    p: &Path,
    logs: &mut [PlainLog<D>],
) -> Result<FileState, Want>
    requires file { IfSome (path_in book.old gfid p.now).file IsFile }
    requires stand { (s : Job) × HoldsStand s logs.old (file_hold (path_in book.old gfid p.now).file)
        × AreInMemory s logs.old }
    ensures state { (s : Job)
        → HoldsStand s logs.old (file_hold (path_in book.old gfid p.now).file)
        → IfOk result (λ f. f ≡ file_state_of (file_of s (path_in book.old gfid p.now).file)) }
    ensures same { IsAsBefore book.old book.new }
    ensures logs { logs.new ≡ logs.old }
{
    if !book.attr(gfid, p).1.exists {
        return Ok(FileState::Gone);
    }
    let Ok(found) = book.lookup(alloc, gfid, p, 0, DIGEST_LIMIT) else {
        return Err(Want);
    };
    let bytes = first_bytes(alloc, &found, logs)?;
    Ok(FileState::Whole {
        n: found.attr.size,
        frozen: found.attr.frozen,
        md5: digest(&bytes),
    })
}
