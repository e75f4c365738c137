//! A read: it looks up what its range shows and pins the pieces of that, fetches one run of bytes
//! in each event that follows, and in the last one lets the pieces go and shows the bytes.

ghost use Rattle.std.specs.Prelude.{◌≡◌, ◌+◌, ◌-◌, ◌^◌, ◌<◌, ℕ, true, false, length, List, Option, IfOk, OnOk};
ghost use Rattle.piece_table.specs.PieceTable.{hold_of};
ghost use Rattle.fs_script.specs.Fits.{body_of};
ghost use Rattle.fs_script.specs.Vocabulary.{Job, Mark};
ghost use Rattle.fs_script.specs.declared.line.Op.{Op};
ghost use Rattle.core_machine.specs.Events.Read.{shows};
ghost use Rattle.owner_book.specs.Calls.{IsAsBefore};
ghost use Rattle.core_machine.specs.Follows.{EventFollows, IsWhole, ReadSound};
ghost use Rattle.client_files.specs.Noted.{later_of};
ghost use Rattle.client_map.specs.Kept.{pending_in};
ghost use Rattle.client_files.specs.declared.noted.Noted.{Noted};
ghost use Rattle.owner_book.specs.Kept.{path_in};
ghost use Rattle.core_machine.specs.ClientPath.{ChangesOwn, lines_then, own_of};
ghost use Rattle.core_machine.specs.Kept.{owned_of};
ghost use Rattle.core_machine.specs.Logs.{AreHeldSlots, AreInMemory, AreInOneSlot, HoldsStand, slot_in};
ghost use Rattle.core_machine.specs.Pins.{HaveSlots, either_hold, no_count, pin_count};
ghost use Rattle.core_machine.specs.Reads.{BeginsRead, IsSeenIn, found_hold};
ghost use Rattle.core_machine.specs.Settling.{Settles};
ghost use Rattle.core_machine.specs.Task.{IsReadTask, PinsRuns, reading_of};

use crate::books::Book;
use crate::client::Client;
use crate::digest::digest;
use crate::fetching::fetch_run;
use crate::pins::{let_go, pin_runs, table_of};
use crate::plain_hold::PlainHold;
use crate::read_runs::runs_of;
use crate::task::{ReadTask, Task};
use crate::view::view;
use fs_dev::SpillDev;
use fs_script::Op;
use fs_types::{Answer, Attr, Body, HEX_LIMIT, Path, ShortBytes, Want};
use owner_book::{BookNo, Looked};
use slot_plain::PlainLog;
use std::alloc::Global;

fn body(bytes: &[u8]) -> Body
    ensures { result ≡ body_of bytes.now }
{
    if bytes.len() <= HEX_LIMIT {
        Body::Hex(ShortBytes::new(bytes))
    } else {
        Body::Md5(digest(bytes))
    }
}

// Begins to read what is seen of a range: pins the pieces of what it shows.
fn begin<D: SpillDev + Drop>(
    alloc: Global,
    seen: Looked<PlainHold>,
    attr: Attr,
    client: &Client,
    p: &Path,
    off: u64,
    len: u64,
    logs: &mut [PlainLog<D>],
) -> Result<ReadTask, Want>
    requires seen { (marks : List (Option Mark)) × IsSeenIn marks off len
        (either_hold (found_hold seen) (pending_in client.now.pending p.now).hold_of) seen }
    requires slots { HaveSlots logs.old
        (either_hold (found_hold seen) (pending_in client.now.pending p.now).hold_of) }
    requires once { AreInOneSlot logs.old }
    requires held { AreHeldSlots logs.old }
    requires few { (r i : ℕ) → (slot_in logs.old r i).count < 2 ^ 64 - 1 }
    ensures { (s : Job) (marks : List (Option Mark)) → IsSeenIn marks off len
        (either_hold (found_hold seen) (pending_in client.now.pending p.now).hold_of) seen
        → IfOk result (λ t. BeginsRead s marks seen.v attr
        (either_hold (found_hold seen) (pending_in client.now.pending p.now).hold_of) t
        logs.old logs.new) }
{
    let runs = runs_of(alloc, &seen.frags, off)?;
    let shown = len.min(seen.attr.size.saturating_sub(off));
    let bytes = vec![in alloc; 0; shown as usize]?;
    let holds = table_of(alloc, &seen.holds)?;
    let pins = pin_runs(alloc, &holds, client, p, &runs, logs)?;
    Ok(ReadTask {
        version: seen.v,
        attr,
        runs,
        pins,
        fetched: 0,
        bytes,
    })
}

// Fetches one run more.
fn fetch_next<D: SpillDev + Drop>(t: &mut ReadTask, logs: &mut [PlainLog<D>])
    requires task { (s : Job) × IsReadTask s t.old × HoldsStand s logs.old (hold_of t.old.pins)
        × AreInMemory s logs.old }
    requires left { t.old.fetched < length t.old.runs.items }
    ensures reading { reading_of t.new
        ≡ record (reading_of t.old) { fetched = t.old.fetched + 1 } }
    ensures task { (s : Job) → IsReadTask s t.old → HoldsStand s logs.old (hold_of t.old.pins)
        → IsReadTask s t.new }
    ensures pins { t.new.pins ≡ t.old.pins }
    ensures attr { t.new.attr ≡ t.old.attr }
    ensures logs { logs.new ≡ logs.old }
{
    let run = t.runs[t.fetched];
    let Some(hold) = t.pins.get(run.piece) else {
        unreachable!()
    };
    fetch_run(logs, hold, &run, &mut t.bytes);
    t.fetched += 1;
}

// Lets go of all that is pinned, notes what was looked up, and shows the bytes.
fn finish<D: SpillDev + Drop>(
    alloc: Global,
    t: &mut ReadTask,
    p: &Path,
    client: &mut Client,
    logs: &mut [PlainLog<D>],
) -> Result<Answer, Want>
    requires pinned { PinsRuns t.old.runs.items t.old.pins }
    requires slots { HaveSlots logs.old (hold_of t.old.pins) }
    requires once { AreInOneSlot logs.old }
    requires held { AreHeldSlots logs.old }
    ensures answer { IfOk result (λ a. a ≡ shows t.old.version t.old.bytes.items) }
    ensures noted { OnOk result ((lines : List ℕ) → own_of client.new p.now lines
        ≡ record (own_of client.old p.now lines) {
          noted = later_of (own_of client.old p.now lines).noted
              (record { version = t.old.version; attr = t.old.attr });
        }) }
    ensures slots { Settles (pin_count t.old.pins) no_count logs.old logs.new }
    ensures elsewhere { ChangesOwn client.old client.new p.now }
{
    let_go(&t.runs, &mut t.pins, logs);
    client.note(alloc, p, t.version, t.attr)?;
    Ok(Answer::Shown {
        v: t.version,
        n: t.bytes.len() as u64,
        body: body(&t.bytes),
    })
}

/// One event of a read of at most `len` bytes from `off` on, of the file alone or with the client's
/// own pending writes put over it. No answer means that the line goes on. After want of memory all
/// that is kept is open, but what the book has, and the client of other paths.
pub fn read<D: SpillDev + Drop>(
    alloc: Global,
    off: u64,
    len: u64,
    with_own: bool,
    book: &mut Book,
    gfid: u64,
    p: &Path,
    client: &mut Client,
    task: &mut Task,
    logs: &mut [PlainLog<D>],
) -> Result<Option<Answer>, Want>
    requires sound { (s : Job) × (lines : List ℕ) × (told : Noted)
        × ReadSound s (Op.Read off len with_own) (record {
          owned = owned_of (path_in book.old gfid p.now) told;
          client = own_of client.old p.now lines;
          task = task.old;
          logs = logs.old;
        }) }
    requires once { AreInOneSlot logs.old }
    requires held { AreHeldSlots logs.old }
    requires few { (q i : ℕ) → (slot_in logs.old q i).count < 2 ^ 64 - 1 }
    ensures follows { (s : Job) (lines : List ℕ) (told : Noted) (n r : ℕ)
        → ReadSound s (Op.Read off len with_own) (record {
          owned = owned_of (path_in book.old gfid p.now) told;
          client = own_of client.old p.now lines;
          task = task.old;
          logs = logs.old;
        })
        → IfOk result (λ a. EventFollows s n (Op.Read off len with_own) r
        (record {
          owned = owned_of (path_in book.old gfid p.now) told;
          client = own_of client.old p.now lines;
          task = task.old;
          logs = logs.old;
        })
        (record {
          owned = owned_of (path_in book.new gfid p.now) told;
          client = own_of client.new p.now
              (lines_then (Op.Read off len with_own) n lines a);
          task = task.new;
          logs = logs.new;
        }) a) }
    ensures whole { (s : Job) (lines : List ℕ) (told : Noted) (n : ℕ)
        → ReadSound s (Op.Read off len with_own) (record {
          owned = owned_of (path_in book.old gfid p.now) told;
          client = own_of client.old p.now lines;
          task = task.old;
          logs = logs.old;
        })
        → IfOk result (λ a. IsWhole s (Op.Read off len with_own) (record {
          owned = owned_of (path_in book.new gfid p.now) told;
          client = own_of client.new p.now
              (lines_then (Op.Read off len with_own) n lines a);
          task = task.new;
          logs = logs.new;
        })) }
    ensures same { IsAsBefore book.old book.new }
    ensures elsewhere { ChangesOwn client.old client.new p.now }
{
    if let Task::Read(t) = task {
        if t.fetched < t.runs.len() {
            fetch_next(t, logs);
            return Ok(None);
        }
        let answer = finish(alloc, t, p, client, logs)?;
        *task = Task::Idle;
        return Ok(Some(answer));
    }
    if !client.files.is_open(p) {
        return Ok(Some(Answer::BadF));
    }
    let (v, attr) = book.attr(gfid, p);
    if !attr.exists {
        client.note(alloc, p, v, attr)?;
        return Ok(Some(Answer::NoEnt { v }));
    }
    let found = match book.lookup(alloc, gfid, p, off, len) {
        Ok(found) => found,
        Err(BookNo::Want) => return Err(Want),
        Err(_) => unreachable!(),
    };
    let seen = view(found, with_own, client, p, off, len)?;
    *task = Task::Read(begin(alloc, seen, attr, client, p, off, len, logs)?);
    Ok(None)
}
