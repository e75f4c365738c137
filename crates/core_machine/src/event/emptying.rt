//! What a sync, a truncation, a lamination and an unlink share: each leaves nothing pending for its
//! client. It touches what the client keeps for the path, and the slots of the logs.

ghost use Rattle.std.specs.Prelude.{◌≡◌, ℕ, List, [], false, All, AllPairs, IfOk, OnOk};
ghost use Rattle.fs_script.specs.Job.{Job};
ghost use Rattle.client_files.specs.Noted.{later_of};
ghost use Rattle.client_map.specs.Kept.{pending_in};
ghost use Rattle.core_machine.specs.ClientPath.{ChangesOwn, own_of, pending_of};
ghost use Rattle.core_machine.specs.Kept.{noted_of};
ghost use Rattle.core_machine.specs.Logs.{AreInOneSlot, HoldsStand, IsHeld, ReleasesAll};
ghost use Rattle.core_machine.specs.Logs.{are_of_one_slot};
ghost use Rattle.core_machine.specs.PendingWrites.{DropsPending};
ghost use Rattle.core_machine.specs.PlainHolds.{AreHeldPlain};

use crate::client::Client;
use crate::logs::release_all;
use crate::plain_hold::PlainHold;
use fs_dev::SpillDev;
use fs_types::{Answer, Attr, Path, Version, Want};
use owner_book::Committed;
use slot_plain::PlainLog;
use std::alloc::Global;

/// Drops what a client has pending, where a line is refused by what the owner says of the path at
/// version `v`: its slots are let go of, and the client notes what was said. After want of memory
/// what the client keeps for the path is open.
pub fn drop_pending<D: SpillDev + Drop>(
    alloc: Global,
    v: Version,
    attr: Attr,
    p: &Path,
    client: &mut Client,
    logs: &mut [PlainLog<D>],
) -> Result<(), Want>
    requires are_held { AreHeldPlain (pending_in client.old.pending p.now) }
    requires stand { (s : Job)
        × HoldsStand s logs.old (pending_in client.old.pending p.now).hold_of }
    requires once { AreInOneSlot logs.old }
    ensures noted { OnOk result ((lines : List ℕ) → own_of client.new p.now []
        ≡ record (own_of client.old p.now lines) {
          pending = pending_of client.new p.now [];
          noted = later_of (own_of client.old p.now lines).noted
              (record { version = v; attr = attr });
        }) }
    ensures drops { OnOk result ((lines : List ℕ) → DropsPending
        (pending_of client.old p.now lines) (pending_of client.new p.now []) logs.old logs.new) }
    ensures elsewhere { ChangesOwn client.old client.new p.now }
{
    let push = client.take(p);
    release_all(logs, &push.holds);
    client.note(alloc, p, v, attr)
}

/// Answers a line that was committed: the holds that this handed out are let go of, and the client
/// notes the version with the attributes of the file. After want of memory what the client keeps
/// for the path is open.
pub fn finish_commit<D: SpillDev + Drop>(
    alloc: Global,
    done: &Committed<PlainHold>,
    p: &Path,
    client: &mut Client,
    logs: &mut [PlainLog<D>],
) -> Result<Answer, Want>
    requires held { All (IsHeld logs.old) done.now.dead.items }
    requires apart { AllPairs (λ g h. are_of_one_slot g h ≡ false) done.now.dead.items }
    ensures answer { IfOk result (λ a. a ≡ Answer.Done done.now.v) }
    ensures noted { OnOk result ((lines : List ℕ) → own_of client.new p.now lines
        ≡ record (own_of client.old p.now lines) {
          noted = later_of (own_of client.old p.now lines).noted (noted_of done.now);
        }) }
    ensures logs { ReleasesAll done.now.dead.items logs.old logs.new }
    ensures elsewhere { ChangesOwn client.old client.new p.now }
{
    release_all(logs, &done.dead);
    client.note(alloc, p, done.v, done.attr)?;
    Ok(Answer::Done { v: done.v })
}
