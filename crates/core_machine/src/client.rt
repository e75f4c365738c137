//! What a client keeps: which paths it has opened, what it noted of them, and what it wrote to them
//! and hasn't committed. It touches nothing outside memory.

ghost use Rattle.std.specs.Prelude.{◌≡◌, ◌++◌, ◌∷◌, ◌≤◌, [], ℕ, List, All, length, true, IfOk, OnOk};
ghost use Rattle.fs_script.specs.Vocabulary.{Job};
ghost use Rattle.client_files.specs.Noted.{later_of};
ghost use Rattle.client_map.specs.Kept.{pending_in};
ghost use Rattle.piece_table.specs.HeldSpans.{AreGone};
ghost use Rattle.core_machine.specs.ClientPath.{ChangesOwn, own_of, pending_of};
ghost use Rattle.core_machine.specs.Kept.{IsFreshClient};
ghost use Rattle.core_machine.specs.PendingWrites.{AddsHolds, ArePending, IsNonePending, IsPushOf, MayAddLine};
ghost use Rattle.core_machine.specs.PlainHolds.{AreHeldPlain};

use crate::plain_hold::PlainHold;
use client_files::Files;
use client_map::ClientMap;
use fs_types::{Attr, Path, Push, Version, Want};
use span_list::SpanList;
use std::alloc::Global;

/// What a client keeps.
#[derive(Drop)]
pub struct Client {
    /// The paths that it has opened, and what it noted of them.
    pub files: Files,
    /// What it wrote and hasn't committed.
    pub pending: ClientMap<PlainHold, SpanList>,
}

impl Client {
    /// A client that did nothing, for parts of at most so many bytes.
    pub fn new(alloc: Global, chunk: u32) -> Result<Client, Want>
        requires { 1 ≤ chunk }
        ensures fresh { IfOk result (λ c. (p : List ℕ) → IsFreshClient (own_of c p [])) }
        ensures chunk { IfOk result (λ c. c.pending.chunk ≡ chunk) }
    {
        Ok(Client {
            files: Files::new(alloc)?,
            pending: ClientMap::new(alloc, chunk)?,
        })
    }

    /// Opens a path.
    pub fn open(&mut self, alloc: Global, p: &Path) -> Result<(), Want>
        ensures opened { OnOk result ((lines : List ℕ) → own_of self.new p.now lines
            ≡ record (own_of self.old p.now lines) { is_open = true }) }
        ensures elsewhere { ChangesOwn self.old self.new p.now }
    {
        self.files.opened(alloc, p)
    }

    /// Notes a version of a path that the client was answered, with the attributes of its file
    /// there.
    pub fn note(&mut self, alloc: Global, p: &Path, v: Version, attr: Attr) -> Result<(), Want>
        ensures noted { OnOk result ((lines : List ℕ) → own_of self.new p.now lines
            ≡ record (own_of self.old p.now lines) {
              noted = later_of (own_of self.old p.now lines).noted
                  (record { version = v; attr = attr });
            }) }
        ensures elsewhere { ChangesOwn self.old self.new p.now }
    {
        self.files.note(alloc, p, v, attr)
    }

    /// Puts what a line writes to a path over what is pending there, by holds of its parts. Gives
    /// the holds of the pieces of which no byte is left.
    pub fn add(
        &mut self,
        alloc: Global,
        p: &Path,
        off: u64,
        len: u64,
        holds: Vec<PlainHold>,
    ) -> Result<Vec<PlainHold>, Want>
        requires line { (s : Job) × (n : ℕ) × MayAddLine s n off len holds.items self.old p.now }
        requires are_held { AreHeldPlain (pending_in self.old.pending p.now) }
        ensures files { self.new.files ≡ self.old.files }
        ensures pending { (s : Job) (n : ℕ) (lines : List ℕ)
            → MayAddLine s n off len holds.items self.old p.now
            → ArePending s (pending_of self.old p.now lines)
            → OnOk result (ArePending s (pending_of self.new p.now (lines ++ n ∷ []))) }
        ensures holds { (s : Job) (n : ℕ) → MayAddLine s n off len holds.items self.old p.now
            → OnOk result (AddsHolds n holds.items
            (pending_in self.old.pending p.now) (pending_in self.new.pending p.now)) }
        ensures dead { IfOk result (λ dead. AreGone (λ h. h.piece)
            (pending_in self.old.pending p.now) (pending_in self.new.pending p.now) dead.items) }
        ensures elsewhere { ChangesOwn self.old self.new p.now }
    {
        self.pending
            .add(alloc, p, off, len, holds)
            .map_err(|(want, _)| want)
    }

    /// All that is pending on a path, as a push; nothing is pending there any more.
    pub fn take(&mut self, p: &Path) -> Push<PlainHold>
        requires are_held { AreHeldPlain (pending_in self.old.pending p.now) }
        ensures files { self.new.files ≡ self.old.files }
        ensures push { IsPushOf (pending_in self.old.pending p.now) result }
        ensures none { IsNonePending (pending_of self.new p.now []) }
        ensures elsewhere { ChangesOwn self.old self.new p.now }
    {
        self.pending.take_all(p)
    }
}

/// So many clients that did nothing.
pub fn fresh_clients(alloc: Global, clients: u32, chunk: u32) -> Result<Vec<Client>, Want>
    requires { 1 ≤ chunk }
    ensures sized { IfOk result (λ v. length v.items ≡ clients) }
    ensures fresh { IfOk result (λ v. All (λ c. (p : List ℕ) → IsFreshClient (own_of c p []))
        v.items) }
    ensures chunks { IfOk result (λ v. All (λ c. c.pending.chunk ≡ chunk) v.items) }
{
    let mut each = Vec::with_capacity(alloc, clients as usize)?;
    for _ in 0..clients {
        each.push(Client::new(alloc, chunk)?)?;
    }
    Ok(each)
}
