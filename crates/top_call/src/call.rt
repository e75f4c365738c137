//! The call that the program makes: words, an input and an output in, a status out.

ghost use Rattle.std.specs.Prelude.{◌≡◌, ◌≢◌, map};
ghost use Rattle.std.specs.String.{string_bytes};
ghost use Rattle.fs_types.specs.Faults.{HasRisen};
ghost use Rattle.top_call.specs.Output.{WritesAnswer};
ghost use Rattle.top_call.specs.Top.{IsTopCall};

use crate::refusal::usage_text;
use crate::sim::{SimFault, sim};
use crate::words::{Command, read_command};
use fs_dev::{Host, Sink, Source, WriteFailed, write_all};
use fs_types::Status;
use std::alloc::Global;
use std::sync::Wait;
use std::thread::Threads;

// Writes the text of a status. Where the output fails the status is WriteFault.
fn write_answer<K: Sink>(out: &mut K, status: Status, text: &[u8]) -> Status
    requires { status ≢ Status.WriteFault }
    ensures written { WritesAnswer status text.now result (K.held out.old) (K.held out.new) }
    ensures risen { result ≡ Status.WriteFault → HasRisen (K.faults out.old) (K.faults out.new) }
    ensures calm { result ≢ Status.WriteFault → K.faults out.new ≡ K.faults out.old }
{
    match write_all(out, text) {
        Ok(()) => status,
        Err(WriteFailed) => Status::WriteFault,
    }
}

/// Does what the words ask for: reads the input, writes to `out`, and says how it ended. It serves
/// every command that starts no thread, and returns.
pub fn top_calm<S: Source, K: Sink, H: Host>(
    alloc: Global,
    words: &[String],
    input: &mut S,
    out: &mut K,
    host: &mut H,
) -> Status
    ensures { IsTopCall (map (λ w. string_bytes w) words.now) result
        (record { left = S.left; faults = S.faults; old = input.old; new = input.new })
        (record { held = K.held; faults = K.faults; old = out.old; new = out.new })
        host.old host.new }
{
    match read_command(words) {
        None => write_answer(out, Status::Usage, usage_text()),
        Some(Command::Sim { seed }) => match sim(alloc, seed, input, host) {
            Ok(reply) => write_answer(out, reply.status, &reply.text),
            Err(SimFault::ReadFault) => Status::ReadFault,
            Err(SimFault::Memory) => Status::Memory,
        },
    }
}

/// Does what the words ask for, on threads of `rt` where a command starts some. No command does so
/// yet: see [`top_calm`], which holds to the same contract.
pub fn top<R: Threads + Wait + Sync, S: Source, K: Sink, H: Host>(
    _rt: &R,
    alloc: Global,
    words: &[String],
    input: &mut S,
    out: &mut K,
    host: &mut H,
) -> Status
    ensures { IsTopCall (map (λ w. string_bytes w) words.now) result
        (record { left = S.left; faults = S.faults; old = input.old; new = input.new })
        (record { held = K.held; faults = K.faults; old = out.old; new = out.new })
        host.old host.new }
{
    top_calm(alloc, words, input, out, host)
}

#[cfg(test)]
mod tests;
