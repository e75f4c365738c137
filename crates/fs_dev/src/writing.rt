//! Writing all of a text.

ghost use Rattle.std.specs.Prelude.{◌≡◌, OnOk, OnErr};
ghost use Rattle.fs_types.specs.Faults.{HasRisen};
ghost use Rattle.fs_dev.specs.Sink.{TookFront};
ghost use Rattle.fs_dev.specs.Told.{then_bytes};

use crate::sink::{Sink, WriteFailed};

/// Writes all bytes of `b`. After a failure the sink has taken some of the first, and not all.
#[tactic(auto, using(crate::proofs::ToldLemmas::bytes_steps))]
pub fn write_all<K: Sink>(out: &mut K, b: &[u8]) -> Result<(), WriteFailed>
    ensures whole { OnOk result (K.held out.new ≡ then_bytes (K.held out.old) b.now) }
    ensures calm { OnOk result (K.faults out.new ≡ K.faults out.old) }
    ensures risen { OnErr result (HasRisen (K.faults out.old) (K.faults out.new)) }
    ensures front { OnErr result (TookFront b.now (K.held out.old) (K.held out.new)) }
{
    let mut at = 0;
    while at < b.len() {
        at += out.write(&b[at..])?;
    }
    Ok(())
}
