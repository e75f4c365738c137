//! Bytes that are given a few at a time.

ghost use Rattle.std.specs.Prelude.{◌≡◌, ◌≤◌, length, take, drop};
ghost use Rattle.fs_dev.specs.InMemory.{Portions, portion_len, after_portion};

use std::marker::Model;

/// Bytes of which those before a place have been given, and the most that are given at a time.
#[derive(Debug, Drop)]
pub struct PortionedBytes {
    bytes: Vec<u8>,
    at: usize,
    step: usize,
}

impl Model for PortionedBytes {
    ghost use Rattle.std.specs.Prelude.{◌≤◌, drop, vec_len};
    ghost use Rattle.fs_dev.specs.InMemory.{Portions};

    ghost Value = { Portions };

    ghost view = { λ p. record { left = drop p.at p.bytes.items; step = p.step } };

    ghost invariant = { λ p. (p.at ≤ vec_len p.bytes) × (1 ≤ p.step) };
}

impl PortionedBytes {
    pub fn new(bytes: Vec<u8>, step: usize) -> PortionedBytes
        requires { 1 ≤ step }
        ensures { result ≡ record { left = bytes.items; step = step } }
    {
        PortionedBytes { bytes, at: 0, step }
    }

    /// Puts the next bytes at the front of `out`, and says how many they are.
    pub fn give(&mut self, out: &mut [u8]) -> usize
        ensures count { result ≡ portion_len self.old (length out.old) }
        ensures left { self.new ≡ after_portion self.old result }
        ensures given { take result out.new ≡ take result self.old.left }
        ensures beyond { drop result out.new ≡ drop result out.old }
        ensures some { 1 ≤ self.old.step }
    {
        let left = &self.bytes[self.at..];
        let n = self.step.min(out.len()).min(left.len());
        out[..n].copy_from_slice(&left[..n]);
        self.at += n;
        n
    }
}
