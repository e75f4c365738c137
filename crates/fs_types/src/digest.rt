//! A digest of sixteen bytes. A clause sees it as the list of them.

use std::marker::Model;

/// The MD5 digest of some bytes (RFC 1321).
#[derive(Clone, Copy, Debug, PartialEq, Eq)]
pub struct Digest16(pub [u8; 16]);

impl Model for Digest16 {
    ghost use Rattle.std.specs.Prelude.{ℕ, List};

    ghost Value = { List ℕ };

    ghost view = { λ a. a.0 };

    ghost inverse = { λ bytes. record { 0 = bytes } };
}
