//! The MD5 digest of bytes, for answers to long reads and for the states of files.

ghost use Rattle.std.specs.Prelude.{◌≡◌};
ghost use Rattle.md5.specs.Md5.{md5};

use fs_types::Digest16;
use md5::{Digest, Md5};

/// The MD5 digest of some bytes (RFC 1321).
pub fn digest(bytes: &[u8]) -> Digest16
    ensures { result ≡ md5 bytes.now }
{
    Digest16(Md5::digest(bytes))
}
