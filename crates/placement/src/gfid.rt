//! The gfid of a path, a number that is found from its digest. Two paths may have the same.

ghost use Rattle.std.specs.Prelude.{◌≡◌};
ghost use Rattle.placement.specs.Placement.{gfid, gfid_of_digest};

use byteorder::{BigEndian, ByteOrder};
use fs_types::Path;
use md5::{Digest, Md5};

/// The gfid of a path: that of the MD5 digest of all its bytes.
pub fn gfid_of(p: &Path) -> u64
    ensures { result ≡ gfid p.now }
{
    gfid_of_bytes(p.as_bytes())
}

/// The gfid of the path that these bytes spell.
pub fn gfid_of_bytes(path: &[u8]) -> u64
    ensures { result ≡ gfid path.now }
{
    gfid_of_digest(&Md5::digest(path))
}

/// The number that the first eight bytes of a digest spell, the highest first.
pub fn gfid_of_digest(d: &[u8; 16]) -> u64
    ensures { result ≡ gfid_of_digest d.now }
{
    BigEndian::read_u64(d)
}
