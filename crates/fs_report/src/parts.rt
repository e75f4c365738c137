//! Numbers and bytes as texts.

ghost use Rattle.std.specs.Prelude.{◌≡◌, [], ◌∷◌, ◌++◌, codes, OnOk};
ghost use Rattle.std.specs.Fmt.{decimal};
ghost use Rattle.hex.specs.Hex.{encode_lower};
ghost use Rattle.fs_script.specs.Text.{flag_text};

use fs_types::Want;
use itoa::Buffer;
use std::alloc::Global;

/// Appends a name and a number.
pub fn append_number(out: &mut Vec<u8>, name: &[u8], n: u64) -> Result<(), Want>
    ensures { OnOk result (out.new.items ≡ out.old.items ++ (name.now ++ decimal n)) }
{
    out.extend_from_slice(name)?;
    out.extend_from_slice(Buffer::new().format(n).as_bytes())?;
    Ok(())
}

/// Appends a name, and the bytes as two digits each.
pub fn append_hex(alloc: Global, out: &mut Vec<u8>, name: &[u8], bytes: &[u8]) -> Result<(), Want>
    ensures { OnOk result (out.new.items ≡ out.old.items ++ (name.now ++ encode_lower bytes.now)) }
{
    out.extend_from_slice(name)?;
    let digits = hex::encode(alloc, bytes)?;
    out.extend_from_slice(digits.as_bytes())?;
    Ok(())
}

fn flag(frozen: bool) -> u8
    ensures { flag_text frozen ≡ result ∷ [] }
{
    if frozen { b'1' } else { b'0' }
}

/// Appends, after a space, whether a file is frozen.
pub fn append_flag(out: &mut Vec<u8>, frozen: bool) -> Result<(), Want>
    ensures { OnOk result (out.new.items
        ≡ out.old.items ++ (codes " frozen=" ++ flag_text frozen)) }
{
    out.extend_from_slice(b" frozen=")?;
    out.push(flag(frozen))?;
    Ok(())
}
