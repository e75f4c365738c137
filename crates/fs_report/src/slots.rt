//! The lines of clients' slots.

ghost use Rattle.std.specs.Prelude.{◌≡◌, ◌++◌, OnOk};
ghost use Rattle.std.specs.List.{flat_map};
ghost use Rattle.fs_script.specs.Text.{slot_line};

use crate::parts::append_number;
use crate::slot_list::SlotList;
use fs_types::{SlotLine, Want};

fn append_slot_line(out: &mut Vec<u8>, slots: &SlotLine) -> Result<(), Want>
    ensures { OnOk result (out.new.items ≡ out.old.items ++ slot_line slots.now) }
{
    append_number(out, b"S ", u64::from(slots.rank.0))?;
    append_number(out, b" held=", slots.held)?;
    append_number(out, b" free=", slots.free)?;
    append_number(out, b" faults=", slots.faults)?;
    out.push(b'\n')?;
    Ok(())
}

/// Appends the line of each client's slots.
pub fn append_slots(out: &mut Vec<u8>, slots: &SlotList) -> Result<(), Want>
    ensures { OnOk result (out.new.items ≡ out.old.items ++ flat_map slot_line slots.now) }
{
    for i in 0..slots.len() {
        append_slot_line(out, slots.at(i))?;
    }
    Ok(())
}
