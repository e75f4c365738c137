//! The lines of journals and files.

ghost use Rattle.std.specs.Prelude.{◌≡◌, ◌∷◌, ◌++◌, length, OnOk};
ghost use Rattle.std.specs.List.{flat_map};
ghost use Rattle.fs_script.specs.Text.{entry_text, file_line, file_words, journal_line, path_lines};
ghost use Rattle.fs_script.specs.Grammar.{spaced};

use crate::file_list::FileList;
use crate::parts::{append_flag, append_hex, append_number};
use fs_plain::Journals;
use fs_types::{FileState, LineNo, Path, Want};
use std::alloc::Global;

fn append_entries(out: &mut Vec<u8>, journal: &[LineNo]) -> Result<(), Want>
    ensures { OnOk result (out.new.items ≡ out.old.items ++ flat_map entry_text journal.now) }
{
    for line in journal {
        append_number(out, b" ", u64::from(line.0))?;
    }
    Ok(())
}

fn append_journal(out: &mut Vec<u8>, path: &Path, journal: &[LineNo]) -> Result<(), Want>
    ensures { OnOk result (out.new.items ≡ out.old.items ++ journal_line (path.now, journal.now)) }
{
    out.extend_from_slice(b"J ")?;
    out.extend_from_slice(path.as_bytes())?;
    append_entries(out, journal)?;
    out.push(b'\n')?;
    Ok(())
}

fn append_state(alloc: Global, out: &mut Vec<u8>, state: &FileState) -> Result<(), Want>
    ensures { OnOk result (out.new.items ≡ out.old.items ++ 32 ∷ spaced (file_words state.now)) }
{
    match state {
        FileState::Gone => out.extend_from_slice(b" none")?,
        FileState::Whole { n, frozen, md5 } => {
            append_number(out, b" n=", *n)?;
            append_flag(out, *frozen)?;
            append_hex(alloc, out, b" md5=", &md5.0)?;
        }
        FileState::Unread { n, frozen, rank } => {
            append_number(out, b" n=", *n)?;
            append_flag(out, *frozen)?;
            append_number(out, b" devfault r=", u64::from(rank.0))?;
        }
    }
    Ok(())
}

fn append_file(alloc: Global, out: &mut Vec<u8>, path: &Path, state: &FileState) -> Result<(), Want>
    ensures { OnOk result (out.new.items ≡ out.old.items ++ file_line (path.now, state.now)) }
{
    out.extend_from_slice(b"F ")?;
    out.extend_from_slice(path.as_bytes())?;
    append_state(alloc, out, state)?;
    out.push(b'\n')?;
    Ok(())
}

/// Appends each journal, followed by the file at the same place.
pub fn append_paths(
    alloc: Global,
    out: &mut Vec<u8>,
    journals: &Journals,
    files: &FileList,
) -> Result<(), Want>
    requires { length journals.now ≡ length files.now }
    ensures { OnOk result (out.new.items ≡ out.old.items ++ path_lines journals.now files.now) }
{
    for i in 0..journals.len() {
        let (path, journal) = journals.at(i);
        append_journal(out, path, journal)?;
        let (path, state) = files.at(i);
        append_file(alloc, out, path, state)?;
    }
    Ok(())
}
