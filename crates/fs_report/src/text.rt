//! The whole text.

ghost use Rattle.std.specs.Prelude.{◌≡◌, length, IfOk};
ghost use Rattle.fs_script.specs.Text.{text};
ghost use Rattle.fs_report.specs.ReportView.{report_view};

use crate::answers::append_answers;
use crate::paths::append_paths;
use crate::report::Report;
use crate::slots::append_slots;
use fs_types::Want;
use std::alloc::Global;

/// The text of a report.
pub fn report_text(alloc: Global, r: &Report) -> Result<Vec<u8>, Want>
    requires { length r.now.journals ≡ length r.now.files }
    ensures { IfOk result (λ v. v.items ≡ text (report_view r.now)) }
{
    let mut out = Vec::new(alloc);
    append_answers(alloc, &mut out, &r.answers)?;
    append_paths(alloc, &mut out, &r.journals, &r.files)?;
    append_slots(&mut out, &r.slots)?;
    out.extend_from_slice(b"end\n")?;
    Ok(out)
}
