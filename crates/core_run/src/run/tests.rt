mod cases;
mod frozen;
mod lives;

use self::cases::RUNS;
use self::frozen::FROZEN_FILES;
use self::lives::LIVES;
use super::simulate;
use fs_dev::NoHost;
use fs_report::report_text;
use fs_script::read_script;
use std::test::Fail;

#[test]
fn a_run_under_picks_has_its_report(rt: HostRuntime) -> Result<(), Fail> {
    let alloc = rt.alloc();
    for cases in [RUNS.as_slice(), LIVES.as_slice(), FROZEN_FILES.as_slice()] {
        for (i, (text, picks, output)) in cases.iter().enumerate() {
            let script = read_script(alloc, text)
                .ok()
                .ok_or("the bytes are a script")?;
            let end = simulate(alloc, &script, picks, &mut NoHost::new())?;
            let written = report_text(alloc, &end.report)?;
            assert!(rt; written.as_slice() == *output, "case {i}");
            assert!(rt; end.outs.is_empty());
        }
    }
    Ok(())
}
