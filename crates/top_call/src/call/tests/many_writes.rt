//! A job that writes more often than its log has slots: each commit leaves nothing of the write
//! before it.

use std::alloc::{AllocError, Global};

const WRITES: u32 = 500;

/// The script. Write `i` has the pattern of seed `i`, which has 64 bytes.
pub fn overwriting_job(alloc: Global) -> Result<String, AllocError> {
    let header = "unifyfs 1 servers=1 clients=1 chunk=64 shmem=4 spill=0\n";
    let mut job = String::from_str(alloc, header)?;
    job.push_str("0 create /unifyfs/a\n")?;
    for i in 1..=WRITES {
        write!(job, "0 write /unifyfs/a 0 p:{i}:64\n")?;
        job.push_str("0 sync /unifyfs/a\n")?;
    }
    Ok(job)
}

/// Its report. The file is the pattern of seed 500, which begins with the byte 244.
pub fn overwriting_report(alloc: Global) -> Result<String, AllocError> {
    let mut report = String::from_str(alloc, "L 2 ok v=1\n")?;
    for i in 1..=WRITES {
        write!(report, "L {} ok slots=1\n", 2 * i + 1)?;
        write!(report, "L {} ok v={}\n", 2 * i + 2, i + 1)?;
    }
    report.push_str("J /unifyfs/a 2")?;
    for i in 1..=WRITES {
        write!(report, " {}", 2 * i + 2)?;
    }
    report.push_str("\nF /unifyfs/a n=64 frozen=0 md5=ad42798ae985e60e36157c63fbefeb97\n")?;
    report.push_str("S 0 held=1 free=3 faults=0\nend\n")?;
    Ok(report)
}
