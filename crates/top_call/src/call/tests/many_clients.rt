//! A job of as many clients and servers as there may be. Each client commits a digit to a file of
//! its own, and after a barrier it reads the file of the next client.

use std::alloc::{AllocError, Global};

const CLIENTS: u32 = 64;

/// The MD5 digests of the texts 0 to 9.
const DIGESTS: [&str; 10] = [
    "cfcd208495d565ef66e7dff9f98764da",
    "c4ca4238a0b923820dcc509a6f75849b",
    "c81e728d9d4c2f636f067f89cc14862c",
    "eccbc87e4b5ce2fe28308fd9f2a7baf3",
    "a87ff679a2f3e71d9181a67b7542122c",
    "e4da3b7fbbce2345d7772b0674a318d5",
    "1679091c5a880faf6fb5e6087eb1b2dc",
    "8f14e45fceea167a5a36dedd4bea2543",
    "c9f0f895fb98ab9159f51fd0297e236d",
    "45c48cce2e2d7fbdea1afc51c7c6ad26",
];

/// The script. Line 194 is the barrier.
pub fn neighbours_job(alloc: Global) -> Result<String, AllocError> {
    let header = "unifyfs 1 servers=64 clients=64 chunk=64 shmem=1 spill=0\n";
    let mut job = String::from_str(alloc, header)?;
    for r in 0..CLIENTS {
        write!(job, "{r} create /unifyfs/f{r:02}\n")?;
        write!(job, "{r} write /unifyfs/f{r:02} 0 t:{}\n", r % 10)?;
        write!(job, "{r} sync /unifyfs/f{r:02}\n")?;
    }
    job.push_str("barrier\n")?;
    for r in 0..CLIENTS {
        let next = (r + 1) % CLIENTS;
        write!(job, "{r} open /unifyfs/f{next:02}\n")?;
        write!(job, "{r} read /unifyfs/f{next:02} 0 2\n")?;
    }
    Ok(job)
}

/// Its report, whoever goes next.
pub fn neighbours_report(alloc: Global) -> Result<String, AllocError> {
    let mut report = String::new(alloc);
    for r in 0..CLIENTS {
        let create = 3 * r + 2;
        write!(report, "L {create} ok v=1\n")?;
        write!(report, "L {} ok slots=1\n", create + 1)?;
        write!(report, "L {} ok v=2\n", create + 2)?;
    }
    for r in 0..CLIENTS {
        let open = 2 * r + 195;
        let digit = (r + 1) % CLIENTS % 10;
        write!(report, "L {open} ok v=2\n")?;
        write!(report, "L {} ok v=2 n=1 hex=3{digit}\n", open + 1)?;
    }
    for r in 0..CLIENTS {
        let create = 3 * r + 2;
        let digest = DIGESTS[(r % 10) as usize];
        write!(report, "J /unifyfs/f{r:02} {create} {}\n", create + 2)?;
        write!(report, "F /unifyfs/f{r:02} n=1 frozen=0 md5={digest}\n")?;
    }
    for r in 0..CLIENTS {
        write!(report, "S {r} held=1 free=0 faults=0\n")?;
    }
    report.push_str("end\n")?;
    Ok(report)
}
