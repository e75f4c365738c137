//! Calls with what they answer.

use fs_types::Status;

/// The words of a call, the bytes of its input, the status, and the whole output.
pub type Case = (
    &'static [&'static str],
    &'static [u8],
    Status,
    &'static [u8],
);

pub const SIM: &[&str] = &["sim", "0"];

const SIM_1: &[&str] = &["sim", "1"];

const SIM_BY_THE_LAST_SEED: &[&str] = &["sim", "18446744073709551615"];

/// A job of five lines, the last without its line feed.
pub const FIVE_LINES: &[u8] = b"unifyfs 1 servers=1 clients=1 chunk=64 shmem=4 spill=0
0 create /unifyfs/a
0 write /unifyfs/a 0 t:hello
0 sync /unifyfs/a
0 read /unifyfs/a 1 3";

/// Its report.
pub const FIVE_LINES_REPORT: &[u8] = b"L 2 ok v=1
L 3 ok slots=1
L 4 ok v=2
L 5 ok v=2 n=3 hex=656c6c
J /unifyfs/a 2 4
F /unifyfs/a n=5 frozen=0 md5=5d41402abc4b2a76b9719d911017c592
S 0 held=1 free=3 faults=0
end
";

const NO_OPERATION: &[u8] = b"unifyfs 1 servers=1 clients=1 chunk=64 shmem=4 spill=0\n";

const NO_OPERATION_REPORT: &[u8] = b"S 0 held=0 free=4 faults=0
end
";

// A write of no bytes, after which there is nothing to commit.
const EMPTY_WRITE: &[u8] = b"unifyfs 1 servers=1 clients=1 chunk=64 shmem=4 spill=0
0 create /unifyfs/a
0 write /unifyfs/a 0 t:
0 sync /unifyfs/a
0 create /unifyfs/a
0 read /unifyfs/b 0 1
";

const EMPTY_WRITE_REPORT: &[u8] = b"L 2 ok v=1
L 3 ok slots=0
L 4 ok v=1
L 5 exists v=1
L 6 badf
J /unifyfs/a 2
F /unifyfs/a n=0 frozen=0 md5=d41d8cd98f00b204e9800998ecf8427e
J /unifyfs/b
F /unifyfs/b none
S 0 held=0 free=4 faults=0
end
";

// A job with each kind of row that a job has, and a path without a file. The text that it writes is
// 65 times the letter a, which is one byte more than a slot holds.
const EACH_ROW: &[u8] = b"unifyfs 1 servers=1 clients=1 chunk=64 shmem=4 spill=0
0 read /unifyfs/b 0 1
0 create /unifyfs/a
0 create /unifyfs/a
0 write /unifyfs/a 0 t:aaaaaaaaaaaaaaaaaaaaaaaaaaaaaaaaaaaaaaaaaaaaaaaaaaaaaaaaaaaaaaaaa
0 write /unifyfs/a 9 t:
0 write /unifyfs/a 1099511627776 t:z
0 sync /unifyfs/a
0 read /unifyfs/a 0 32
0 read /unifyfs/a 0 33
0 read /unifyfs/a 65 1
0 size /unifyfs/a
0 open /unifyfs/a
0 size /unifyfs/b
0 open /unifyfs/b
";

const EACH_ROW_REPORT: &[u8] = b"L 2 badf
L 3 ok v=1
L 4 exists v=1
L 5 ok slots=2
L 6 ok slots=0
L 7 toobig
L 8 ok v=2
L 9 ok v=2 n=32 hex=6161616161616161616161616161616161616161616161616161616161616161
L 10 ok v=2 n=33 md5=b4f13cb081e412f44e99742cb128a1a5
L 11 ok v=2 n=0 hex=
L 12 ok v=2 n=65 frozen=0
L 13 ok v=2
L 14 badf
L 15 noent v=0
J /unifyfs/a 3 8
F /unifyfs/a n=65 frozen=0 md5=c743a45e0d2e6a95cb859adae0248435
J /unifyfs/b
F /unifyfs/b none
S 0 held=2 free=2 faults=0
end
";

// A write at the last place that a file has.
const LAST_PLACE: &[u8] = b"unifyfs 1 servers=1 clients=1 chunk=64 shmem=4 spill=0
0 create /unifyfs/a
0 write /unifyfs/a 1099511627775 t:z
0 sync /unifyfs/a
0 read /unifyfs/a 1099511627774 16
";

// The digest is that of 16,777,216 zeros, with which the file begins.
const LAST_PLACE_REPORT: &[u8] = b"L 2 ok v=1
L 3 ok slots=1
L 4 ok v=2
L 5 ok v=2 n=2 hex=007a
J /unifyfs/a 2 4
F /unifyfs/a n=1099511627776 frozen=0 md5=2c7ab85a893283e98c931e9511add182
S 0 held=1 free=3 faults=0
end
";

// Two clients and two phases, with what each answer has to be, whoever goes next.
const TWO_CLIENTS: &[u8] = b"unifyfs 1 servers=2 clients=2 chunk=64 shmem=4 spill=0
# Two clients and two phases. Client 0 makes a file and commits four bytes of a pattern to it.
0 create /unifyfs/a
0 write /unifyfs/a 0 p:7:4
0 sync /unifyfs/a

# What follows begins when all before it is done.
barrier
# The file is there, so client 1 neither makes nor opens it.
1 create /unifyfs/a
1 read /unifyfs/a 0 4
# It makes one of its own, beside the other client's read.
1 create /unifyfs/b
1 write /unifyfs/b 2 t:hi
1 sync /unifyfs/b
0 read /unifyfs/a 1 2
1 read /unifyfs/b 0 9
";

// The pattern of seed 7 is the bytes 7, 38, 69 and 100.
const TWO_CLIENTS_REPORT: &[u8] = b"L 3 ok v=1
L 4 ok slots=1
L 5 ok v=2
L 10 exists v=2
L 11 badf
L 13 ok v=1
L 14 ok slots=1
L 15 ok v=2
L 16 ok v=2 n=2 hex=2645
L 17 ok v=2 n=4 hex=00006869
J /unifyfs/a 3 5
F /unifyfs/a n=4 frozen=0 md5=60781e9e546435a1d0b9316e7954ead6
J /unifyfs/b 13 15
F /unifyfs/b n=4 frozen=0 md5=8d32ca7e67c623e158e98450528fcb91
S 0 held=1 free=3 faults=0
S 1 held=1 free=3 faults=0
end
";

// Client 0 opens a path beside the other client's create, and again in the next phase.
const OPEN_BESIDE_CREATE: &[u8] = b"unifyfs 1 servers=2 clients=2 chunk=64 shmem=4 spill=0
0 open /unifyfs/a
1 create /unifyfs/a
barrier
0 open /unifyfs/a
";

const OPEN_BEFORE_CREATE_REPORT: &[u8] = b"L 2 noent v=0
L 3 ok v=1
L 5 ok v=1
J /unifyfs/a 3
F /unifyfs/a n=0 frozen=0 md5=d41d8cd98f00b204e9800998ecf8427e
S 0 held=0 free=4 faults=0
S 1 held=0 free=4 faults=0
end
";

const OPEN_AFTER_CREATE_REPORT: &[u8] = b"L 2 ok v=1
L 3 ok v=1
L 5 ok v=1
J /unifyfs/a 3
F /unifyfs/a n=0 frozen=0 md5=d41d8cd98f00b204e9800998ecf8427e
S 0 held=0 free=4 faults=0
S 1 held=0 free=4 faults=0
end
";

// A client asks for a path that only another client opened, and then opens it after three syncs.
const OPEN_FOR_ANOTHER: &[u8] = b"unifyfs 1 servers=2 clients=2 chunk=64 shmem=4 spill=0
0 create /unifyfs/a
0 write /unifyfs/a 0 t:abc
0 sync /unifyfs/a
0 write /unifyfs/a 9 t:j
0 sync /unifyfs/a
0 write /unifyfs/a 1 p:18446744073709551615:2
0 sync /unifyfs/a
barrier
1 read /unifyfs/a 0 10
1 size /unifyfs/a
1 write /unifyfs/a 0 t:z
1 sync /unifyfs/a
1 open /unifyfs/a
1 size /unifyfs/a
1 read /unifyfs/a 0 10
";

// The pattern of the greatest seed is the bytes 255 and 30.
const OPEN_FOR_ANOTHER_REPORT: &[u8] = b"L 2 ok v=1
L 3 ok slots=1
L 4 ok v=2
L 5 ok slots=1
L 6 ok v=3
L 7 ok slots=1
L 8 ok v=4
L 10 badf
L 11 badf
L 12 badf
L 13 badf
L 14 ok v=4
L 15 ok v=4 n=10 frozen=0
L 16 ok v=4 n=10 hex=61ff1e0000000000006a
J /unifyfs/a 2 4 6 8
F /unifyfs/a n=10 frozen=0 md5=02deb94b6a14971799e35c0101afb46d
S 0 held=3 free=1 faults=0
S 1 held=0 free=4 faults=0
end
";

/// A read beside another client's sync, and once more in the next phase.
pub const READ_BESIDE_SYNC: &[u8] = b"unifyfs 1 servers=2 clients=2 chunk=64 shmem=4 spill=0
0 create /unifyfs/a
barrier
0 write /unifyfs/a 0 t:new
1 open /unifyfs/a
barrier
0 sync /unifyfs/a
1 read /unifyfs/a 0 3
barrier
1 read /unifyfs/a 0 3
";

const READ_BEFORE_SYNC: &[u8] = b"L 2 ok v=1
L 4 ok slots=1
L 5 ok v=1
L 7 ok v=2
L 8 ok v=1 n=0 hex=
L 10 ok v=2 n=3 hex=6e6577
J /unifyfs/a 2 7
F /unifyfs/a n=3 frozen=0 md5=22af645d1859cb5ca6da0c484f1f37ea
S 0 held=1 free=3 faults=0
S 1 held=0 free=4 faults=0
end
";

const READ_AFTER_SYNC: &[u8] = b"L 2 ok v=1
L 4 ok slots=1
L 5 ok v=1
L 7 ok v=2
L 8 ok v=2 n=3 hex=6e6577
L 10 ok v=2 n=3 hex=6e6577
J /unifyfs/a 2 7
F /unifyfs/a n=3 frozen=0 md5=22af645d1859cb5ca6da0c484f1f37ea
S 0 held=1 free=3 faults=0
S 1 held=0 free=4 faults=0
end
";

/// Its reports by the seeds from 0 on. Whichever goes first, the second read shows the sync.
pub const READ_BESIDE_SYNC_REPORTS: [&[u8]; 16] = [
    READ_AFTER_SYNC,
    READ_BEFORE_SYNC,
    READ_BEFORE_SYNC,
    READ_BEFORE_SYNC,
    READ_BEFORE_SYNC,
    READ_BEFORE_SYNC,
    READ_AFTER_SYNC,
    READ_AFTER_SYNC,
    READ_AFTER_SYNC,
    READ_AFTER_SYNC,
    READ_AFTER_SYNC,
    READ_AFTER_SYNC,
    READ_BEFORE_SYNC,
    READ_BEFORE_SYNC,
    READ_BEFORE_SYNC,
    READ_BEFORE_SYNC,
];

const USAGE: &[u8] = b"usage: unifyfs sim SEED | run | check NAME | load N | stage NAME\n";

pub const CASES: [Case; 18] = [
    (SIM, FIVE_LINES, Status::Done, FIVE_LINES_REPORT),
    (
        SIM_BY_THE_LAST_SEED,
        FIVE_LINES,
        Status::Done,
        FIVE_LINES_REPORT,
    ),
    (SIM, EMPTY_WRITE, Status::Done, EMPTY_WRITE_REPORT),
    (SIM, EACH_ROW, Status::Done, EACH_ROW_REPORT),
    (SIM, LAST_PLACE, Status::Done, LAST_PLACE_REPORT),
    (SIM, TWO_CLIENTS, Status::Done, TWO_CLIENTS_REPORT),
    (
        SIM,
        OPEN_BESIDE_CREATE,
        Status::Done,
        OPEN_BEFORE_CREATE_REPORT,
    ),
    (
        SIM_1,
        OPEN_BESIDE_CREATE,
        Status::Done,
        OPEN_AFTER_CREATE_REPORT,
    ),
    (SIM, OPEN_FOR_ANOTHER, Status::Done, OPEN_FOR_ANOTHER_REPORT),
    (
        SIM_1,
        OPEN_FOR_ANOTHER,
        Status::Done,
        OPEN_FOR_ANOTHER_REPORT,
    ),
    (SIM, NO_OPERATION, Status::Done, NO_OPERATION_REPORT),
    (&[], NO_OPERATION, Status::Usage, USAGE),
    (&["sim"], NO_OPERATION, Status::Usage, USAGE),
    (&["sim", "01"], NO_OPERATION, Status::Usage, USAGE),
    (&["sim", "-1"], NO_OPERATION, Status::Usage, USAGE),
    (&["sim", "0", "0"], NO_OPERATION, Status::Usage, USAGE),
    (&["load", "1001"], NO_OPERATION, Status::Usage, USAGE),
    (&["run"], NO_OPERATION, Status::Usage, USAGE),
];
