//! Jobs, with what they report under picks.

/// A script, picks, and the text of the report under them.
pub type Case = (&'static [u8], &'static [u32], &'static [u8]);

const ONE_CLIENT: &[u8] = b"unifyfs 1 servers=1 clients=1 chunk=64 shmem=4 spill=0
0 create /unifyfs/a
0 read /unifyfs/a 0 1
";

const ONE_CLIENT_REPORT: &[u8] = b"L 2 ok v=1
L 3 ok v=1 n=0 hex=
J /unifyfs/a 2
F /unifyfs/a n=0 frozen=0 md5=d41d8cd98f00b204e9800998ecf8427e
S 0 held=0 free=4 faults=0
end
";

// Both clients write and commit after the barrier.
const TWO_WRITERS: &[u8] = b"unifyfs 1 servers=1 clients=2 chunk=64 shmem=4 spill=0
0 create /unifyfs/a
barrier
0 write /unifyfs/a 0 t:aa
0 sync /unifyfs/a
1 open /unifyfs/a
1 write /unifyfs/a 1 t:b
1 sync /unifyfs/a
";

// The file is ab.
const FIRST_WRITER_FIRST: &[u8] = b"L 2 ok v=1
L 4 ok slots=1
L 5 ok v=2
L 6 ok v=2
L 7 ok slots=1
L 8 ok v=3
J /unifyfs/a 2 5 8
F /unifyfs/a n=2 frozen=0 md5=187ef4436122d1cc2f40dc2b92f0eba0
S 0 held=1 free=3 faults=0
S 1 held=1 free=3 faults=0
end
";

// The file is aa, and nothing is left of what the second client wrote.
const SECOND_WRITER_FIRST: &[u8] = b"L 2 ok v=1
L 4 ok slots=1
L 5 ok v=3
L 6 ok v=1
L 7 ok slots=1
L 8 ok v=2
J /unifyfs/a 2 8 5
F /unifyfs/a n=2 frozen=0 md5=4124bc0a9335c27f086f24ba207a4912
S 0 held=1 free=3 faults=0
S 1 held=0 free=4 faults=0
end
";

// Client 1 reads abc while client 0 commits foo over it, and has bar pending.
const READ_OVERWRITTEN: &[u8] = b"unifyfs 1 servers=1 clients=2 chunk=64 shmem=3 spill=0
0 create /unifyfs/a
0 write /unifyfs/a 0 t:abc
0 sync /unifyfs/a
barrier
0 write /unifyfs/a 0 t:foo
0 sync /unifyfs/a
0 write /unifyfs/a 0 t:bar
1 open /unifyfs/a
1 read /unifyfs/a 0 3
";

// The look-up of the read comes before line 6, and its fetch after line 8.
const READ_OVERWRITTEN_REPORT: &[u8] = b"L 2 ok v=1
L 3 ok slots=1
L 4 ok v=2
L 6 ok slots=1
L 7 ok v=3
L 8 ok slots=1
L 9 ok v=2
L 10 ok v=2 n=3 hex=616263
J /unifyfs/a 2 4 7
F /unifyfs/a n=3 frozen=0 md5=acbd18db4cc2f85cedef654fccc4a4d8
S 0 held=2 free=1 faults=0
S 1 held=0 free=3 faults=0
end
";

// The same with one slot fewer, and the last write twice.
const READ_HOLDS_A_SLOT: &[u8] = b"unifyfs 1 servers=1 clients=2 chunk=64 shmem=2 spill=0
0 create /unifyfs/a
0 write /unifyfs/a 0 t:abc
0 sync /unifyfs/a
barrier
0 write /unifyfs/a 0 t:foo
0 sync /unifyfs/a
0 write /unifyfs/a 0 t:bar
0 write /unifyfs/a 0 t:bar
1 open /unifyfs/a
1 read /unifyfs/a 0 3
";

// The first of the two writes comes while the read holds abc, and the second once it has finished.
const READ_HOLDS_A_SLOT_REPORT: &[u8] = b"L 2 ok v=1
L 3 ok slots=1
L 4 ok v=2
L 6 ok slots=1
L 7 ok v=3
L 8 nospace need=1 free=0
L 9 ok slots=1
L 10 ok v=2
L 11 ok v=2 n=3 hex=616263
J /unifyfs/a 2 4 7
F /unifyfs/a n=3 frozen=0 md5=acbd18db4cc2f85cedef654fccc4a4d8
S 0 held=2 free=0 faults=0
S 1 held=0 free=2 faults=0
end
";

// Two clients read abc while client 0 commits foo over it, and then finds no slot for bar until the
// second of them has finished.
const READ_TWICE: &[u8] = b"unifyfs 1 servers=1 clients=3 chunk=64 shmem=2 spill=0
0 create /unifyfs/a
0 write /unifyfs/a 0 t:abc
0 sync /unifyfs/a
barrier
0 write /unifyfs/a 0 t:foo
0 sync /unifyfs/a
0 write /unifyfs/a 0 t:bar
0 write /unifyfs/a 0 t:bar
0 write /unifyfs/a 0 t:bar
0 write /unifyfs/a 0 t:bar
1 open /unifyfs/a
1 read /unifyfs/a 0 3
2 open /unifyfs/a
2 read /unifyfs/a 0 3
";

// Lines 8 and 9 come before and after the finish of client 1, which has fetched by then. Lines 10
// and 11 come so before and after the finish of client 2.
const READ_TWICE_REPORT: &[u8] = b"L 2 ok v=1
L 3 ok slots=1
L 4 ok v=2
L 6 ok slots=1
L 7 ok v=3
L 8 nospace need=1 free=0
L 9 nospace need=1 free=0
L 10 nospace need=1 free=0
L 11 ok slots=1
L 12 ok v=2
L 13 ok v=2 n=3 hex=616263
L 14 ok v=2
L 15 ok v=2 n=3 hex=616263
J /unifyfs/a 2 4 7
F /unifyfs/a n=3 frozen=0 md5=acbd18db4cc2f85cedef654fccc4a4d8
S 0 held=2 free=0 faults=0
S 1 held=0 free=2 faults=0
S 2 held=0 free=2 faults=0
end
";

// Client 1 reads abXde twice, which are two runs of one piece with another between them, while
// client 0 commits ZZ over the first of them. So a read has five events: a look-up, three fetches
// and a finish.
const THREE_RUNS: &[u8] = b"unifyfs 1 servers=1 clients=2 chunk=64 shmem=4 spill=0
0 create /unifyfs/a
0 write /unifyfs/a 0 t:abcde
0 write /unifyfs/a 2 t:X
0 sync /unifyfs/a
0 write /unifyfs/a 0 t:ZZ
barrier
0 sync /unifyfs/a
1 open /unifyfs/a
1 read /unifyfs/a 0 5
1 read /unifyfs/a 0 5
";

// The commit comes right before the first event of the second read.
const COMMIT_BETWEEN_READS: &[u8] = b"L 2 ok v=1
L 3 ok slots=1
L 4 ok slots=1
L 5 ok v=2
L 6 ok slots=1
L 8 ok v=3
L 9 ok v=2
L 10 ok v=2 n=5 hex=6162586465
L 11 ok v=3 n=5 hex=5a5a586465
J /unifyfs/a 2 5 8
F /unifyfs/a n=5 frozen=0 md5=800491c6bf1c3c031fdd75306bdfcc1c
S 0 held=3 free=1 faults=0
S 1 held=0 free=4 faults=0
end
";

// The commit comes right after the first event of the second read.
const COMMIT_IN_SECOND_READ: &[u8] = b"L 2 ok v=1
L 3 ok slots=1
L 4 ok slots=1
L 5 ok v=2
L 6 ok slots=1
L 8 ok v=3
L 9 ok v=2
L 10 ok v=2 n=5 hex=6162586465
L 11 ok v=2 n=5 hex=6162586465
J /unifyfs/a 2 5 8
F /unifyfs/a n=5 frozen=0 md5=800491c6bf1c3c031fdd75306bdfcc1c
S 0 held=3 free=1 faults=0
S 1 held=0 free=4 faults=0
end
";

// A read over a place that no line wrote, and one over the end of a slot: the second write has 65
// bytes, which begin with 7 and rise by 31.
const HOLE_AND_TWO_PARTS: &[u8] = b"unifyfs 1 servers=1 clients=1 chunk=64 shmem=4 spill=0
0 create /unifyfs/a
0 write /unifyfs/a 0 t:ab
0 write /unifyfs/a 4 p:7:65
0 sync /unifyfs/a
0 read /unifyfs/a 0 6
0 read /unifyfs/a 66 4
";

const HOLE_AND_TWO_PARTS_REPORT: &[u8] = b"L 2 ok v=1
L 3 ok slots=1
L 4 ok slots=2
L 5 ok v=2
L 6 ok v=2 n=6 hex=616200000726
L 7 ok v=2 n=3 hex=89a8c7
J /unifyfs/a 2 5
F /unifyfs/a n=69 frozen=0 md5=561beb53eec0c6c1ff6fec34a74cf159
S 0 held=3 free=1 faults=0
end
";

pub const RUNS: [Case; 12] = [
    (ONE_CLIENT, &[], ONE_CLIENT_REPORT),
    (ONE_CLIENT, &[0], ONE_CLIENT_REPORT),
    (ONE_CLIENT, &[7, u32::MAX], ONE_CLIENT_REPORT),
    (TWO_WRITERS, &[0], FIRST_WRITER_FIRST),
    (TWO_WRITERS, &[0, 1, 1, 1, 0, 0], SECOND_WRITER_FIRST),
    // The second client's sync comes between the first one's write and its sync.
    (TWO_WRITERS, &[0, 0, 1, 1, 1, 0], SECOND_WRITER_FIRST),
    (
        READ_OVERWRITTEN,
        &[0, 0, 0, 1, 1, 0, 0, 0, 0, 0],
        READ_OVERWRITTEN_REPORT,
    ),
    (
        READ_HOLDS_A_SLOT,
        &[0, 0, 0, 1, 1, 0, 0, 0, 1, 1, 0],
        READ_HOLDS_A_SLOT_REPORT,
    ),
    (
        READ_TWICE,
        &[0, 0, 0, 1, 1, 2, 2, 0, 0, 1, 0, 1, 0, 1, 0, 1, 0],
        READ_TWICE_REPORT,
    ),
    (
        THREE_RUNS,
        &[0, 0, 0, 0, 0, 1, 1, 1, 1, 1, 1, 0],
        COMMIT_BETWEEN_READS,
    ),
    (
        THREE_RUNS,
        &[0, 0, 0, 0, 0, 1, 1, 1, 1, 1, 1, 1, 0],
        COMMIT_IN_SECOND_READ,
    ),
    (HOLE_AND_TWO_PARTS, &[], HOLE_AND_TWO_PARTS_REPORT),
];
