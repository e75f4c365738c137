//! Jobs on files that are cut, taken away and made again, and of what a client reads of its own
//! pending writes, with what they report under picks.

use super::cases::Case;

// A file that is taken away and made again between a read's look-up and its fetch: the read shows
// the old bytes, whose slot is free after it and not before.
const UNLINKED_WHILE_READ: &[u8] = b"unifyfs 1 servers=1 clients=2 chunk=64 shmem=1 spill=0
0 create /unifyfs/a
0 write /unifyfs/a 0 t:abc
0 sync /unifyfs/a
barrier
1 open /unifyfs/a
1 read /unifyfs/a 0 9
0 unlink /unifyfs/a
0 create /unifyfs/a
0 write /unifyfs/a 0 t:x
0 write /unifyfs/a 0 t:y
0 sync /unifyfs/a
1 read /unifyfs/a 0 9
";

const UNLINKED_WHILE_READ_REPORT: &[u8] = b"L 2 ok v=1
L 3 ok slots=1
L 4 ok v=2
L 6 ok v=2
L 7 ok v=2 n=3 hex=616263
L 8 ok v=3
L 9 ok v=4
L 10 nospace need=1 free=0
L 11 ok slots=1
L 12 ok v=5
L 13 ok v=5 n=1 hex=79
J /unifyfs/a 2 4 8 9 12
F /unifyfs/a n=1 frozen=0 md5=415290769594460e2e485922904f345d
S 0 held=1 free=0 faults=0
S 1 held=0 free=1 faults=0
end
";

// A read with the client's own writes over the file, while another client commits: it shows the
// file that it looked up, and the next one the new one.
const OWN_READ_BESIDE_A_COMMIT: &[u8] = b"unifyfs 1 servers=1 clients=2 chunk=64 shmem=4 spill=0
0 create /unifyfs/a
0 write /unifyfs/a 0 t:abcdef
0 sync /unifyfs/a
barrier
1 open /unifyfs/a
1 write /unifyfs/a 1 t:XX
1 readown /unifyfs/a 0 4
0 write /unifyfs/a 0 t:zzzzzz
0 sync /unifyfs/a
1 readown /unifyfs/a 0 4
";

const OWN_READ_BESIDE_A_COMMIT_REPORT: &[u8] = b"L 2 ok v=1
L 3 ok slots=1
L 4 ok v=2
L 6 ok v=2
L 7 ok slots=1
L 8 ok v=2 n=4 hex=61585864
L 9 ok slots=1
L 10 ok v=3
L 11 ok v=3 n=4 hex=7a58587a
J /unifyfs/a 2 4 10
F /unifyfs/a n=6 frozen=0 md5=453e41d218e071ccfb2d1c99ce23906a
S 0 held=1 free=3 faults=0
S 1 held=1 free=3 faults=0
end
";

// A read with the client's own writes over holes of the file, over one another, and behind its end,
// while another client commits over what it shows of the file: that stays in its slot until the read
// has finished.
const OWN_WRITES_OVER_HOLES: &[u8] = b"unifyfs 1 servers=1 clients=2 chunk=64 shmem=3 spill=0
0 create /unifyfs/a
0 write /unifyfs/a 4 t:efgh
0 sync /unifyfs/a
barrier
1 open /unifyfs/a
1 write /unifyfs/a 1 t:XYZ
1 write /unifyfs/a 3 t:pqr
1 write /unifyfs/a 11 t:end
1 readown /unifyfs/a 0 32
0 write /unifyfs/a 4 t:zzzz
0 sync /unifyfs/a
0 write /unifyfs/a 0 t:v
0 write /unifyfs/a 1 t:w
0 write /unifyfs/a 1 t:w
1 readown /unifyfs/a 8 4
1 readown /unifyfs/a 14 4
1 read /unifyfs/a 0 32
1 sync /unifyfs/a
";

// The look-up of line 10 comes before line 11, its four fetches after line 14, and line 15 right
// after it has finished. The file of line 12 is four zeros and zzzz.
const OWN_WRITES_OVER_HOLES_REPORT: &[u8] = b"L 2 ok v=1
L 3 ok slots=1
L 4 ok v=2
L 6 ok v=2
L 7 ok slots=1
L 8 ok slots=1
L 9 ok slots=1
L 10 ok v=2 n=14 hex=0058597071726768000000656e64
L 11 ok slots=1
L 12 ok v=3
L 13 ok slots=1
L 14 nospace need=1 free=0
L 15 ok slots=1
L 16 ok v=3 n=4 hex=00000065
L 17 ok v=3 n=0 hex=
L 18 ok v=3 n=8 hex=000000007a7a7a7a
L 19 ok v=4
J /unifyfs/a 2 4 12 19
F /unifyfs/a n=14 frozen=0 md5=504dfced9f6bcdc97cf27884125b0510
S 0 held=3 free=0 faults=0
S 1 held=3 free=0 faults=0
end
";

// A file of two pieces that is cut in the middle of the second, at its beginning while another client
// reads it, behind the file's end with a pending write before it, to the longest file, to nothing, and
// in the middle of what is pending.
const TRUNCATIONS: &[u8] = b"unifyfs 1 servers=1 clients=2 chunk=64 shmem=2 spill=0
0 create /unifyfs/a
0 write /unifyfs/a 0 p:7:100
0 sync /unifyfs/a
barrier
1 open /unifyfs/a
1 read /unifyfs/a 60 8
0 trunc /unifyfs/a 70
0 write /unifyfs/a 0 t:x
0 size /unifyfs/a
0 trunc /unifyfs/a 64
0 write /unifyfs/a 0 t:x
0 write /unifyfs/a 64 t:x
0 trunc /unifyfs/a 80
0 read /unifyfs/a 60 30
0 trunc /unifyfs/a 1099511627776
0 size /unifyfs/a
0 trunc /unifyfs/a 0
0 write /unifyfs/a 2 p:7:128
0 trunc /unifyfs/a 3
";

// Lines 8 and 9 come before line 6, the look-up of line 7 before line 10, and the read finishes
// between lines 12 and 13. So line 9 finds no slot, for the second piece is in the file, and line 12
// none, for it is being read. The pattern of seed 7 is 75, 106, 137, 168, 199, 230, 5 and 36 from its
// byte 60 on.
const TRUNCATIONS_REPORT: &[u8] = b"L 2 ok v=1
L 3 ok slots=2
L 4 ok v=2
L 6 ok v=3
L 7 ok v=3 n=8 hex=4b6a89a8c7e60524
L 8 ok v=3
L 9 nospace need=1 free=0
L 10 ok v=3 n=70 frozen=0
L 11 ok v=4
L 12 nospace need=1 free=0
L 13 ok slots=1
L 14 ok v=5
L 15 ok v=5 n=20 hex=4b6a89a878000000000000000000000000000000
L 16 ok v=6
L 17 ok v=6 n=1099511627776 frozen=0
L 18 ok v=7
L 19 ok slots=2
L 20 ok v=8
J /unifyfs/a 2 4 8 11 14 16 18 20
F /unifyfs/a n=3 frozen=0 md5=be0e9a33d44bab1607e5a95370ff5b1e
S 0 held=1 free=1 faults=0
S 1 held=0 free=2 faults=0
end
";

// A sync after a truncation that took in all writes commits nothing.
const NOTHING_LEFT_TO_SYNC: &[u8] = b"unifyfs 1 servers=1 clients=2 chunk=64 shmem=2 spill=0
0 create /unifyfs/a
barrier
0 write /unifyfs/a 0 t:abc
0 write /unifyfs/a 1 t:Z
0 trunc /unifyfs/a 2
0 sync /unifyfs/a
1 open /unifyfs/a
1 trunc /unifyfs/a 1
";

// It finds its own truncation.
const SYNC_FINDS_ITS_OWN: &[u8] = b"L 2 ok v=1
L 4 ok slots=1
L 5 ok slots=1
L 6 ok v=2
L 7 ok v=2
L 8 ok v=2
L 9 ok v=3
J /unifyfs/a 2 6 9
F /unifyfs/a n=1 frozen=0 md5=0cc175b9c0f1b6a831c399e269772661
S 0 held=1 free=1 faults=0
S 1 held=0 free=2 faults=0
end
";

// It finds that of the other client.
const SYNC_FINDS_ANOTHER: &[u8] = b"L 2 ok v=1
L 4 ok slots=1
L 5 ok slots=1
L 6 ok v=2
L 7 ok v=3
L 8 ok v=2
L 9 ok v=3
J /unifyfs/a 2 6 9
F /unifyfs/a n=1 frozen=0 md5=0cc175b9c0f1b6a831c399e269772661
S 0 held=1 free=1 faults=0
S 1 held=0 free=2 faults=0
end
";

// Files that are taken away while another client has writes pending to them: a sync, a truncation and
// an unlink that find no file each drop what is pending.
const UNLINKED_UNDER_A_WRITER: &[u8] = b"unifyfs 1 servers=2 clients=2 chunk=64 shmem=3 spill=0
0 create /unifyfs/a
0 create /unifyfs/b
0 create /unifyfs/c
barrier
1 open /unifyfs/a
1 open /unifyfs/b
1 open /unifyfs/c
1 write /unifyfs/a 0 t:abc
1 write /unifyfs/b 0 t:abc
1 write /unifyfs/c 0 t:abc
1 write /unifyfs/a 3 t:d
1 sync /unifyfs/a
1 read /unifyfs/a 0 9
1 trunc /unifyfs/b 5
1 unlink /unifyfs/c
0 unlink /unifyfs/a
0 unlink /unifyfs/b
0 unlink /unifyfs/c
";

// Lines 17 to 19 come between lines 12 and 13.
const UNLINKED_UNDER_A_WRITER_REPORT: &[u8] = b"L 2 ok v=1
L 3 ok v=1
L 4 ok v=1
L 6 ok v=1
L 7 ok v=1
L 8 ok v=1
L 9 ok slots=1
L 10 ok slots=1
L 11 ok slots=1
L 12 nospace need=1 free=0
L 13 noent v=2
L 14 noent v=2
L 15 noent v=2
L 16 noent v=2
L 17 ok v=2
L 18 ok v=2
L 19 ok v=2
J /unifyfs/a 2 17
F /unifyfs/a none
J /unifyfs/b 3 18
F /unifyfs/b none
J /unifyfs/c 4 19
F /unifyfs/c none
S 0 held=0 free=3 faults=0
S 1 held=0 free=3 faults=0
end
";

pub const LIVES: [Case; 7] = [
    (
        UNLINKED_WHILE_READ,
        &[0, 0, 0, 1, 1, 0, 0, 0, 1, 1, 0, 0, 0],
        UNLINKED_WHILE_READ_REPORT,
    ),
    (
        OWN_READ_BESIDE_A_COMMIT,
        &[0, 0, 0, 1, 1, 1, 0, 0, 1, 1, 1, 1, 1, 1, 1, 1],
        OWN_READ_BESIDE_A_COMMIT_REPORT,
    ),
    (
        OWN_WRITES_OVER_HOLES,
        &[0, 0, 0, 1, 1, 1, 1, 1, 0, 0, 0, 0, 1, 1, 1, 1, 1, 0],
        OWN_WRITES_OVER_HOLES_REPORT,
    ),
    (
        TRUNCATIONS,
        &[0, 0, 0, 0, 0, 1, 1, 0, 0, 0, 1, 1, 1, 0],
        TRUNCATIONS_REPORT,
    ),
    (NOTHING_LEFT_TO_SYNC, &[0], SYNC_FINDS_ITS_OWN),
    (
        NOTHING_LEFT_TO_SYNC,
        &[0, 0, 0, 0, 1, 1, 0],
        SYNC_FINDS_ANOTHER,
    ),
    (
        UNLINKED_UNDER_A_WRITER,
        &[0, 0, 0, 1, 1, 1, 1, 1, 1, 1, 0],
        UNLINKED_UNDER_A_WRITER_REPORT,
    ),
];
