//! Calls on files that are cut, taken away and made again, and on what a client reads of its own
//! pending writes.

use super::cases::{Case, SIM};
use fs_types::Status;

// What a client wrote and has not committed is there for a read of its own alone.
const OWN_WRITE: &[u8] = b"unifyfs 1 servers=1 clients=1 chunk=64 shmem=4 spill=0
0 create /unifyfs/a
0 write /unifyfs/a 0 t:hello
0 read /unifyfs/a 0 9
0 readown /unifyfs/a 0 9
";

const OWN_WRITE_REPORT: &[u8] = b"L 2 ok v=1
L 3 ok slots=1
L 4 ok v=1 n=0 hex=
L 5 ok v=1 n=5 hex=68656c6c6f
J /unifyfs/a 2
F /unifyfs/a n=0 frozen=0 md5=d41d8cd98f00b204e9800998ecf8427e
S 0 held=1 free=3 faults=0
end
";

// The pieces of a file that is taken away leave their slots.
const UNLINKED: &[u8] = b"unifyfs 1 servers=1 clients=1 chunk=64 shmem=4 spill=0
0 create /unifyfs/a
0 write /unifyfs/a 10 t:x
0 sync /unifyfs/a
0 read /unifyfs/a 0 20
0 unlink /unifyfs/a
";

const UNLINKED_REPORT: &[u8] = b"L 2 ok v=1
L 3 ok slots=1
L 4 ok v=2
L 5 ok v=2 n=11 hex=0000000000000000000078
L 6 ok v=3
J /unifyfs/a 2 4 6
F /unifyfs/a none
S 0 held=0 free=4 faults=0
end
";

// A file as long as a file can be, cut to nothing. The second write would end past the longest.
const CUT_TO_NOTHING: &[u8] = b"unifyfs 1 servers=1 clients=1 chunk=64 shmem=4 spill=0
0 create /unifyfs/a
0 write /unifyfs/a 1099511627775 t:x
0 write /unifyfs/a 1099511627776 t:x
0 sync /unifyfs/a
0 size /unifyfs/a
0 read /unifyfs/a 1099511627775 5
0 trunc /unifyfs/a 0
";

const CUT_TO_NOTHING_REPORT: &[u8] = b"L 2 ok v=1
L 3 ok slots=1
L 4 toobig
L 5 ok v=2
L 6 ok v=2 n=1099511627776 frozen=0
L 7 ok v=2 n=1 hex=78
L 8 ok v=3
J /unifyfs/a 2 5 8
F /unifyfs/a n=0 frozen=0 md5=d41d8cd98f00b204e9800998ecf8427e
S 0 held=0 free=4 faults=0
end
";

// A cut in the middle of a piece, zeros behind an end, pending writes that a truncation takes in,
// and the longest file. Pieces of which no byte is left leave their slots.
const TRUNCATIONS: &[u8] = b"unifyfs 1 servers=1 clients=1 chunk=64 shmem=8 spill=0
0 create /unifyfs/a
0 write /unifyfs/a 0 p:7:100
0 sync /unifyfs/a
0 trunc /unifyfs/a 70
0 size /unifyfs/a
0 trunc /unifyfs/a 66
0 trunc /unifyfs/a 80
0 read /unifyfs/a 60 30
0 write /unifyfs/a 2 t:ab
0 write /unifyfs/a 3 t:c
0 trunc /unifyfs/a 4
0 sync /unifyfs/a
0 read /unifyfs/a 0 9
0 write /unifyfs/a 6 t:z
0 trunc /unifyfs/a 0
0 trunc /unifyfs/a 1099511627776
0 size /unifyfs/a
0 read /unifyfs/a 1099511627770 9
0 trunc /unifyfs/b 1
0 unlink /unifyfs/b
0 trunc /unifyfs/a 1
";

// The pattern of seed 7 is 75, 106, 137, 168, 199 and 230 from its byte 60 on.
const TRUNCATIONS_REPORT: &[u8] = b"L 2 ok v=1
L 3 ok slots=2
L 4 ok v=2
L 5 ok v=3
L 6 ok v=3 n=70 frozen=0
L 7 ok v=4
L 8 ok v=5
L 9 ok v=5 n=20 hex=4b6a89a8c7e60000000000000000000000000000
L 10 ok slots=1
L 11 ok slots=1
L 12 ok v=6
L 13 ok v=6
L 14 ok v=6 n=4 hex=07266163
L 15 ok slots=1
L 16 ok v=7
L 17 ok v=8
L 18 ok v=8 n=1099511627776 frozen=0
L 19 ok v=8 n=6 hex=000000000000
L 20 badf
L 21 badf
L 22 ok v=9
J /unifyfs/a 2 4 5 7 8 12 16 17 22
F /unifyfs/a n=1 frozen=0 md5=93b885adfe0da089cdf634904fd59f71
J /unifyfs/b
F /unifyfs/b none
S 0 held=0 free=8 faults=0
end
";

// Reads of a file with a client's own writes over it: over one another, and behind the end of the
// file. Another client sees none of them, before they are committed.
const OWN_WRITES: &[u8] = b"unifyfs 1 servers=1 clients=2 chunk=64 shmem=4 spill=0
0 create /unifyfs/a
0 write /unifyfs/a 0 t:abcdef
0 sync /unifyfs/a
0 write /unifyfs/a 2 t:XYZ
0 write /unifyfs/a 3 t:q
0 write /unifyfs/a 9 t:end
0 readown /unifyfs/a 0 32
0 read /unifyfs/a 0 32
0 readown /unifyfs/a 6 4
0 readown /unifyfs/a 12 4
0 readown /unifyfs/a 0 0
barrier
1 open /unifyfs/a
1 readown /unifyfs/a 0 32
barrier
0 sync /unifyfs/a
0 readown /unifyfs/a 1 40
";

const OWN_WRITES_REPORT: &[u8] = b"L 2 ok v=1
L 3 ok slots=1
L 4 ok v=2
L 5 ok slots=1
L 6 ok slots=1
L 7 ok slots=1
L 8 ok v=2 n=12 hex=616258715a66000000656e64
L 9 ok v=2 n=6 hex=616263646566
L 10 ok v=2 n=4 hex=00000065
L 11 ok v=2 n=0 hex=
L 12 ok v=2 n=0 hex=
L 14 ok v=2
L 15 ok v=2 n=6 hex=616263646566
L 17 ok v=3
L 18 ok v=3 n=11 hex=6258715a66000000656e64
J /unifyfs/a 2 4 17
F /unifyfs/a n=12 frozen=0 md5=6a11e43f0173b62e5df925ee7b0608f9
S 0 held=4 free=0 faults=0
S 1 held=0 free=4 faults=0
end
";

// A file that is taken away while another client has a write pending: the write goes with the first
// sync that finds no file, and its slot is free.
const UNLINKED_UNDER_A_WRITER: &[u8] = b"unifyfs 1 servers=2 clients=2 chunk=64 shmem=4 spill=0
0 create /unifyfs/a
barrier
1 open /unifyfs/a
1 write /unifyfs/a 0 t:abc
barrier
0 unlink /unifyfs/a
barrier
1 size /unifyfs/a
1 readown /unifyfs/a 0 9
1 sync /unifyfs/a
1 read /unifyfs/a 0 9
1 write /unifyfs/a 0 t:abc
0 trunc /unifyfs/a 5
";

const UNLINKED_UNDER_A_WRITER_REPORT: &[u8] = b"L 2 ok v=1
L 4 ok v=1
L 5 ok slots=1
L 7 ok v=2
L 9 noent v=2
L 10 noent v=2
L 11 noent v=2
L 12 noent v=2
L 13 noent v=2
L 14 noent v=2
J /unifyfs/a 2 7
F /unifyfs/a none
S 0 held=0 free=4 faults=0
S 1 held=0 free=4 faults=0
end
";

// A file that is taken away twice, and made again: its versions go on rising.
const THREE_LIVES: &[u8] = b"unifyfs 1 servers=3 clients=2 chunk=64 shmem=2 spill=0
0 create /unifyfs/a
0 write /unifyfs/a 0 t:first
0 sync /unifyfs/a
0 unlink /unifyfs/a
0 read /unifyfs/a 0 9
0 unlink /unifyfs/a
0 sync /unifyfs/a
0 write /unifyfs/a 0 t:none
0 create /unifyfs/a
0 size /unifyfs/a
0 write /unifyfs/a 1 t:two
0 readown /unifyfs/a 0 9
0 sync /unifyfs/a
barrier
1 open /unifyfs/a
1 read /unifyfs/a 0 9
0 unlink /unifyfs/a
barrier
1 open /unifyfs/a
1 create /unifyfs/a
";

const THREE_LIVES_REPORT: &[u8] = b"L 2 ok v=1
L 3 ok slots=1
L 4 ok v=2
L 5 ok v=3
L 6 noent v=3
L 7 noent v=3
L 8 noent v=3
L 9 noent v=3
L 10 ok v=4
L 11 ok v=4 n=0 frozen=0
L 12 ok slots=1
L 13 ok v=4 n=4 hex=0074776f
L 14 ok v=5
L 16 noent v=6
L 17 badf
L 18 ok v=6
L 20 noent v=6
L 21 ok v=7
J /unifyfs/a 2 4 5 10 14 18 21
F /unifyfs/a n=0 frozen=0 md5=d41d8cd98f00b204e9800998ecf8427e
S 0 held=0 free=2 faults=0
S 1 held=0 free=2 faults=0
end
";

pub const LIVES: [Case; 7] = [
    (SIM, OWN_WRITE, Status::Done, OWN_WRITE_REPORT),
    (SIM, UNLINKED, Status::Done, UNLINKED_REPORT),
    (SIM, CUT_TO_NOTHING, Status::Done, CUT_TO_NOTHING_REPORT),
    (SIM, TRUNCATIONS, Status::Done, TRUNCATIONS_REPORT),
    (SIM, OWN_WRITES, Status::Done, OWN_WRITES_REPORT),
    (
        SIM,
        UNLINKED_UNDER_A_WRITER,
        Status::Done,
        UNLINKED_UNDER_A_WRITER_REPORT,
    ),
    (SIM, THREE_LIVES, Status::Done, THREE_LIVES_REPORT),
];
