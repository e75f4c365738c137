//! Jobs on files that are frozen while other clients have writes pending, with what they report
//! under picks.

use super::cases::Case;

// A file that is frozen between a client's open and its sync: the sync is refused, and what was
// pending is dropped.
const FROZEN_BEFORE_A_SYNC: &[u8] = b"unifyfs 1 servers=1 clients=2 chunk=64 shmem=1 spill=0
0 create /unifyfs/a
barrier
0 laminate /unifyfs/a
1 open /unifyfs/a
1 write /unifyfs/a 0 t:x
1 sync /unifyfs/a
1 readown /unifyfs/a 0 4
";

const FROZEN_BEFORE_A_SYNC_REPORT: &[u8] = b"L 2 ok v=1
L 4 ok v=2
L 5 ok v=1
L 6 ok slots=1
L 7 readonly v=2
L 8 ok v=2 n=0 hex=
J /unifyfs/a 2 4
F /unifyfs/a n=0 frozen=1 md5=d41d8cd98f00b204e9800998ecf8427e
S 0 held=0 free=1 faults=0
S 1 held=0 free=1 faults=0
end
";

// A file that one client freezes and another takes away in the same phase.
const FROZEN_AND_UNLINKED: &[u8] = b"unifyfs 1 servers=2 clients=2 chunk=64 shmem=1 spill=0
0 create /unifyfs/a
0 write /unifyfs/a 0 t:abc
barrier
1 open /unifyfs/a
barrier
0 laminate /unifyfs/a
1 unlink /unifyfs/a
barrier
0 read /unifyfs/a 0 3
1 read /unifyfs/a 0 3
";

const FROZEN_AND_UNLINKED_REPORT: &[u8] = b"L 2 ok v=1
L 3 ok slots=1
L 5 ok v=1
L 7 ok v=2
L 8 ok v=3
L 10 noent v=3
L 11 noent v=3
J /unifyfs/a 2 7 8
F /unifyfs/a none
S 0 held=0 free=1 faults=0
S 1 held=0 free=1 faults=0
end
";

// Two clients that have written a file which a third freezes: of a truncation and of a lamination.
const FROZEN_UNDER_WRITERS: &[u8] = b"unifyfs 1 servers=2 clients=3 chunk=64 shmem=1 spill=0
0 create /unifyfs/a
barrier
1 open /unifyfs/a
1 write /unifyfs/a 0 t:x
2 open /unifyfs/a
2 write /unifyfs/a 0 t:y
barrier
0 laminate /unifyfs/a
1 trunc /unifyfs/a 5
1 write /unifyfs/a 0 t:z
2 laminate /unifyfs/a
2 unlink /unifyfs/a
";

// The file is frozen first: both are refused, and their writers' slots are free.
const FROZEN_FIRST: &[u8] = b"L 2 ok v=1
L 4 ok v=1
L 5 ok slots=1
L 6 ok v=1
L 7 ok slots=1
L 9 ok v=2
L 10 readonly v=2
L 11 readonly v=2
L 12 readonly v=2
L 13 ok v=3
J /unifyfs/a 2 9 13
F /unifyfs/a none
S 0 held=0 free=1 faults=0
S 1 held=0 free=1 faults=0
S 2 held=0 free=1 faults=0
end
";

// The truncation comes first: its writer's slot is held until the file is taken away.
const CUT_FIRST: &[u8] = b"L 2 ok v=1
L 4 ok v=1
L 5 ok slots=1
L 6 ok v=1
L 7 ok slots=1
L 9 ok v=3
L 10 ok v=2
L 11 nospace need=1 free=0
L 12 readonly v=3
L 13 ok v=4
J /unifyfs/a 2 10 9 13
F /unifyfs/a none
S 0 held=0 free=1 faults=0
S 1 held=0 free=1 faults=0
S 2 held=0 free=1 faults=0
end
";

pub const FROZEN_FILES: [Case; 4] = [
    (
        FROZEN_BEFORE_A_SYNC,
        &[0, 1, 1, 0, 0, 0, 0],
        FROZEN_BEFORE_A_SYNC_REPORT,
    ),
    (
        FROZEN_AND_UNLINKED,
        &[0, 0, 0, 0, 1, 1, 0, 0, 0],
        FROZEN_AND_UNLINKED_REPORT,
    ),
    (FROZEN_UNDER_WRITERS, &[0], FROZEN_FIRST),
    (
        FROZEN_UNDER_WRITERS,
        &[0, 0, 0, 0, 0, 1, 1, 0, 0, 0],
        CUT_FIRST,
    ),
];
