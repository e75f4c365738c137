//! Calls on files that are frozen.

use super::cases::{Case, SIM};
use fs_types::Status;

// A client at another server reads a file once it is frozen, and may not write it.
const FROZEN: &[u8] = b"unifyfs 1 servers=2 clients=2 chunk=64 shmem=1 spill=0
0 create /unifyfs/a
0 write /unifyfs/a 0 t:abc
barrier
1 open /unifyfs/a
barrier
0 laminate /unifyfs/a
barrier
1 write /unifyfs/a 0 t:x
1 read /unifyfs/a 0 3
";

const FROZEN_REPORT: &[u8] = b"L 2 ok v=1
L 3 ok slots=1
L 5 ok v=1
L 7 ok v=2
L 9 readonly v=2
L 10 ok v=2 n=3 hex=616263
J /unifyfs/a 2 7
F /unifyfs/a n=3 frozen=1 md5=900150983cd24fb0d6963f7d28e17f72
S 0 held=1 free=0 faults=0
S 1 held=0 free=1 faults=0
end
";

// Clients at three servers read a file that was written and frozen in one phase.
const READ_AT_THREE_SERVERS: &[u8] = b"unifyfs 1 servers=3 clients=3 chunk=64 shmem=1 spill=0
0 create /unifyfs/a
0 write /unifyfs/a 0 t:abc
0 laminate /unifyfs/a
barrier
0 read /unifyfs/a 0 9
1 open /unifyfs/a
1 read /unifyfs/a 0 9
2 open /unifyfs/a
2 read /unifyfs/a 0 9
";

const READ_AT_THREE_SERVERS_REPORT: &[u8] = b"L 2 ok v=1
L 3 ok slots=1
L 4 ok v=2
L 6 ok v=2 n=3 hex=616263
L 7 ok v=2
L 8 ok v=2 n=3 hex=616263
L 9 ok v=2
L 10 ok v=2 n=3 hex=616263
J /unifyfs/a 2 4
F /unifyfs/a n=3 frozen=1 md5=900150983cd24fb0d6963f7d28e17f72
S 0 held=1 free=0 faults=0
S 1 held=0 free=1 faults=0
S 2 held=0 free=1 faults=0
end
";

// What a frozen file refuses, and what it doesn't: a sync of nothing, a size, a read, and an
// unlink, after which the path has a life that is frozen later.
const FROZEN_TWICE: &[u8] = b"unifyfs 1 servers=1 clients=2 chunk=64 shmem=3 spill=0
0 create /unifyfs/a
0 write /unifyfs/a 0 t:abc
0 laminate /unifyfs/a
0 sync /unifyfs/a
0 write /unifyfs/a 0 t:x
0 trunc /unifyfs/a 1
0 laminate /unifyfs/a
0 size /unifyfs/a
0 readown /unifyfs/a 0 9
0 create /unifyfs/a
0 unlink /unifyfs/a
0 laminate /unifyfs/a
0 create /unifyfs/a
0 write /unifyfs/a 0 t:new
0 sync /unifyfs/a
0 laminate /unifyfs/a
1 laminate /unifyfs/a
";

const FROZEN_TWICE_REPORT: &[u8] = b"L 2 ok v=1
L 3 ok slots=1
L 4 ok v=2
L 5 ok v=2
L 6 readonly v=2
L 7 readonly v=2
L 8 readonly v=2
L 9 ok v=2 n=3 frozen=1
L 10 ok v=2 n=3 hex=616263
L 11 exists v=2
L 12 ok v=3
L 13 noent v=3
L 14 ok v=4
L 15 ok slots=1
L 16 ok v=5
L 17 ok v=6
L 18 badf
J /unifyfs/a 2 4 12 14 16 17
F /unifyfs/a n=3 frozen=1 md5=22af645d1859cb5ca6da0c484f1f37ea
S 0 held=1 free=2 faults=0
S 1 held=0 free=3 faults=0
end
";

pub const FROZEN_FILES: [Case; 3] = [
    (SIM, FROZEN, Status::Done, FROZEN_REPORT),
    (
        SIM,
        READ_AT_THREE_SERVERS,
        Status::Done,
        READ_AT_THREE_SERVERS_REPORT,
    ),
    (SIM, FROZEN_TWICE, Status::Done, FROZEN_TWICE_REPORT),
];
