//! Scripts that are refused, each with the line that says why, beside neighbours that are accepted.

use std::alloc::{AllocError, Global};

/// What a call prints for a text.
pub type Printed = (&'static [u8], &'static [u8]);

/// A text and a byte that follows it so many times, with what a call prints for both together.
pub type Filled = (&'static [u8], u8, usize, &'static [u8]);

/// The header of a job of four clients. It has 55 bytes.
pub const FOUR_CLIENTS: &[u8] = b"unifyfs 1 servers=1 clients=4 chunk=64 shmem=1 spill=0\n";

const HEADER: &[u8] = b"refused header\n";

const BAD_LINE: &[u8] = b"unifyfs 1 servers=1 clients=4 chunk=64 shmem=1 spill=0\n0\n";

const SPILLING: &[u8] = b"unifyfs 1 servers=1 clients=4 chunk=64 shmem=1 spill=1\n";

const LINES_REFUSED: &[u8] = b"refused lines\n";

const LIMIT: &[u8] = b"refused limit line=2\n";

const RANK: &[u8] = b"refused line=2 reason=rank\n";

const OP: &[u8] = b"refused line=2 reason=op\n";

const WORDS: &[u8] = b"refused line=2 reason=words\n";

const PATH: &[u8] = b"refused line=2 reason=path\n";

const NUMBER: &[u8] = b"refused line=2 reason=number\n";

const DATA: &[u8] = b"refused line=2 reason=data\n";

const NO_LINE: &[u8] = b"S 0 held=0 free=1 faults=0
S 1 held=0 free=1 faults=0
S 2 held=0 free=1 faults=0
S 3 held=0 free=1 faults=0
end
";

const CREATED: &[u8] = b"L 2 ok v=1
J /unifyfs/a 2
F /unifyfs/a n=0 frozen=0 md5=d41d8cd98f00b204e9800998ecf8427e
S 0 held=0 free=1 faults=0
S 1 held=0 free=1 faults=0
S 2 held=0 free=1 faults=0
S 3 held=0 free=1 faults=0
end
";

const NO_FILE: &[u8] = b"L 2 noent v=0
J /unifyfs/a
F /unifyfs/a none
S 0 held=0 free=1 faults=0
S 1 held=0 free=1 faults=0
S 2 held=0 free=1 faults=0
S 3 held=0 free=1 faults=0
end
";

const CLOSED: &[u8] = b"L 2 badf
J /unifyfs/a
F /unifyfs/a none
S 0 held=0 free=1 faults=0
S 1 held=0 free=1 faults=0
S 2 held=0 free=1 faults=0
S 3 held=0 free=1 faults=0
end
";

/// First lines, with what a script of each alone is answered. Their form is tried before the limits
/// of their numbers, and both before a later line.
pub const HEADERS: [(&[&[u8]], &[u8]); 2] = [
    (
        &[
            b"",
            b"\n",
            b"0 create /unifyfs/a",
            b"unifyfs 1 servers=2 cli",
            b"unifyfs 1 servers=1 clients=1 chunk=64 shmem=1",
            b"unifyfs 2 servers=1 clients=1 chunk=64 shmem=1 spill=0",
            b"unifyfs 1 servers=1 clients=1 chunk=064 shmem=1 spill=0",
            b"unifyfs 1 servers=1 clients=1 chunk=64 shmem=1 spill=0 ",
            b"unifyfs 1  servers=1 clients=1 chunk=64 shmem=1 spill=0",
            b"unifyfs 1 clients=1 servers=1 chunk=64 shmem=1 spill=0",
            b"unifyfs 1 servers=1 clients=1 chunk=64 shmem=1 spill=0\r\n",
            b"unifyfs 1 servers=0 clients=1 chunk=64 shmem=1 spill=x",
            b"unifyfs 1 servers=1 clients=1 chunk=64 shmem=1 spill=18446744073709551616",
        ],
        HEADER,
    ),
    (
        &[
            b"unifyfs 1 servers=0 clients=1 chunk=64 shmem=1 spill=0",
            b"unifyfs 1 servers=65 clients=1 chunk=64 shmem=1 spill=0",
            b"unifyfs 1 servers=1 clients=0 chunk=64 shmem=1 spill=0",
            b"unifyfs 1 servers=1 clients=65 chunk=64 shmem=1 spill=0",
            b"unifyfs 1 servers=1 clients=1 chunk=56 shmem=1 spill=0",
            b"unifyfs 1 servers=1 clients=1 chunk=60 shmem=1 spill=0",
            b"unifyfs 1 servers=1 clients=1 chunk=68 shmem=1 spill=0",
            b"unifyfs 1 servers=1 clients=1 chunk=65544 shmem=1 spill=0",
            b"unifyfs 1 servers=1 clients=1 chunk=64 shmem=0 spill=0",
            b"unifyfs 1 servers=1 clients=1 chunk=64 shmem=65537 spill=0",
            b"unifyfs 1 servers=1 clients=2 chunk=64 shmem=32769 spill=0",
            b"unifyfs 1 servers=1 clients=2 chunk=64 shmem=9223372036854775808 spill=0",
            b"unifyfs 1 servers=1 clients=1 chunk=65536 shmem=4097 spill=0",
            b"unifyfs 1 servers=1 clients=1 chunk=64 shmem=1 spill=1",
            b"unifyfs 1 servers=1 clients=1 chunk=64 shmem=1 spill=18446744073709551615",
            b"unifyfs 1 servers=1 clients=1 chunk=64 shmem=1 spill=1\n0\n",
        ],
        b"refused limit line=1\n",
    ),
];

/// First lines that are accepted, each with the number of its clients and that of a client's slots.
pub const SHAPES: [(&[u8], u32, u32); 6] = [
    (
        b"unifyfs 1 servers=1 clients=1 chunk=64 shmem=1 spill=0",
        1,
        1,
    ),
    (
        b"unifyfs 1 servers=64 clients=64 chunk=64 shmem=1 spill=0\n",
        64,
        1,
    ),
    (
        b"unifyfs 1 servers=1 clients=1 chunk=72 shmem=1 spill=0",
        1,
        1,
    ),
    (
        b"unifyfs 1 servers=1 clients=1 chunk=65536 shmem=4096 spill=0",
        1,
        4_096,
    ),
    (
        b"unifyfs 1 servers=1 clients=1 chunk=64 shmem=65536 spill=0",
        1,
        65_536,
    ),
    (
        b"unifyfs 1 servers=1 clients=2 chunk=64 shmem=32768 spill=0",
        2,
        32_768,
    ),
];

/// What a job without operations reports: all slots of its clients are free.
pub fn free_slots(alloc: Global, clients: u32, slots: u32) -> Result<String, AllocError> {
    let mut report = String::new(alloc);
    for r in 0..clients {
        write!(report, "S {r} held=0 free={slots} faults=0\n")?;
    }
    report.push_str("end\n")?;
    Ok(report)
}

/// Lines that follow the header of four clients. The words of a line are tried from the left: the
/// client, the operation, how many words there are, and then each of the others. The limit of the
/// last word comes after all words.
pub const LINES: &[Printed] = &[
    (b"", NO_LINE),
    (b"\n#\nbarrier\n# 4 remove", NO_LINE),
    (b"3 create /unifyfs/a", CREATED),
    (b"4 create /unifyfs/a", RANK),
    (b"03 create /unifyfs/a", RANK),
    (b"18446744073709551616 create /unifyfs/a", RANK),
    (b" 0 create /unifyfs/a", RANK),
    (b"barrier ", RANK),
    (b" #", RANK),
    (b"create /unifyfs/a", RANK),
    (b"4 remove a", RANK),
    (b"0", OP),
    (b"0 ", OP),
    (b"0  create /unifyfs/a", OP),
    (b"0 Create /unifyfs/a", OP),
    (b"0 barrier", OP),
    (b"0 truncate /unifyfs/a 3", OP),
    (b"0 lamination /unifyfs/a", OP),
    (b"0 stagein /unifyfs/a in.txt", OP),
    (b"0 stageout /unifyfs/a out.txt", OP),
    (b"0 open /unifyfs/a", NO_FILE),
    (b"0 open", WORDS),
    (b"0 create /unifyfs/a ", WORDS),
    (b"0 create  /unifyfs/a", WORDS),
    (b"0 sync /unifyfs/a 0", WORDS),
    (b"0 size /unifyfs/a 0", WORDS),
    (b"0 write /unifyfs/a 0", WORDS),
    (b"0 write /unifyfs/a 0 t:a b", WORDS),
    (b"0 read a 0", WORDS),
    (b"0 readown a 0", WORDS),
    (b"0 trunc a", WORDS),
    (b"0 trunc /unifyfs/a 0 0", WORDS),
    (b"0 unlink /unifyfs/a 0", WORDS),
    (b"0 laminate", WORDS),
    (b"0 laminate /unifyfs/a 0", WORDS),
    (b"0 size /unifyfs/a", CLOSED),
    (b"0 size /unifyfs/", PATH),
    (b"0 sync /unifyfs/a/", PATH),
    (b"0 create /unifyfs/../a", PATH),
    (b"0 open /unifyfs/a~", PATH),
    (b"0 read a x y", PATH),
    (b"0 readown a x y", PATH),
    (b"0 trunc a x", PATH),
    (b"0 unlink a", PATH),
    (b"0 laminate a", PATH),
    (b"0 write a x y", PATH),
    (b"0 read /unifyfs/a 18446744073709551615 0", CLOSED),
    (b"0 read /unifyfs/a 18446744073709551616 0", NUMBER),
    (b"0 read /unifyfs/a +1 0", NUMBER),
    (b"0 read /unifyfs/a 0 01", NUMBER),
    (b"0 read /unifyfs/a x 16777217", NUMBER),
    (b"0 readown /unifyfs/a x 16777217", NUMBER),
    (b"0 trunc /unifyfs/a 03", NUMBER),
    (b"0 trunc /unifyfs/a 18446744073709551616", NUMBER),
    (b"0 write /unifyfs/a 00 hello", NUMBER),
    (b"0 write /unifyfs/a 00 p:0:16777217", NUMBER),
    (b"0 write /unifyfs/a 0 hello", DATA),
    (b"0 write /unifyfs/a 0 t:", CLOSED),
    (b"0 write /unifyfs/a 0 t:\x7F", DATA),
    (b"0 write /unifyfs/a 0 t:\x7E", CLOSED),
    (b"0 write /unifyfs/a 0 t:\x1F", DATA),
    (b"0 write /unifyfs/a 0 t:\x21", CLOSED),
    (b"0 write /unifyfs/a 0 p:7", DATA),
    (b"0 write /unifyfs/a 0 p:7:4:", DATA),
    (b"0 write /unifyfs/a 0 p:07:16777217", DATA),
    (b"0 write /unifyfs/a 0 p:18446744073709551616:4", DATA),
    (b"0 write /unifyfs/a 0 p:18446744073709551615:4", CLOSED),
    (b"0 write /unifyfs/a 0 p:0:16777216", CLOSED),
    (b"0 write /unifyfs/a 0 p:0:16777217", LIMIT),
    (b"0 write /unifyfs/a 0 p:0:4294967299", LIMIT),
    (b"0 read /unifyfs/a 0 16777216", CLOSED),
    (b"0 read /unifyfs/a 0 16777217", LIMIT),
    (b"0 readown /unifyfs/a 0 16777216", CLOSED),
    (b"0 readown /unifyfs/a 0 16777217", LIMIT),
    (b"0 trunc /unifyfs/a 1099511627776", CLOSED),
    (b"0 trunc /unifyfs/a 1099511627777", LIMIT),
    (b"0 unlink /unifyfs/a", CLOSED),
    (b"0 laminate /unifyfs/a", CLOSED),
    // The first faulty line is named, whatever its fault.
    (b"0 read /unifyfs/a 0 16777217\n0", LIMIT),
    (b"0\n0 read /unifyfs/a 0 16777217", OP),
    (b"0 size\n4 size /unifyfs/a", WORDS),
    (
        b"0 size /unifyfs/a\n\nbarrier\n4 size\n0",
        b"refused line=5 reason=rank\n",
    ),
];

/// How many bytes and lines there may be. The bytes are counted before all else, and the lines
/// after the header is read and before each of the others is.
pub const SIZES: [Filled; 10] = [
    (b"", b'\n', 4_194_304, HEADER),
    (b"", b'\n', 4_194_305, b"refused long\n"),
    (FOUR_CLIENTS, b'#', 4_194_249, NO_LINE),
    (FOUR_CLIENTS, b'#', 4_194_250, b"refused long\n"),
    (FOUR_CLIENTS, b'\n', 65_535, NO_LINE),
    (FOUR_CLIENTS, b'\n', 65_536, LINES_REFUSED),
    (BAD_LINE, b'\n', 65_534, OP),
    (BAD_LINE, b'\n', 65_535, LINES_REFUSED),
    (b"unifyfs 1 servers=1\n", b'\n', 65_536, HEADER),
    (SPILLING, b'\n', 65_536, b"refused limit line=1\n"),
];
