//! The operations by name.

ghost use Rattle.std.specs.Prelude.{◌≡◌};
ghost use Rattle.fs_script.specs.Reading.Lines.{kind_of};

/// An operation, without what it is done with.
#[derive(Clone, Copy, Debug, PartialEq, Eq)]
pub enum OpKind {
    Create,
    Open,
    Write,
    Sync,
    Read,
    ReadOwn,
    Size,
    Trunc,
    Laminate,
    Unlink,
}

impl OpKind {
    /// The operation of this name.
    pub fn of(word: &[u8]) -> Option<OpKind>
        ensures { result ≡ kind_of word.now }
    {
        if word == b"create".as_slice() {
            Some(OpKind::Create)
        } else if word == b"open".as_slice() {
            Some(OpKind::Open)
        } else if word == b"write".as_slice() {
            Some(OpKind::Write)
        } else if word == b"sync".as_slice() {
            Some(OpKind::Sync)
        } else if word == b"read".as_slice() {
            Some(OpKind::Read)
        } else if word == b"readown".as_slice() {
            Some(OpKind::ReadOwn)
        } else if word == b"size".as_slice() {
            Some(OpKind::Size)
        } else if word == b"trunc".as_slice() {
            Some(OpKind::Trunc)
        } else if word == b"laminate".as_slice() {
            Some(OpKind::Laminate)
        } else if word == b"unlink".as_slice() {
            Some(OpKind::Unlink)
        } else {
            None
        }
    }
}
