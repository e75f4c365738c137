//! How a command ended.

ghost use Rattle.std.specs.Prelude.{◌≡◌};

/// The status of a command.
#[derive(Clone, Copy, Debug, PartialEq, Eq)]
pub enum Status {
    /// The text was written whole.
    Done,
    /// The words are no command.
    Usage,
    /// The job script is refused.
    Refused,
    /// The input failed.
    ReadFault,
    /// The output failed.
    WriteFault,
    /// Memory ran out.
    Memory,
}

impl Status {
    ghost use Rattle.fs_types.specs.Status.{code_of};

    /// The exit status of the program.
    pub fn code(&self) -> u8
        ensures { result ≡ code_of self.now }
    {
        match self {
            Status::Done => 0,
            Status::Usage => 1,
            Status::Refused => 2,
            Status::ReadFault => 3,
            Status::WriteFault => 4,
            Status::Memory => 6,
        }
    }
}
