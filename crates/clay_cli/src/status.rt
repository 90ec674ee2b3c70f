//! How a call of the program ends, and its exit status.
ghost use Rattle.std.specs.Prelude.{◌≡◌};
ghost use Rattle.clay_cli.specs.ExitStatus.{status_number};

/// How a call of the program ended.
#[derive(Clone, Copy, Debug, PartialEq, Eq)]
pub enum Status {
    /// The command's output was written.
    Done,
    /// The words ask for no command; the usage line was written.
    Usage,
    /// The input is no script, or, of `verify`, no transcript behind one; one line that says so was written.
    ScriptRefused,
    /// The input has more than 167,772,160 bytes; nothing was written.
    InputTooLong,
    /// The source failed; nothing was written.
    ReadFault,
    /// The sink failed; a prefix of the output was written.
    WriteFault,
    /// Memory was wanting; nothing was written.
    OutOfMemory,
    /// The transcript can't be that of a run of the script; one line that says why was written.
    NotLegal,
    /// The input isn't the data that the command asks for; one line that says so was written.
    DataRefused,
}

impl Status {
    /// The program's exit status.
    pub fn number(self) -> u8
        ensures { result ≡ status_number self }
    {
        match self {
            Status::Done => 0,
            Status::Usage => 1,
            Status::ScriptRefused => 2,
            Status::InputTooLong => 3,
            Status::ReadFault => 4,
            Status::WriteFault => 5,
            Status::OutOfMemory => 6,
            Status::NotLegal => 8,
            Status::DataRefused => 9,
        }
    }
}
