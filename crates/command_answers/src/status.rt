//! How the program ends.
ghost use Rattle.std.specs.Prelude.{◌≡◌};
ghost use Rattle.command_answers.specs.Status.{exit_code};

/// How the program ends.
#[derive(Clone, Copy)]
pub enum Status {
    /// The output is whole.
    Done,
    /// A text is refused.
    Refused,
    /// The words are no command line.
    Usage,
    /// A file is missing, or its read failed.
    Unreadable,
    /// A write to the output failed.
    Unwritable,
    /// Memory was refused.
    OutOfMemory,
    /// The run of an image met a word that is no instruction, or a bus fault.
    MachineFault,
    /// A file has more than 1,048,576 bytes.
    TooLong,
    /// A report isn't one that its source could have told.
    Differs,
}

impl Status {
    /// The exit code of the program, 0 to 8.
    pub fn code(self) -> u8
        ensures { result ≡ exit_code self }
    {
        match self {
            Status::Done => 0,
            Status::Refused => 1,
            Status::Usage => 2,
            Status::Unreadable => 3,
            Status::Unwritable => 4,
            Status::OutOfMemory => 5,
            Status::MachineFault => 6,
            Status::TooLong => 7,
            Status::Differs => 8,
        }
    }
}
