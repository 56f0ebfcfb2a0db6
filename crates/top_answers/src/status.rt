// How a run of a program ends.

ghost use Rattle.std.specs.Prelude.{◌≡◌};

/// How a run ends.
#[derive(Clone, Copy, Debug, PartialEq, Eq)]
pub enum Status {
    /// The text was written, and has no report.
    Clean,
    /// The text was written, and has a report.
    Reports,
    /// The input is refused, and a line says why.
    Refused,
    /// The words of the command line are not of its form.
    BadWords,
    /// A file was not read.
    ReadFault,
    /// The text or the line was not written whole.
    WriteFault,
    /// Memory was refused. Nothing was written.
    Memory,
    /// The words ask for help, which was written.
    Helped,
}

impl Status {
    ghost use Rattle.top_answers.specs.Status.{status_number};

    /// The number with which the program ends.
    pub fn number(&self) -> u8
        ensures { result ≡ status_number self.now }
    {
        match self {
            Status::Clean | Status::Helped => 0,
            Status::Reports => 1,
            Status::Refused => 2,
            Status::BadWords => 3,
            Status::ReadFault => 4,
            Status::WriteFault => 5,
            Status::Memory => 6,
        }
    }
}
