// How a run of the program ends.

ghost use Rattle.std.specs.Prelude.{◌≡◌};
ghost use Rattle.verify_runs.specs.Verified.{number_of};

/// How a run ends.
#[derive(Clone, Copy, Debug, PartialEq, Eq)]
pub enum Verified {
    /// The steps are a certificate of the clauses.
    Accepted,
    /// They are not.
    Rejected,
    /// The file is too long, or of another form.
    Refused,
    /// The words of the command line are not of its form.
    BadWords,
    /// The file was not read.
    ReadFault,
    /// The line was not written whole.
    WriteFault,
    /// Memory was refused. Nothing was written.
    Memory,
    /// The words ask for help or for the version, which was written.
    Helped,
}

impl Verified {
    /// The number with which the program ends.
    pub fn number(&self) -> u8
        ensures { result ≡ number_of self.now }
    {
        match self {
            Verified::Accepted | Verified::Helped => 0,
            Verified::Rejected => 1,
            Verified::Refused => 2,
            Verified::BadWords => 3,
            Verified::ReadFault => 4,
            Verified::WriteFault => 5,
            Verified::Memory => 6,
        }
    }
}
