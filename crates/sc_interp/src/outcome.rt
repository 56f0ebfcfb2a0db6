// How a run ends.

ghost use Rattle.std.specs.Prelude.{◌≡◌};
ghost use Rattle.run_answers.specs.Seen as answers;
ghost use Rattle.sc_interp.specs.Seen.{ended};

use run_world::{Ended, Value};
use sc_world::Reason;

/// How a run ends.
#[derive(Clone, Copy, Debug, PartialEq, Eq)]
pub enum Outcome {
    /// The function returns, and gives this.
    Exit(Value),
    /// With an error at a location that callers know.
    Error(u32),
    /// With an error at another location.
    Inner(u32),
    /// Set aside.
    Aside(Reason),
}

impl Outcome {
    /// The outcome of a run that gives that, or ends so before.
    pub fn of(run: Result<Value, Ended>) -> Outcome
        ensures { ended result ≡ answers.ended run }
    {
        match run {
            Ok(value) => Outcome::Exit(value),
            Err(Ended::Error(at)) => Outcome::Error(at),
            Err(Ended::Inner(at)) => Outcome::Inner(at),
            Err(Ended::Aside(reason)) => Outcome::Aside(reason),
        }
    }

    /// The same in the words of a step of a run.
    pub fn into_result(self) -> Result<Value, Ended>
        ensures { answers.ended result ≡ ended self }
    {
        match self {
            Outcome::Exit(value) => Ok(value),
            Outcome::Error(at) => Err(Ended::Error(at)),
            Outcome::Inner(at) => Err(Ended::Inner(at)),
            Outcome::Aside(reason) => Err(Ended::Aside(reason)),
        }
    }
}
