// Runs that are shown, reports and verdicts.

use crate::{Path, Summary};
use sc_base::{List, NameId, Pos, Skip};

/// What happens in a run.
#[derive(Clone, Copy, Debug, PartialEq, Eq)]
pub enum What {
    /// A call by name, or through a pointer.
    Call(Option<NameId>),
    /// The condition of an `if`, and whether it holds.
    If(bool),
    /// The condition of a loop, and whether it holds.
    Loop(bool),
    /// The number of a `switch`.
    Switch(i128),
    Goto(NameId),
    Return,
    /// The closing brace of the body.
    End,
    /// An error at the location with that number.
    Bad(u32),
}

/// An event of a run, and where it stands.
#[derive(Clone, Copy, Debug, PartialEq, Eq)]
pub struct Event {
    pub line: u32,
    pub col: u32,
    pub what: What,
}

/// A run that is shown: the choices that give it, and its events.
#[derive(Debug, Drop, PartialEq, Eq)]
pub struct Shown {
    pub choice: List<bool>,
    pub trace: List<Event>,
    /// The text of the location of an error; empty where the run has none.
    pub text: List<u8>,
}

/// A report, with the least runs that show it.
#[derive(Debug, Drop, PartialEq, Eq)]
pub enum Report {
    /// From every state the location's operation may end in an error: a run for each state, in their order.
    Double(Path, List<Shown>),
    /// From one state the location may end in two, and the caller cannot tell which.
    Ambiguous(Path, Shown, Shown),
    /// A run ends in an error at a location that the caller does not know.
    Inner(Shown),
    /// An object that a call at the place allocated is lost.
    Leak(Pos, Shown),
}

/// What is found out about a function.
#[derive(Debug, Drop, PartialEq, Eq)]
pub enum Verdict {
    Skipped(Skip),
    Done(Summary, List<Report>),
}
