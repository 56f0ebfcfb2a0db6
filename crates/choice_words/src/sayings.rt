// What a choice says.

use crate::subjects::Subject;

/// What is said of one thing.
#[derive(Clone, Copy, Debug, PartialEq, Eq)]
pub enum Word {
    /// A number, as C has it.
    Number(i128),
    /// A null pointer.
    Null,
    /// A pointer to the object or stub at that location.
    Object(u32),
    /// A pointer to the object at that location, which is new.
    Fresh(u32),
    /// A pointer to the object at that location, which others may know.
    Other(u32),
    /// The pointer is what it was.
    Same,
    /// The try succeeds if the lock is not locked.
    Succeeds,
    /// The try fails.
    Fails,
    /// The state of the machine with that number.
    State(u64),
    /// The callee's operation errs there.
    Errs,
    /// The object is still had by the caller alone.
    Held,
    /// Others may know the object.
    Escaped,
    /// The object is freed.
    Freed,
    /// What no row of a summary has: the run is set aside.
    NoRow,
}

/// What a choice says of one thing.
#[derive(Clone, Copy, Debug, PartialEq, Eq)]
pub struct Said {
    pub of: Subject,
    pub word: Word,
}
