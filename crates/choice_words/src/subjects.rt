// What a choice speaks of. Locations and calls go by their numbers in the layout of the function: a call in one turn of the
// loops round it is one number.

/// What is spoken of.
#[derive(Clone, Copy, Debug, PartialEq, Eq)]
pub enum Subject {
    /// The cell of the location with that number, at entry; of an object that a call gives, when it gives it.
    Cell(u32),
    /// The state of the location with that number at entry.
    State(u32),
    /// What the call with that number does itself.
    Call(u32),
    /// Of a known call, the item with that number of its callee's summary.
    Item { call: u32, item: usize },
    /// Of a known call, the written cell with that number of its callee's summary.
    Write { call: u32, write: usize },
}

/// How the bits of a thing are read.
#[derive(Clone, Copy, Debug, PartialEq, Eq)]
pub enum Reading {
    /// A number of so many bits, with a sign or not.
    Number { width: u32, signed: bool },
    /// One bit: whether a pointer leads to the object or stub at that location; else it is null.
    Pointer(Option<u32>),
    /// One bit: whether a try succeeds, if the lock is not locked.
    Success,
    /// The state of a location.
    State,
    /// One bit: whether the operation of the callee errs there; and the state afterwards.
    StateAfter,
    /// Two bits: the pointer that a known call gives: null, to an object that is new, to another one.
    Given(Option<u32>),
    /// Two bits: whether a parameter's object is held, escapes or is freed.
    Fate,
    /// Two bits: the pointer that a parameter points to: null, to an object that is new, to another one, or the same.
    Pointed(Option<u32>),
}

/// A thing that a choice speaks of: its first bit, and how its bits are read.
#[derive(Clone, Copy, Debug, PartialEq, Eq)]
pub struct Thing {
    pub of: Subject,
    pub bit: u32,
    pub reading: Reading,
}
