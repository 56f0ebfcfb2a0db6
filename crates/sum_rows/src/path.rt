// Paths: how a location is reached from outside a function.

use sc_base::{List, NameId};

/// Where a path begins.
#[derive(Clone, Copy, Debug, PartialEq, Eq)]
pub enum Root {
    /// At the parameter with that number.
    Param(u32),
    /// At the global with that number.
    Global(u32),
}

/// A step of a path.
#[derive(Clone, Copy, Debug, PartialEq, Eq)]
pub enum Step {
    /// To what a pointer points to.
    Deref,
    /// To the member of that name.
    Field(NameId),
    /// To the element with that number.
    Elem(u32),
}

/// A path.
#[derive(Debug, Drop, PartialEq, Eq)]
pub struct Path {
    pub root: Root,
    pub steps: List<Step>,
}
