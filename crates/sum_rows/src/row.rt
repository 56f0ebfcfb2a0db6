// Rows: how a function leaves what it was given, and the summary that they make.

use crate::Path;
use sc_base::List;

/// What rows speak of.
#[derive(Debug, Drop, PartialEq, Eq)]
pub enum Item {
    /// The end of the function.
    Exit,
    /// The state of the location at the path.
    Lock(Path),
    /// The object that the parameter with that number points to.
    Param(u32),
    /// The pointer that the parameter with that number points to.
    Out(u32),
}

/// The state of an item, in the order of rows.
#[derive(Clone, Copy, Debug, PartialEq, Eq)]
pub enum State {
    /// The item has none.
    Nil,
    /// The state of a machine with that number. Of locks 0 is unlocked and 1 is locked.
    At(u32),
    /// The run ends in an error there.
    Bad,
    /// The object is still had by the caller alone.
    Held,
    /// Others may know the object.
    Escaped,
    /// The object is freed.
    Freed,
    /// A null pointer.
    Null,
    /// The pointer to a new object that nothing else knows.
    Fresh,
    /// Any other pointer.
    Other,
    /// The cell was not written.
    Same,
}

/// What a function gives, in the order of rows.
#[derive(Clone, Copy, Debug, PartialEq, Eq)]
pub enum Gives {
    /// Nothing: it has no result, or the run ended in an error.
    Nothing,
    /// The number 0, or null.
    Zero,
    /// Another number, or a pointer that is not null.
    NotZero,
}

/// A row: from the entry bits and the state at entry to the result and the state at the end.
#[derive(Clone, Copy, Debug, PartialEq, Eq)]
pub struct Row {
    /// The entry bits as a number, the first parameter's highest.
    pub given: u8,
    pub before: State,
    pub result: Gives,
    pub after: State,
}

/// An item with its rows, in their order, each once.
#[derive(Debug, Drop, PartialEq, Eq)]
pub struct ItemRows {
    pub item: Item,
    pub rows: List<Row>,
}

/// A cell that a function may write.
#[derive(Debug, Drop, PartialEq, Eq)]
pub struct Write {
    pub path: Path,
    /// The bits of the cell; 0 for a pointer.
    pub width: u32,
}

/// The summary of a function.
#[derive(Debug, Drop, PartialEq, Eq)]
pub struct Summary {
    /// The number of entry bits, at most 3.
    pub bits: u8,
    /// The end first, then the locations in their order, then the parameters, then the pointers that
    /// parameters point to.
    pub items: List<ItemRows>,
    /// The cells that some run writes, in the order of locations.
    pub writes: List<Write>,
}
