// The nodes of a graph. Expressions and types are lent by the typed program, and no part of it is copied.

use sc_base::Pos;
use sc_tree::ctype::CType;
use sc_tree::expr::Place;
use sc_tree::op::BinaryOp;
use sc_typed::{TExpr, TInitItem};
use sc_world::Reason;
use sum_rows::What;

/// What is kept of an expression: its value, or the place of the object that it designates.
#[derive(Clone, Copy, Debug, PartialEq, Eq)]
pub enum Want {
    Value,
    Place,
}

/// The expression of a node. It holds no call, no `&&`, no `||` and no `? :`. Temps go by numbers.
#[derive(Clone, Copy)]
pub enum Expression<'p> {
    /// One of the text, as it stands.
    Source(&'p TExpr),
    /// One of the text, whose first and second operand are kept in these temps. Where it has one operand the second
    /// number says nothing.
    Over(&'p TExpr, u32, u32),
    /// What is kept in a temp, as a value of that type.
    Temp(u32, &'p CType),
    /// The object whose place is kept in a temp, as one of that type.
    TempPlace(u32, &'p CType),
    /// The value of the object whose place is kept in a temp, before `+=` or its kin change it.
    Former(u32, &'p CType),
    /// 1 or 0 in that type.
    Truth(bool, &'p CType),
    /// What gives nothing.
    Nothing,
}

/// So many numbers of temps or slots, one after another.
#[derive(Clone, Copy, Debug, PartialEq, Eq)]
pub struct Numbers {
    pub first: u32,
    pub count: u32,
}

/// A call of the text, in a turn of the loops round it.
#[derive(Clone, Copy)]
pub struct Calling<'p> {
    pub place: Place,
    pub callee: &'p TExpr,
    pub result: &'p CType,
    pub turn: u32,
}

/// `+=` and its kin: the operator, the type in which it works, the type of the object.
#[derive(Clone, Copy)]
pub struct Updating<'p> {
    pub op: BinaryOp,
    pub works: &'p CType,
    pub ctype: &'p CType,
}

/// A node: what it does, and the nodes at which the walk goes on. A temp keeps a value or a place, a slot the cells of a
/// value.
#[derive(Clone, Copy)]
pub enum Node<'p> {
    /// Keeps the value of an expression, or its place, in a temp.
    Keep {
        want: Want,
        temp: u32,
        expression: Expression<'p>,
        next: u32,
    },
    /// Keeps the cells of an expression's value in a slot.
    KeepCells {
        slot: u32,
        expression: Expression<'p>,
        next: u32,
    },
    /// Makes a call with the arguments in these temps, and keeps what it gives.
    Call {
        calling: Calling<'p>,
        arguments: Numbers,
        temp: u32,
        next: u32,
    },
    /// Sets the object at the kept place to what the operator makes of the former value and the right one, all in temps.
    Update {
        updating: Updating<'p>,
        want: Want,
        place: u32,
        former: u32,
        right: u32,
        temp: u32,
        next: u32,
    },
    /// Sets a local to one value.
    Set {
        local: u32,
        expression: Expression<'p>,
        next: u32,
    },
    /// Sets the parts of a local to the cells in these slots, and the rest to 0 or null.
    Fill {
        local: u32,
        items: &'p [TInitItem],
        slots: Numbers,
        next: u32,
    },
    /// Goes on at `hit` where the value in a temp is not 0, else at `miss`.
    Branch {
        from: u32,
        hit: u32,
        miss: u32,
    },
    /// Goes on at `hit` where the value in a temp is that number, else at `miss`.
    Choose {
        from: u32,
        number: u64,
        hit: u32,
        miss: u32,
    },
    /// Adds an event to the trace.
    Mark {
        pos: Pos,
        event: What,
        next: u32,
    },
    /// Adds the event of a `switch`, whose number is the value in a temp, of that type.
    MarkSwitch {
        pos: Pos,
        ctype: &'p CType,
        from: u32,
        next: u32,
    },
    /// The function ends, with the value in a temp or without one.
    Exit {
        from: Option<u32>,
    },
    /// The walk is set aside.
    SetAside {
        reason: Reason,
    },
}
