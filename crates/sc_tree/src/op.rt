//! The operators of expressions (C11 6.5), each by its meaning.

/// An operator between two operands (C11 6.5.5 to 6.5.14).
#[derive(Clone, Copy, Debug, PartialEq, Eq)]
pub enum BinaryOp {
    /// `||`
    Or,
    /// `&&`
    And,
    /// `|`
    BitOr,
    /// `^`
    BitXor,
    /// `&`
    BitAnd,
    /// `==`
    Equal,
    /// `!=`
    NotEqual,
    /// `<`
    Less,
    /// `>`
    Greater,
    /// `<=`
    LessEqual,
    /// `>=`
    GreaterEqual,
    /// `<<`
    ShiftLeft,
    /// `>>`
    ShiftRight,
    /// `+`
    Add,
    /// `-`
    Sub,
    /// `*`
    Mul,
    /// `/`
    Div,
    /// `%`
    Rem,
}

/// An operator before its operand (C11 6.5.3.2 and 6.5.3.3).
#[derive(Clone, Copy, Debug, PartialEq, Eq)]
pub enum UnaryOp {
    /// `&`
    Address,
    /// `*`
    Deref,
    /// `+`
    Plus,
    /// `-`
    Minus,
    /// `~`
    Complement,
    /// `!`
    Not,
}

/// An assignment (C11 6.5.16).
#[derive(Clone, Copy, Debug, PartialEq, Eq)]
pub enum AssignOp {
    /// `=`
    Set,
    /// `*=`
    Mul,
    /// `/=`
    Div,
    /// `%=`
    Rem,
    /// `+=`
    Add,
    /// `-=`
    Sub,
    /// `<<=`
    ShiftLeft,
    /// `>>=`
    ShiftRight,
    /// `&=`
    BitAnd,
    /// `^=`
    BitXor,
    /// `|=`
    BitOr,
}

/// A step by one (C11 6.5.2.4 and 6.5.3.1).
#[derive(Clone, Copy, Debug, PartialEq, Eq)]
pub enum Step {
    /// `++`
    Up,
    /// `--`
    Down,
}
