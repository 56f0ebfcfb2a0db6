//! The tables of C11 6.5 and 6.7: what a token means as an operator or as a word of a type.

ghost use Rattle.std.specs.Prelude.{◌≡◌, ◌≤◌, None, MatchOption};
ghost use Rattle.sc_tree.specs.Operators as operators;
ghost use Rattle.sc_tree.specs.TypeWords as words;
ghost use Rattle.sc_tree.specs.Grammar as grammar;

use sc_tree::expr::Storage;
use sc_tree::grammar::{MainWord, TypeWord};
use sc_tree::op::{AssignOp, BinaryOp, Step, UnaryOp};
use sc_tree::{Punct, Reserved};

/// An operator between two operands, and how tightly it binds: 1 most tightly, 10 least.
#[derive(Clone, Copy, Debug)]
pub(crate) struct Binding {
    pub(crate) level: u8,
    pub(crate) op: BinaryOp,
}

/// The operator between two operands (C11 6.5.5 to 6.5.14).
pub(crate) fn binary(punct: Punct) -> Option<Binding>
    ensures { MatchOption result (operators.binary punct ≡ None) (λ b. operators.binary punct ≡ operators.binding b.level b.op) }
{
    let (level, op) = match punct {
        Punct::Star => (1, BinaryOp::Mul),
        Punct::Slash => (1, BinaryOp::Div),
        Punct::Percent => (1, BinaryOp::Rem),
        Punct::Plus => (2, BinaryOp::Add),
        Punct::Minus => (2, BinaryOp::Sub),
        Punct::ShiftLeft => (3, BinaryOp::ShiftLeft),
        Punct::ShiftRight => (3, BinaryOp::ShiftRight),
        Punct::Less => (4, BinaryOp::Less),
        Punct::Greater => (4, BinaryOp::Greater),
        Punct::LessEqual => (4, BinaryOp::LessEqual),
        Punct::GreaterEqual => (4, BinaryOp::GreaterEqual),
        Punct::EqualEqual => (5, BinaryOp::Equal),
        Punct::NotEqual => (5, BinaryOp::NotEqual),
        Punct::Amp => (6, BinaryOp::BitAnd),
        Punct::Caret => (7, BinaryOp::BitXor),
        Punct::Pipe => (8, BinaryOp::BitOr),
        Punct::AmpAmp => (9, BinaryOp::And),
        Punct::PipePipe => (10, BinaryOp::Or),
        _ => return None,
    };
    Some(Binding { level, op })
}

/// The operator before an operand (C11 6.5.3.2, 6.5.3.3).
pub(crate) fn unary(punct: Punct) -> Option<UnaryOp>
    ensures { result ≡ operators.unary punct }
{
    match punct {
        Punct::Amp => Some(UnaryOp::Address),
        Punct::Star => Some(UnaryOp::Deref),
        Punct::Plus => Some(UnaryOp::Plus),
        Punct::Minus => Some(UnaryOp::Minus),
        Punct::Tilde => Some(UnaryOp::Complement),
        Punct::Not => Some(UnaryOp::Not),
        _ => None,
    }
}

/// The step by one (C11 6.5.2.4, 6.5.3.1).
pub(crate) fn step(punct: Punct) -> Option<Step>
    ensures { result ≡ operators.step punct }
{
    match punct {
        Punct::PlusPlus => Some(Step::Up),
        Punct::MinusMinus => Some(Step::Down),
        _ => None,
    }
}

/// The assignment (C11 6.5.16).
pub(crate) fn assign(punct: Punct) -> Option<AssignOp>
    ensures { result ≡ operators.assign punct }
{
    match punct {
        Punct::Assign => Some(AssignOp::Set),
        Punct::StarAssign => Some(AssignOp::Mul),
        Punct::SlashAssign => Some(AssignOp::Div),
        Punct::PercentAssign => Some(AssignOp::Rem),
        Punct::PlusAssign => Some(AssignOp::Add),
        Punct::MinusAssign => Some(AssignOp::Sub),
        Punct::ShiftLeftAssign => Some(AssignOp::ShiftLeft),
        Punct::ShiftRightAssign => Some(AssignOp::ShiftRight),
        Punct::AmpAssign => Some(AssignOp::BitAnd),
        Punct::CaretAssign => Some(AssignOp::BitXor),
        Punct::PipeAssign => Some(AssignOp::BitOr),
        _ => None,
    }
}

/// The word that may stand beside a type (C11 6.7.1, 6.7.4).
pub(crate) fn storage_word(word: Reserved) -> Option<Storage>
    ensures { result ≡ words.storage_word word }
{
    match word {
        Reserved::Typedef => Some(Storage::Typedef),
        Reserved::Extern => Some(Storage::Extern),
        Reserved::Static => Some(Storage::Static),
        Reserved::Inline => Some(Storage::Inline),
        _ => None,
    }
}

/// The word of a type (C11 6.7.2).
pub(crate) fn type_word(word: Reserved) -> Option<TypeWord>
    ensures { result ≡ words.type_word word }
{
    match word {
        Reserved::Void => Some(TypeWord::Main(MainWord::Void)),
        Reserved::Bool => Some(TypeWord::Main(MainWord::Bool)),
        Reserved::Char => Some(TypeWord::Main(MainWord::Char)),
        Reserved::Float => Some(TypeWord::Main(MainWord::Float)),
        Reserved::Double => Some(TypeWord::Main(MainWord::Double)),
        Reserved::BuiltinVaList => Some(TypeWord::Main(MainWord::VaList)),
        Reserved::Short => Some(TypeWord::Short),
        Reserved::Long => Some(TypeWord::Long),
        Reserved::Int => Some(TypeWord::Int),
        Reserved::Signed => Some(TypeWord::Signed),
        Reserved::Unsigned => Some(TypeWord::Unsigned),
        _ => None,
    }
}

/// Whether the word begins a struct (`false`) or a union (`true`).
pub(crate) fn record_word(word: Reserved) -> Option<bool>
    ensures { result ≡ grammar.record_word word }
{
    match word {
        Reserved::Struct => Some(false),
        Reserved::Union => Some(true),
        _ => None,
    }
}
