//! The tokens of preprocessed C (C11 6.4), as the lexer gives them and every parser reads them.
//!
//! What a token is, where it stands, and which tokens a file has, is defined in `specs/`: `Bytes` has the
//! classes of bytes, `Words`, `Puncts`, `Numbers` and `Literals` what each form means and where literals
//! end, `Pieces` how far each form reaches and how the bytes are cut, `Cut` and `Places` the tokens with
//! their places, `Roles`, `Brackets`, `Removal` and `Segments` what is done with the list of tokens, and
//! `Lexed` puts these together.

use sc_base::{List, NameId, Pos};

/// A token: what it is, and the place of its first byte.
#[derive(Clone, Copy, Debug, PartialEq, Eq)]
pub struct Token {
    pub kind: Kind,
    pub pos: Pos,
}

/// What a token is (C11 6.4).
#[derive(Clone, Copy, Debug, PartialEq, Eq)]
pub enum Kind {
    /// An identifier that is not reserved (C11 6.4.2), with its place among the names.
    Word(NameId),
    /// A keyword (C11 6.4.1), or a word that compilers reserve beside those.
    Reserved(Reserved),
    /// An integer constant (C11 6.4.4.1).
    Int(IntToken),
    /// A number or a character constant of a form that has no value here: floating constants, wide
    /// characters, characters of no or several bytes.
    Odd,
    /// A character constant of one byte (C11 6.4.4.4), as a signed char.
    Char(i8),
    /// A string literal (C11 6.4.5).
    Str(StrToken),
    /// A punctuator (C11 6.4.6).
    Punct(Punct),
}

/// An integer constant: its value, how it is spelled, and its suffix. (An `Option<u64>` takes 16 bytes,
/// and a file has a token for every few of its bytes: so the number stands beside its flag.)
#[derive(Clone, Copy, Debug, PartialEq, Eq)]
pub struct IntToken {
    /// The number where it fits, and else 0.
    pub value: u64,
    /// The number is at most 2^64 - 1.
    pub fits: bool,
    /// Neither octal nor hexadecimal.
    pub decimal: bool,
    /// The suffix has a `u`.
    pub unsigned: bool,
    /// How many `l` the suffix has, up to two.
    pub longs: u8,
}

/// A string literal. Its bytes are not kept.
#[derive(Clone, Copy, Debug, PartialEq, Eq)]
pub struct StrToken {
    /// The prefix is `L`, `u` or `U`.
    pub wide: bool,
    /// How many bytes there are, an escape counted as one, without the zero at the end.
    pub len: u32,
}

/// The tokens of a file, and where its segments end.
#[derive(Debug, Drop)]
pub struct Tokens {
    /// The number of the file.
    pub file: u32,
    /// The tokens, without the words that leave nothing.
    pub list: List<Token>,
    /// For each segment the number of tokens up to its end, in order.
    pub ends: List<usize>,
}

/// The reserved words: the keywords of C11 6.4.1, `asm` and `typeof` in their three spellings,
/// `__builtin_va_list`, and two more. Those that `specs/Roles.antt` says leave nothing never stand in the
/// `Tokens` of a file.
#[derive(Clone, Copy, Debug, PartialEq, Eq)]
pub enum Reserved {
    /// `auto`
    Auto,
    /// `break`
    Break,
    /// `case`
    Case,
    /// `char`
    Char,
    /// `const`
    Const,
    /// `continue`
    Continue,
    /// `default`
    Default,
    /// `do`
    Do,
    /// `double`
    Double,
    /// `else`
    Else,
    /// `enum`
    Enum,
    /// `extern`
    Extern,
    /// `float`
    Float,
    /// `for`
    For,
    /// `goto`
    Goto,
    /// `if`
    If,
    /// `inline`
    Inline,
    /// `int`
    Int,
    /// `long`
    Long,
    /// `register`
    Register,
    /// `restrict`
    Restrict,
    /// `return`
    Return,
    /// `short`
    Short,
    /// `signed`
    Signed,
    /// `sizeof`
    Sizeof,
    /// `static`
    Static,
    /// `struct`
    Struct,
    /// `switch`
    Switch,
    /// `typedef`
    Typedef,
    /// `union`
    Union,
    /// `unsigned`
    Unsigned,
    /// `void`
    Void,
    /// `volatile`
    Volatile,
    /// `while`
    While,
    /// `_Alignas`
    Alignas,
    /// `_Alignof`
    Alignof,
    /// `_Atomic`
    Atomic,
    /// `_Bool`
    Bool,
    /// `_Complex`
    Complex,
    /// `_Generic`
    Generic,
    /// `_Imaginary`
    Imaginary,
    /// `_Noreturn`
    Noreturn,
    /// `_Static_assert`
    StaticAssert,
    /// `_Thread_local`
    ThreadLocal,
    /// `asm`
    Asm,
    /// `__asm`
    AsmPrefixed,
    /// `__asm__`
    AsmEnclosed,
    /// `typeof`
    Typeof,
    /// `__typeof`
    TypeofPrefixed,
    /// `__typeof__`
    TypeofEnclosed,
    /// `__builtin_va_list`
    BuiltinVaList,
    /// `__attribute__`
    Attribute,
    /// `__extension__`
    Extension,
}

/// The punctuators of C11 6.4.6 without digraphs, `#` and `##`.
#[derive(Clone, Copy, Debug, PartialEq, Eq)]
pub enum Punct {
    /// `(`
    LeftParen,
    /// `)`
    RightParen,
    /// `;`
    Semicolon,
    /// `,`
    Comma,
    /// `{`
    LeftBrace,
    /// `}`
    RightBrace,
    /// `[`
    LeftBracket,
    /// `]`
    RightBracket,
    /// `...`
    Ellipsis,
    /// `.`
    Dot,
    /// `->`
    Arrow,
    /// `--`
    MinusMinus,
    /// `-=`
    MinusAssign,
    /// `-`
    Minus,
    /// `==`
    EqualEqual,
    /// `=`
    Assign,
    /// `*=`
    StarAssign,
    /// `*`
    Star,
    /// `&&`
    AmpAmp,
    /// `&=`
    AmpAssign,
    /// `&`
    Amp,
    /// `++`
    PlusPlus,
    /// `+=`
    PlusAssign,
    /// `+`
    Plus,
    /// `<<=`
    ShiftLeftAssign,
    /// `<<`
    ShiftLeft,
    /// `<=`
    LessEqual,
    /// `<`
    Less,
    /// `>>=`
    ShiftRightAssign,
    /// `>>`
    ShiftRight,
    /// `>=`
    GreaterEqual,
    /// `>`
    Greater,
    /// `!=`
    NotEqual,
    /// `!`
    Not,
    /// `||`
    PipePipe,
    /// `|=`
    PipeAssign,
    /// `|`
    Pipe,
    /// `?`
    Question,
    /// `:`
    Colon,
    /// `~`
    Tilde,
    /// `/=`
    SlashAssign,
    /// `/`
    Slash,
    /// `%=`
    PercentAssign,
    /// `%`
    Percent,
    /// `^=`
    CaretAssign,
    /// `^`
    Caret,
}
