//! The tables of words, punctuators, suffixes, escapes and openings, and how a row is found.
#![tactic(auto)]

ghost use Rattle.std.specs.Prelude.{◌≡◌, ◌≤◌, IfSome, IsTrue, length, map, option_map};
ghost use Rattle.sc_tree.specs.Words.{reserved};
ghost use Rattle.sc_tree.specs.Tables.{begins, named, first_fit};
ghost use Rattle.sc_tree.specs.Puncts.{punctuator};
ghost use Rattle.sc_tree.specs.Numbers.{suffix_of};
ghost use Rattle.sc_tree.specs.Literals.{opening, simple_escape};

use sc_tree::{Opening, Punct, Reserved, Suffix};

const RESERVED: [(&[u8], Reserved); 65] = [
    (b"auto", Reserved::Auto),
    (b"break", Reserved::Break),
    (b"case", Reserved::Case),
    (b"char", Reserved::Char),
    (b"const", Reserved::Const),
    (b"continue", Reserved::Continue),
    (b"default", Reserved::Default),
    (b"do", Reserved::Do),
    (b"double", Reserved::Double),
    (b"else", Reserved::Else),
    (b"enum", Reserved::Enum),
    (b"extern", Reserved::Extern),
    (b"float", Reserved::Float),
    (b"for", Reserved::For),
    (b"goto", Reserved::Goto),
    (b"if", Reserved::If),
    (b"inline", Reserved::Inline),
    (b"int", Reserved::Int),
    (b"long", Reserved::Long),
    (b"register", Reserved::Register),
    (b"restrict", Reserved::Restrict),
    (b"return", Reserved::Return),
    (b"short", Reserved::Short),
    (b"signed", Reserved::Signed),
    (b"sizeof", Reserved::Sizeof),
    (b"static", Reserved::Static),
    (b"struct", Reserved::Struct),
    (b"switch", Reserved::Switch),
    (b"typedef", Reserved::Typedef),
    (b"union", Reserved::Union),
    (b"unsigned", Reserved::Unsigned),
    (b"void", Reserved::Void),
    (b"volatile", Reserved::Volatile),
    (b"while", Reserved::While),
    (b"_Alignas", Reserved::Alignas),
    (b"_Alignof", Reserved::Alignof),
    (b"_Atomic", Reserved::Atomic),
    (b"_Bool", Reserved::Bool),
    (b"_Complex", Reserved::Complex),
    (b"_Generic", Reserved::Generic),
    (b"_Imaginary", Reserved::Imaginary),
    (b"_Noreturn", Reserved::Noreturn),
    (b"_Static_assert", Reserved::StaticAssert),
    (b"_Thread_local", Reserved::ThreadLocal),
    (b"asm", Reserved::Asm),
    (b"__asm", Reserved::AsmPrefixed),
    (b"__asm__", Reserved::AsmEnclosed),
    (b"typeof", Reserved::Typeof),
    (b"__typeof", Reserved::TypeofPrefixed),
    (b"__typeof__", Reserved::TypeofEnclosed),
    (b"__builtin_va_list", Reserved::BuiltinVaList),
    (b"__signed", Reserved::Signed),
    (b"__signed__", Reserved::Signed),
    (b"__inline", Reserved::Inline),
    (b"__inline__", Reserved::Inline),
    (b"__const", Reserved::Const),
    (b"__const__", Reserved::Const),
    (b"__volatile", Reserved::Volatile),
    (b"__volatile__", Reserved::Volatile),
    (b"__restrict", Reserved::Restrict),
    (b"__restrict__", Reserved::Restrict),
    (b"__thread", Reserved::ThreadLocal),
    (b"__extension__", Reserved::Extension),
    (b"__attribute__", Reserved::Attribute),
    (b"__attribute", Reserved::Attribute),
];

const PUNCTUATORS: [(&[u8], Punct); 46] = [
    (b"(", Punct::LeftParen),
    (b")", Punct::RightParen),
    (b";", Punct::Semicolon),
    (b",", Punct::Comma),
    (b"{", Punct::LeftBrace),
    (b"}", Punct::RightBrace),
    (b"[", Punct::LeftBracket),
    (b"]", Punct::RightBracket),
    (b"...", Punct::Ellipsis),
    (b".", Punct::Dot),
    (b"->", Punct::Arrow),
    (b"--", Punct::MinusMinus),
    (b"-=", Punct::MinusAssign),
    (b"-", Punct::Minus),
    (b"==", Punct::EqualEqual),
    (b"=", Punct::Assign),
    (b"*=", Punct::StarAssign),
    (b"*", Punct::Star),
    (b"&&", Punct::AmpAmp),
    (b"&=", Punct::AmpAssign),
    (b"&", Punct::Amp),
    (b"++", Punct::PlusPlus),
    (b"+=", Punct::PlusAssign),
    (b"+", Punct::Plus),
    (b"<<=", Punct::ShiftLeftAssign),
    (b"<<", Punct::ShiftLeft),
    (b"<=", Punct::LessEqual),
    (b"<", Punct::Less),
    (b">>=", Punct::ShiftRightAssign),
    (b">>", Punct::ShiftRight),
    (b">=", Punct::GreaterEqual),
    (b">", Punct::Greater),
    (b"!=", Punct::NotEqual),
    (b"!", Punct::Not),
    (b"||", Punct::PipePipe),
    (b"|=", Punct::PipeAssign),
    (b"|", Punct::Pipe),
    (b"?", Punct::Question),
    (b":", Punct::Colon),
    (b"~", Punct::Tilde),
    (b"/=", Punct::SlashAssign),
    (b"/", Punct::Slash),
    (b"%=", Punct::PercentAssign),
    (b"%", Punct::Percent),
    (b"^=", Punct::CaretAssign),
    (b"^", Punct::Caret),
];

const SUFFIXES: [(&[u8], Suffix); 23] = [
    (
        b"",
        Suffix {
            unsigned: false,
            longs: 0,
        },
    ),
    (
        b"u",
        Suffix {
            unsigned: true,
            longs: 0,
        },
    ),
    (
        b"U",
        Suffix {
            unsigned: true,
            longs: 0,
        },
    ),
    (
        b"l",
        Suffix {
            unsigned: false,
            longs: 1,
        },
    ),
    (
        b"L",
        Suffix {
            unsigned: false,
            longs: 1,
        },
    ),
    (
        b"ll",
        Suffix {
            unsigned: false,
            longs: 2,
        },
    ),
    (
        b"LL",
        Suffix {
            unsigned: false,
            longs: 2,
        },
    ),
    (
        b"ul",
        Suffix {
            unsigned: true,
            longs: 1,
        },
    ),
    (
        b"uL",
        Suffix {
            unsigned: true,
            longs: 1,
        },
    ),
    (
        b"Ul",
        Suffix {
            unsigned: true,
            longs: 1,
        },
    ),
    (
        b"UL",
        Suffix {
            unsigned: true,
            longs: 1,
        },
    ),
    (
        b"lu",
        Suffix {
            unsigned: true,
            longs: 1,
        },
    ),
    (
        b"lU",
        Suffix {
            unsigned: true,
            longs: 1,
        },
    ),
    (
        b"Lu",
        Suffix {
            unsigned: true,
            longs: 1,
        },
    ),
    (
        b"LU",
        Suffix {
            unsigned: true,
            longs: 1,
        },
    ),
    (
        b"ull",
        Suffix {
            unsigned: true,
            longs: 2,
        },
    ),
    (
        b"uLL",
        Suffix {
            unsigned: true,
            longs: 2,
        },
    ),
    (
        b"Ull",
        Suffix {
            unsigned: true,
            longs: 2,
        },
    ),
    (
        b"ULL",
        Suffix {
            unsigned: true,
            longs: 2,
        },
    ),
    (
        b"llu",
        Suffix {
            unsigned: true,
            longs: 2,
        },
    ),
    (
        b"llU",
        Suffix {
            unsigned: true,
            longs: 2,
        },
    ),
    (
        b"LLu",
        Suffix {
            unsigned: true,
            longs: 2,
        },
    ),
    (
        b"LLU",
        Suffix {
            unsigned: true,
            longs: 2,
        },
    ),
];

const SIMPLE_ESCAPES: [(&[u8], u8); 12] = [
    (b"n", 10),
    (b"t", 9),
    (b"r", 13),
    (b"a", 7),
    (b"b", 8),
    (b"f", 12),
    (b"v", 11),
    (b"e", 27),
    (b"\\", 92),
    (b"'", 39),
    (b"\"", 34),
    (b"?", 63),
];

const OPENINGS: [(&[u8], Opening); 11] = [
    (b"/*", Opening::BlockComment),
    (b"//", Opening::LineComment),
    (b"\"", Opening::Str { wide: false }),
    (b"u8\"", Opening::Str { wide: false }),
    (b"L\"", Opening::Str { wide: true }),
    (b"u\"", Opening::Str { wide: true }),
    (b"U\"", Opening::Str { wide: true }),
    (b"'", Opening::Char { plain: true }),
    (b"L'", Opening::Char { plain: false }),
    (b"u'", Opening::Char { plain: false }),
    (b"U'", Opening::Char { plain: false }),
];

/// What a word is reserved for.
#[tactic(auto, unfolding(sc_tree::specs::Words::reserved))]
pub(crate) fn reserved(text: &[u8]) -> Option<Reserved>
    ensures { result ≡ reserved text.now }
{
    named(&RESERVED, text)
}

/// The suffix that a text is.
#[tactic(auto, unfolding(sc_tree::specs::Numbers::suffix_of))]
pub(crate) fn suffix_of(text: &[u8]) -> Option<Suffix>
    ensures { result ≡ suffix_of text.now }
{
    named(&SUFFIXES, text)
}

/// The byte that a letter behind a `\` stands for.
#[tactic(auto, unfolding(sc_tree::specs::Literals::simple_escape))]
pub(crate) fn simple_escape(text: &[u8]) -> Option<u8>
    ensures { result ≡ simple_escape text.now }
{
    named(&SIMPLE_ESCAPES, text)
}

/// The longest punctuator at the front, with its spelling.
#[tactic(auto, unfolding(sc_tree::specs::Puncts::punctuator))]
pub(crate) fn punctuator(bytes: &[u8]) -> Option<(&'static [u8], Punct)>
    ensures row { option_map (λ row. (row.0.now, row.1)) result ≡ punctuator bytes.now }
    ensures within { IfSome result (λ row. length row.0.now ≤ length bytes.now) }
{
    first_fit(&PUNCTUATORS, bytes)
}

/// What is opened at the front, with the bytes that open it.
#[tactic(auto, unfolding(sc_tree::specs::Literals::opening))]
pub(crate) fn opening(bytes: &[u8]) -> Option<(&'static [u8], Opening)>
    ensures row { option_map (λ row. (row.0.now, row.1)) result ≡ opening bytes.now }
    ensures within { IfSome result (λ row. length row.0.now ≤ length bytes.now) }
{
    first_fit(&OPENINGS, bytes)
}

/// Whether the bytes begin with a text.
pub(crate) fn begins(text: &[u8], bytes: &[u8]) -> bool
    ensures begins { result ≡ begins text.now bytes.now }
    ensures within { IsTrue result → length text.now ≤ length bytes.now }
{
    bytes.starts_with(text)
}

/// What the first row of this spelling means.
fn named<T: Copy>(table: &[(&[u8], T)], text: &[u8]) -> Option<T>
    ensures { result ≡ named (map (λ row. (row.0.now, row.1)) table.now) text.now }
{
    for (word, meaning) in table {
        if *word == text {
            return Some(*meaning);
        }
    }
    None
}

/// The first row whose spelling stands at the front.
fn first_fit<'t, T: Copy>(
    table: &'t [(&'static [u8], T)],
    bytes: &[u8],
) -> Option<(&'static [u8], T)>
    ensures row { option_map (λ row. (row.0.now, row.1)) result ≡ first_fit (map (λ row. (row.0.now, row.1)) table.now) bytes.now }
    ensures within { IfSome result (λ row. length row.0.now ≤ length bytes.now) }
{
    for (text, meaning) in table {
        if begins(text, bytes) {
            return Some((*text, *meaning));
        }
    }
    None
}
