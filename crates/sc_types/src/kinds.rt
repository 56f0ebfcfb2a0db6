// The kinds of integers (C11 6.2.5): how wide they are, which are signed, and in which kind a value of
// them is computed (C11 6.3.1.1, 6.3.1.8).

ghost use Rattle.std.specs.Prelude.{◌≡◌, ◌≤◌};
ghost use Rattle.sc_typed.specs.Kinds as spec;

use sc_tree::ctype::{IntKind, Widths};

/// The bytes of a `long` and of a pointer.
pub fn word_bytes(w: Widths) -> u64
    ensures value { result ≡ spec.word_bytes w }
    ensures bound { result ≤ 8 }
{
    match w {
        Widths::Ilp32 => 4,
        Widths::Lp64 => 8,
    }
}

/// The bytes of an integer of that kind.
pub fn kind_bytes(w: Widths, kind: IntKind) -> u64
    ensures value { result ≡ spec.kind_bytes w kind }
    ensures bound { result ≤ 8 }
{
    match kind {
        IntKind::Char | IntKind::SChar | IntKind::UChar => 1,
        IntKind::Short | IntKind::UShort => 2,
        IntKind::Int | IntKind::UInt => 4,
        IntKind::Long | IntKind::ULong => word_bytes(w),
        IntKind::LongLong | IntKind::ULongLong => 8,
    }
}

/// The bits of an integer of that kind.
pub fn kind_bits(w: Widths, kind: IntKind) -> u32
    ensures value { result ≡ spec.kind_bits w kind }
    ensures bound { result ≤ 64 }
{
    8 * kind_bytes(w, kind) as u32
}

/// Whether integers of that kind have a sign. A `char` has one.
pub fn is_signed(kind: IntKind) -> bool
    ensures { result ≡ spec.is_signed kind }
{
    match kind {
        IntKind::Char
        | IntKind::SChar
        | IntKind::Short
        | IntKind::Int
        | IntKind::Long
        | IntKind::LongLong => true,
        IntKind::UChar | IntKind::UShort | IntKind::UInt | IntKind::ULong | IntKind::ULongLong => {
            false
        }
    }
}

/// The kind that the integer promotions give (C11 6.3.1.1): `int` for a kind of 8 or 16 bits.
pub fn promoted(kind: IntKind) -> IntKind
    ensures { result ≡ spec.promoted kind }
{
    match kind {
        IntKind::Char | IntKind::SChar | IntKind::UChar => IntKind::Int,
        IntKind::Short | IntKind::UShort => IntKind::Int,
        IntKind::Int => IntKind::Int,
        IntKind::UInt => IntKind::UInt,
        IntKind::Long => IntKind::Long,
        IntKind::ULong => IntKind::ULong,
        IntKind::LongLong => IntKind::LongLong,
        IntKind::ULongLong => IntKind::ULongLong,
    }
}

/// The rank of a promoted kind (C11 6.3.1.1).
pub fn rank(kind: IntKind) -> u32
    ensures { result ≡ spec.rank kind }
{
    match kind {
        IntKind::Long | IntKind::ULong => 2,
        IntKind::LongLong | IntKind::ULongLong => 3,
        IntKind::Char
        | IntKind::SChar
        | IntKind::UChar
        | IntKind::Short
        | IntKind::UShort
        | IntKind::Int
        | IntKind::UInt => 1,
    }
}

// The unsigned kind of a promoted kind.
fn unsigned(kind: IntKind) -> IntKind
    ensures { result ≡ spec.unsigned kind }
{
    match kind {
        IntKind::Long | IntKind::ULong => IntKind::ULong,
        IntKind::LongLong | IntKind::ULongLong => IntKind::ULongLong,
        IntKind::Char
        | IntKind::SChar
        | IntKind::UChar
        | IntKind::Short
        | IntKind::UShort
        | IntKind::Int
        | IntKind::UInt => IntKind::UInt,
    }
}

// Of two promoted kinds of one signedness the one of greater rank.
fn greater(a: IntKind, b: IntKind) -> IntKind
    ensures { result ≡ spec.greater a b }
{
    if rank(a) < rank(b) { b } else { a }
}

// Where an unsigned kind `u` and a signed kind `s`, both promoted, meet.
fn mixed(w: Widths, u: IntKind, s: IntKind) -> IntKind
    ensures { result ≡ spec.mixed w u s }
{
    if rank(s) <= rank(u) {
        u
    } else if kind_bytes(w, u) < kind_bytes(w, s) {
        s
    } else {
        unsigned(s)
    }
}

// The kind in which two promoted kinds meet.
fn meet(w: Widths, a: IntKind, b: IntKind) -> IntKind
    ensures { result ≡ spec.meet w a b }
{
    match (is_signed(a), is_signed(b)) {
        (true, false) => mixed(w, b, a),
        (false, true) => mixed(w, a, b),
        (true, true) | (false, false) => greater(a, b),
    }
}

/// The kind in which two operands meet: the usual arithmetic conversions (C11 6.3.1.8).
pub fn common(w: Widths, a: IntKind, b: IntKind) -> IntKind
    ensures { result ≡ spec.common w a b }
{
    meet(w, promoted(a), promoted(b))
}

/// Whether two kinds are one.
pub fn same_kind(a: IntKind, b: IntKind) -> bool
    ensures { result ≡ spec.same_kind a b }
{
    a == b
}
