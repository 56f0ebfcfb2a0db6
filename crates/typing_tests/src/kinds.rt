//! Integer kinds: their widths and promotions, and in which kind two of them meet (C11 6.3.1.1, 6.3.1.8).

use sc_tree::ctype::IntKind::{Char, Int, Long, LongLong, UInt, ULong, ULongLong, UShort};
use sc_tree::ctype::{IntKind, Widths};
use sc_types::{common, is_signed, kind_bytes, promoted};

/// The kind, its bytes in ILP32 and in LP64, whether it is signed, and what it is promoted to.
const KINDS: &[(IntKind, u64, u64, bool, IntKind)] = &[
    (IntKind::Char, 1, 1, true, IntKind::Int),
    (IntKind::SChar, 1, 1, true, IntKind::Int),
    (IntKind::UChar, 1, 1, false, IntKind::Int),
    (IntKind::Short, 2, 2, true, IntKind::Int),
    (IntKind::UShort, 2, 2, false, IntKind::Int),
    (IntKind::Int, 4, 4, true, IntKind::Int),
    (IntKind::UInt, 4, 4, false, IntKind::UInt),
    (IntKind::Long, 4, 8, true, IntKind::Long),
    (IntKind::ULong, 4, 8, false, IntKind::ULong),
    (IntKind::LongLong, 8, 8, true, IntKind::LongLong),
    (IntKind::ULongLong, 8, 8, false, IntKind::ULongLong),
];

#[test]
fn kinds_have_their_widths_and_promotions(rt: HostRuntime) {
    for &(kind, small, large, signed, promotion) in KINDS {
        let holds = kind_bytes(Widths::Ilp32, kind) == small
            && kind_bytes(Widths::Lp64, kind) == large
            && is_signed(kind) == signed
            && promoted(kind) == promotion;
        assert!(rt; holds, "{kind:?}");
    }
}

/// Two kinds, and where they meet in ILP32 and in LP64.
const MEETINGS: &[(IntKind, IntKind, IntKind, IntKind)] = &[
    (Char, UShort, Int, Int),
    (Int, UInt, UInt, UInt),
    (Long, UInt, ULong, Long),
    (Int, ULong, ULong, ULong),
    (ULong, LongLong, LongLong, ULongLong),
    (ULongLong, LongLong, ULongLong, ULongLong),
];

#[test]
fn operands_meet_in_one_kind(rt: HostRuntime) {
    for &(a, b, small, large) in MEETINGS {
        let holds = common(Widths::Ilp32, a, b) == small
            && common(Widths::Ilp32, b, a) == small
            && common(Widths::Lp64, a, b) == large
            && common(Widths::Lp64, b, a) == large;
        assert!(rt; holds, "{a:?} {b:?}");
    }
}
