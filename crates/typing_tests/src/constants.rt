//! The kinds of integer constants (C11 6.4.4.1).

use sc_tree::ctype::IntKind::{Int, Long, LongLong, UInt, ULong, ULongLong};
use sc_tree::ctype::{IntKind, Widths};
use sc_types::constant_kind;

/// Whether a constant is decimal and has a `u`, how many `l` it has, its value, and its kinds in ILP32 and in LP64.
const CONSTANTS: &[(bool, bool, u32, u64, Option<IntKind>, Option<IntKind>)] = &[
    // A decimal constant without letters is signed.
    (true, false, 0, 0x7fff_ffff, Some(Int), Some(Int)),
    (true, false, 0, 0x8000_0000, Some(LongLong), Some(Long)),
    (true, false, 0, 0x8000_0000_0000_0000, None, None),
    // A hexadecimal one may be unsigned.
    (false, false, 0, 0x8000_0000, Some(UInt), Some(UInt)),
    (false, false, 0, 0x1_0000_0000, Some(LongLong), Some(Long)),
    (false, false, 0, 1 << 63, Some(ULongLong), Some(ULong)),
    // Letters raise the kind: `4294967296u`, `1l`, `0x80000000l` and `1ull`.
    (true, true, 0, 0x1_0000_0000, Some(ULongLong), Some(ULong)),
    (true, false, 1, 1, Some(Long), Some(Long)),
    (false, false, 1, 0x8000_0000, Some(ULong), Some(Long)),
    (true, true, 2, 1, Some(ULongLong), Some(ULongLong)),
];

#[test]
fn constants_have_their_kinds(rt: HostRuntime) {
    for &(decimal, unsigned, longs, value, small, large) in CONSTANTS {
        let holds = constant_kind(Widths::Ilp32, decimal, unsigned, longs, value) == small
            && constant_kind(Widths::Lp64, decimal, unsigned, longs, value) == large;
        assert!(rt; holds, "{value}");
    }
}
