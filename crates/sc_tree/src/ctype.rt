//! The types of C (C11 6.2.5), and the widths that a target gives them.

use sc_base::{Boxed, List};

/// The kinds of integers beside `_Bool` (C11 6.2.5).
#[derive(Clone, Copy, Debug, PartialEq, Eq)]
pub enum IntKind {
    /// `char`, which is signed.
    Char,
    /// `signed char`
    SChar,
    /// `unsigned char`
    UChar,
    /// `short`
    Short,
    /// `unsigned short`
    UShort,
    /// `int`
    Int,
    /// `unsigned int`
    UInt,
    /// `long`
    Long,
    /// `unsigned long`
    ULong,
    /// `long long`
    LongLong,
    /// `unsigned long long`
    ULongLong,
}

/// The kinds of types whose values are not followed.
#[derive(Clone, Copy, Debug, PartialEq, Eq)]
pub enum OpaqueKind {
    /// `float`
    Float,
    /// `double`
    Double,
    /// `long double`
    LongDouble,
    /// `__builtin_va_list`
    VaList,
}

/// Which widths `long` and pointers have.
#[derive(Clone, Copy, Debug, PartialEq, Eq)]
pub enum Widths {
    /// 32 bits each.
    Ilp32,
    /// 64 bits each.
    Lp64,
}

/// A type. Structs and unions go by their number in the program.
#[cycle(ctype)]
#[derive(Drop)]
pub enum CType {
    Void,
    /// `_Bool`
    Bool,
    Int(IntKind),
    /// A pointer to the type.
    Ptr(Boxed<CType>),
    /// An array of the element type, with its length where one is written.
    Array(Boxed<CType>, Option<u32>),
    Struct(u32),
    Union(u32),
    Func(Boxed<Signature>),
    Opaque(OpaqueKind),
}

/// The type of a function.
#[cycle(ctype)]
#[derive(Drop)]
pub struct Signature {
    pub result: CType,
    /// `None` for empty brackets, which say nothing of the parameters (C11 6.7.6.3).
    pub params: Option<List<CType>>,
    /// `...` stands behind the parameters.
    pub variadic: bool,
}
