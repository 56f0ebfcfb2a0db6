// How much room a type takes (C11 6.2.8, 6.5.3.4, 6.7.2.1): its size and its alignment, in bytes.

ghost use Rattle.std.specs.Prelude.{◌≡◌, ◌<◌, ◌≤◌, ◌^◌};
ghost use Rattle.sc_typed.specs.Extents as spec;

use crate::kinds::{kind_bytes, word_bytes};
use sc_tree::ctype::{CType, OpaqueKind, Widths};
use sc_typed::{Extent, FieldDef, Program, StructDef};

// The extent of those numbers, if they are not too large. The limit is 2^31 - 1 bytes.
fn fitting(size: u128, align: u64) -> Option<Extent>
    ensures { result ≡ spec.fits (record { size = size; align = align }) }
{
    if size < 0x8000_0000 {
        Some(Extent {
            size: size as u64,
            align,
        })
    } else {
        None
    }
}

// The alignment of a type of that size that is no array, struct or union.
fn aligned_as(w: Widths, size: u64) -> u64
    ensures { result ≡ spec.aligned_as w size }
{
    match w {
        Widths::Ilp32 => size.min(4),
        Widths::Lp64 => size,
    }
}

// The extent of a type of that size that is no array, struct or union.
fn plain_extent(w: Widths, size: u64) -> Extent
    ensures { result ≡ spec.plain_extent w size }
{
    Extent {
        size,
        align: aligned_as(w, size),
    }
}

// The extent of `__builtin_va_list`.
fn va_list_extent(w: Widths) -> Extent
    ensures { result ≡ spec.va_list_extent w }
{
    match w {
        Widths::Ilp32 => Extent { size: 4, align: 4 },
        Widths::Lp64 => Extent { size: 24, align: 8 },
    }
}

fn long_double_bytes(w: Widths) -> u64
    ensures { result ≡ spec.long_double_bytes w }
{
    match w {
        Widths::Ilp32 => 12,
        Widths::Lp64 => 16,
    }
}

fn opaque_extent(w: Widths, kind: OpaqueKind) -> Extent
    ensures { result ≡ spec.opaque_extent w kind }
{
    match kind {
        OpaqueKind::Float => plain_extent(w, 4),
        OpaqueKind::Double => plain_extent(w, 8),
        OpaqueKind::LongDouble => plain_extent(w, long_double_bytes(w)),
        OpaqueKind::VaList => va_list_extent(w),
    }
}

// The extent that the table has for a struct or union; `None` for a number that it has not.
fn extent_at(structs: &[StructDef], number: u32) -> Option<Extent>
    ensures { result ≡ (spec.struct_at structs.now number).extent }
{
    match structs.get(number as usize) {
        Some(definition) => definition.extent,
        None => None,
    }
}

// The extent of an array of those elements. Without a length it has size 0.
fn array_extent(element: Option<Extent>, length: Option<u32>) -> Option<Extent>
    ensures { result ≡ spec.array_extent element length }
{
    match element {
        None => None,
        Some(e) => fitting(e.size as u128 * length.unwrap_or(0) as u128, e.align),
    }
}

/// The size and the alignment of a type, over a table of structs and unions. `None` exactly for an
/// incomplete type and for one above 2^31 - 1 bytes.
pub fn extent(w: Widths, structs: &[StructDef], t: &CType) -> Option<Extent>
    ensures { result ≡ spec.extent w structs.now t.now }
{
    match t {
        CType::Void | CType::Bool | CType::Func(_) => Some(plain_extent(w, 1)),
        CType::Int(kind) => Some(plain_extent(w, kind_bytes(w, *kind))),
        CType::Ptr(_) => Some(plain_extent(w, word_bytes(w))),
        CType::Array(element, length) => array_extent(extent(w, structs, element.get()), *length),
        CType::Struct(number) | CType::Union(number) => extent_at(structs, *number),
        CType::Opaque(kind) => Some(opaque_extent(w, *kind)),
    }
}

/// The size of a type in bytes (C11 6.5.3.4); `None` exactly for an incomplete type and for one above
/// 2^31 - 1 bytes.
pub fn size(program: &Program, t: &CType) -> Option<u64>
    ensures { result ≡ spec.size program.now.widths program.now.structs t.now }
{
    match extent(program.widths, program.structs.as_slice(), t) {
        Some(e) => Some(e.size),
        None => None,
    }
}

// `n` rounded up to a multiple of the alignment.
fn rounded_up(n: u64, align: u64) -> u128
    ensures value { result ≡ spec.rounded_up n align }
    ensures bound { result < 2 ^ 65 }
{
    if align == 0 {
        0
    } else {
        (n as u128 + align as u128 - 1) / align as u128 * align as u128
    }
}

// The members so far, and one of extent `e` behind them.
fn with_member(union: bool, all: Extent, e: Extent) -> Option<Extent>
    ensures { result ≡ spec.with_member union all e }
{
    let align = all.align.max(e.align);
    if union {
        fitting(all.size.max(e.size) as u128, align)
    } else {
        fitting(rounded_up(all.size, e.align) + e.size as u128, align)
    }
}

// The members so far, and a field behind them. A bit field of width 0 takes no room.
fn with_field(union: bool, bits: Option<u32>, e: Option<Extent>, all: Extent) -> Option<Extent>
    ensures { result ≡ spec.with_field union bits e all }
{
    match (e, bits) {
        (None, _) => None,
        (Some(_), Some(0)) => Some(all),
        (Some(e), Some(_) | None) => with_member(union, all, e),
    }
}

// The extent of the members, its size rounded up to its alignment.
fn closed(all: Option<Extent>) -> Option<Extent>
    ensures { result ≡ spec.closed all }
{
    match all {
        None => None,
        Some(e) => fitting(rounded_up(e.size, e.align), e.align),
    }
}

// The members so far, if they have an extent, and a field behind them.
fn with_next(
    w: Widths,
    structs: &[StructDef],
    union: bool,
    all: Option<Extent>,
    field: &FieldDef,
) -> Option<Extent>
    ensures { result ≡ spec.with_next w structs.now union all field.now }
{
    match all {
        None => None,
        Some(all) => with_field(union, field.bits, extent(w, structs, &field.ctype), all),
    }
}

/// The size and the alignment of a struct or union with these members, over a table of the structs and
/// unions that they name (C11 6.7.2.1). `None` exactly where a member has no extent, or the whole would
/// be above 2^31 - 1 bytes.
pub fn struct_extent(
    w: Widths,
    structs: &[StructDef],
    union: bool,
    fields: &[FieldDef],
) -> Option<Extent>
    ensures { result ≡ spec.struct_extent w structs.now union fields.now }
{
    let mut all = Some(Extent { size: 0, align: 1 });
    for field in fields {
        all = with_next(w, structs, union, all, field);
    }
    closed(all)
}
