// Members of structs and unions (C11 6.5.2.3, 6.7.2.1).
//
// An expression that a branch does not use is dropped by a call of `drop`, as in `operators`.

ghost use Rattle.std.specs.Prelude.{◌≡◌, ◌-◌, ◌<◌, slice_index_or, IfOk};
ghost use Rattle.sc_rules.specs.Gives.{Gives};
ghost use Rattle.sc_unary.specs.Members as spec;

use sc_base::{Boxed, IllTyped, NameId, OutOfMemory, Unsupported};
use sc_rules::{Walk, ill_typed, node, unsupported};
use sc_tree::ctype::CType;
use sc_tree::expr::Place;
use sc_typed::{FieldDef, StructDef, TExpr, What};
use sc_types::{copy_type, is_aggregate, target};
use std::alloc::Global;
use struct_table::Structs;

/// What a member's name means in a struct or union.
#[derive(Clone, Copy)]
pub enum Meant {
    Missing,
    /// A member of its own, by its number.
    Plain(usize),
    /// A member of a union, which is not taken.
    OfUnion,
    /// A bit field, which is not taken.
    Bits,
    /// A member of an unnamed member, which is not taken.
    Unnamed,
}

// What the name of the member with that number means.
fn meant_by(union: bool, number: usize, field: &FieldDef) -> Meant
    ensures { result ≡ spec.meant_by union number field.now }
{
    if union {
        Meant::OfUnion
    } else if field.bits.is_some() {
        Meant::Bits
    } else {
        Meant::Plain(number)
    }
}

// What a name means in an unnamed member, read from outside.
fn through_unnamed(union: bool, inner: Meant) -> Meant
    ensures { result ≡ spec.through_unnamed union inner }
{
    match inner {
        Meant::Missing => Meant::Missing,
        Meant::OfUnion => Meant::OfUnion,
        Meant::Bits => { if union { Meant::OfUnion } else { Meant::Bits } }
        Meant::Plain(_) | Meant::Unnamed => {
            if union {
                Meant::OfUnion
            } else {
                Meant::Unnamed
            }
        }
    }
}

// The members that the table has for a struct or union; none while it is incomplete.
fn fields_at(structs: &[StructDef], number: u32) -> &[FieldDef]
    ensures { result.now ≡ (spec.body_at structs.now number).fields }
{
    match structs.get(number as usize) {
        None => &[],
        Some(definition) => match &definition.fields {
            None => &[],
            Some(fields) => fields.as_slice(),
        },
    }
}

// Whether the table has a union under that number.
fn union_at(structs: &[StructDef], number: u32) -> bool
    ensures { result ≡ (spec.body_at structs.now number).union }
{
    match structs.get(number as usize) {
        None => false,
        Some(definition) => definition.union,
    }
}

/// The members of a struct or union type; none of any other type, and of one that is incomplete.
pub fn fields_of<'a>(structs: &'a [StructDef], t: &CType) -> &'a [FieldDef]
    ensures { result.now ≡ (spec.body_of structs.now t.now).fields }
{
    match t {
        CType::Struct(number) | CType::Union(number) => fields_at(structs, *number),
        _ => &[],
    }
}

// What a name means among the members themselves of the struct or union with that number.
#[tactic(auto, using(crate::proofs::Numbers::among_none, crate::proofs::Numbers::among_some))]
fn among(structs: &Structs, name: NameId, number: u32) -> Meant
    ensures { result ≡ spec.among (spec.body_at structs.now number).union name 0 (spec.body_at structs.now number).fields }
{
    let Some(k) = structs.find(number, name) else {
        return Meant::Missing;
    };
    match fields_at(structs.as_slice(), number).get(k) {
        None => Meant::Missing,
        Some(field) => meant_by(union_at(structs.as_slice(), number), k, field),
    }
}

// What a name means among the unnamed members of the struct or union with that number, in which bodies stand no deeper
// than that.
#[cycle(member)]
fn among_unnamed(deep: u32, structs: &Structs, name: NameId, number: u32) -> Meant
    ensures { result ≡ spec.among_unnamed (spec.member deep structs.now name) (spec.body_at structs.now number).union
        (spec.body_at structs.now number).fields }
{
    let union = union_at(structs.as_slice(), number);
    let fields = fields_at(structs.as_slice(), number);
    for k in structs.unnamed(number) {
        let inner = match fields.get(*k) {
            None => member(deep, structs, name, &CType::Void),
            Some(field) => member(deep, structs, name, &field.ctype),
        };
        let inner = through_unnamed(union, inner);
        match inner {
            Meant::Missing => {}
            Meant::Plain(_) | Meant::OfUnion | Meant::Bits | Meant::Unnamed => return inner,
        }
    }
    Meant::Missing
}

// What a name means in the struct or union with that number, in which bodies stand no deeper than that.
#[cycle(member)]
fn member_at(deep: u32, structs: &Structs, name: NameId, number: u32) -> Meant
    requires { 0 < deep }
    ensures { result ≡ spec.or_next
        (spec.among (spec.body_at structs.now number).union name 0 (spec.body_at structs.now number).fields)
        (spec.among_unnamed (spec.member (deep - 1) structs.now name) (spec.body_at structs.now number).union
        (spec.body_at structs.now number).fields) }
{
    let found = among(structs, name, number);
    match found {
        Meant::Missing => among_unnamed(deep - 1, structs, name, number),
        Meant::Plain(_) | Meant::OfUnion | Meant::Bits | Meant::Unnamed => found,
    }
}

// What a name means in a type, in which bodies stand no deeper than that.
#[cycle(member)]
#[tactic(auto, using(crate::proofs::Deeper::member_deeper), unfolding(crate::specs::Members::member))]
fn member(deep: u32, structs: &Structs, name: NameId, t: &CType) -> Meant
    ensures { result ≡ spec.member deep structs.now name t.now }
{
    if deep == 0 {
        return Meant::Missing;
    }
    match t {
        CType::Struct(number) | CType::Union(number) => member_at(deep, structs, name, *number),
        _ => Meant::Missing,
    }
}

/// What the name of a member means in a struct or union type; `Missing` in any other. Members are found by their names
/// through an index; where none of its own has the name, the unnamed members are looked through in their order.
pub fn find_member(structs: &Structs, name: NameId, t: &CType) -> Meant
    ensures { result ≡ spec.find_member structs.now name t.now }
{
    member(128, structs, name, t)
}

// The number of a struct or union type.
fn struct_number(t: &CType) -> u32
    ensures { result ≡ spec.struct_number t.now }
{
    match t {
        CType::Struct(number) | CType::Union(number) => *number,
        _ => 0,
    }
}

// The type of the member with that number.
fn field_type(
    alloc: Global,
    structs: &[StructDef],
    t: &CType,
    number: usize,
) -> Result<CType, OutOfMemory>
    ensures { IfOk result (λ x. x ≡ spec.field_type structs.now t.now number) }
{
    match fields_of(structs, t).get(number) {
        None => Ok(CType::Void),
        Some(field) => copy_type(alloc, &field.ctype),
    }
}

// A member of its own, by its number. The tree has no room for numbers of 32 bits and more.
fn plain_field(
    alloc: Global,
    structs: &[StructDef],
    number: usize,
    arrow: bool,
    t: &CType,
    p: Place,
    e: TExpr,
) -> Result<TExpr, OutOfMemory>
    ensures { IfOk result (λ x. x ≡ spec.plain_field structs.now number arrow t.now p e) }
{
    let e = Boxed::new(alloc, e)?;
    if number > u32::MAX as usize {
        return Err(OutOfMemory);
    }
    let ctype = field_type(alloc, structs, t, number)?;
    let what = What::Field(e, struct_number(t), number as u32, arrow);
    Ok(node(what, ctype, p))
}

// A member by what its name means.
fn access(
    alloc: Global,
    walk: &mut Walk,
    found: Meant,
    arrow: bool,
    t: &CType,
    p: Place,
    e: TExpr,
) -> Result<Option<TExpr>, OutOfMemory>
    ensures { Gives (spec.access found arrow t.now p e walk.old) result walk.new }
{
    match found {
        Meant::Missing => {
            drop(e);
            Ok(ill_typed(walk, IllTyped::Field, p.token))
        }
        Meant::OfUnion => {
            drop(e);
            Ok(unsupported(walk, Unsupported::Union, p.token))
        }
        Meant::Bits => {
            drop(e);
            Ok(unsupported(walk, Unsupported::BitField, p.token))
        }
        Meant::Unnamed => {
            drop(e);
            Ok(unsupported(walk, Unsupported::Anon, p.token))
        }
        Meant::Plain(number) => {
            let structs = walk.structs.as_slice();
            Ok(Some(plain_field(alloc, structs, number, arrow, t, p, e)?))
        }
    }
}

// A member of what has the type `t`.
fn field_in(
    alloc: Global,
    walk: &mut Walk,
    name: NameId,
    arrow: bool,
    t: &CType,
    p: Place,
    e: TExpr,
) -> Result<Option<TExpr>, OutOfMemory>
    ensures { Gives (spec.field_in name arrow t.now p e walk.old) result walk.new }
{
    if is_aggregate(t) {
        let found = find_member(&walk.structs, name, t);
        access(alloc, walk, found, arrow, t, p, e)
    } else {
        drop(e);
        Ok(ill_typed(walk, IllTyped::Operand, p.token))
    }
}

// The type whose member is named: with `->` that of what the pointer points to.
fn accessed(alloc: Global, arrow: bool, t: &CType) -> Result<CType, OutOfMemory>
    ensures { IfOk result (λ x. x ≡ spec.accessed arrow t.now) }
{
    if arrow {
        match target(t) {
            None => Ok(CType::Void),
            Some(pointed) => copy_type(alloc, pointed),
        }
    } else {
        copy_type(alloc, t)
    }
}

/// `e . name`, or `e -> name` with the flag (C11 6.5.2.3). `e` stands as it is before a `.`, and is a value
/// before `->`. The place's token is the name.
pub fn field(
    alloc: Global,
    walk: &mut Walk,
    name: NameId,
    arrow: bool,
    p: Place,
    e: TExpr,
) -> Result<Option<TExpr>, OutOfMemory>
    ensures { Gives (spec.field name arrow p e walk.old) result walk.new }
{
    match accessed(alloc, arrow, &e.ctype) {
        Err(fault) => {
            drop(e);
            Err(fault)
        }
        Ok(t) => field_in(alloc, walk, name, arrow, &t, p, e),
    }
}
