//! What an assignment by an operator takes: kept values, and a type for the one on the right.

ghost use Rattle.std.specs.Prelude.{◌≡◌, ℕ, ◌<◌, true, length};
ghost use Rattle.gl_store.specs.Meets.{val_kind};
ghost use Rattle.gl_store.specs.declared.values.Val.TheVariants as val;
ghost use Rattle.run_store.specs.Concrete.{Numbers, Pointers};
ghost use Rattle.sc_tree.specs.declared.ctype.Widths.{Widths};
ghost use Rattle.sc_world.specs.Tree.{Ty, int_bits, is_integer};
ghost use Rattle.sc_world.specs.View.{type};
ghost use Rattle.flow_turns.specs.Kept.{val_at};
ghost use Rattle.flow_updates.specs.Widths as spec;

use flow_turns::Temps;
use gl_sets::Set;
use gl_store::Val;
use sc_tree::ctype::{CType, IntKind};

/// What was kept in a temp.
pub fn val_in(temps: &Temps, number: u32) -> &Val
    requires { number < length temps.now.vals.items }
    ensures { result.now ≡ val_at temps.now number }
{
    let at = number as usize;
    &temps.vals.as_slice()[at]
}

/// The place that was kept in a temp.
#[tactic(auto, using(crate::proofs::Numbered::no_word, crate::proofs::Numbered::no_unit))]
pub fn place_in(temps: &Temps, number: u32) -> &Set
    requires low { number < length temps.now.vals.items }
    requires kind { val_kind (val_at temps.now number) ≡ Pointers }
    ensures { val.Set result.now ≡ val_at temps.now number }
{
    match val_in(temps, number) {
        Val::Set(place) => place,
        Val::Word(_) => unreachable!(),
        Val::Unit => unreachable!(),
    }
}

// A kind of integers of that width.
fn kind_of_width(bits: usize) -> IntKind
    ensures { result ≡ spec.kind_of_width bits }
{
    if bits == 8 {
        IntKind::Char
    } else if bits == 16 {
        IntKind::Short
    } else if bits == 32 {
        IntKind::Int
    } else {
        IntKind::LongLong
    }
}

// An integer type of that width.
fn type_of_width(bits: usize) -> CType
    ensures { type result ≡ spec.of_width bits }
{
    if bits == 1 {
        CType::Bool
    } else {
        CType::Int(kind_of_width(bits))
    }
}

/// An integer type that has the width of a number of some integer type.
#[tactic(auto, using(crate::proofs::Numbered::word_type, crate::proofs::Numbered::no_set_type, crate::proofs::Numbered::no_unit_type))]
pub fn number_type(x: &Val) -> CType
    ensures { (w : Widths) (t : Ty) → is_integer t ≡ true → val_kind x.now ≡ Numbers (int_bits w t)
        → (is_integer (type result) ≡ true) × (val_kind x.now ≡ Numbers (int_bits w (type result))) }
{
    match x {
        Val::Word(word) => type_of_width(word.bits.len()),
        Val::Set(_) => CType::Bool,
        Val::Unit => CType::Bool,
    }
}
