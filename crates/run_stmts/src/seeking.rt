// How the item is found that a run seeks in a block.

ghost use Rattle.std.specs.Prelude.{◌≡◌};
ghost use Rattle.sc_world.specs.Exec as spec;
ghost use Rattle.run_stmts.specs.Seen as seen;
ghost use Rattle.run_stmts.specs.Trees.{stm_of, stms_of};

use crate::flow::Seek;
use run_world::Here;
use sc_base::{List, NameId};
use sc_typed::TStmt;

// Whether a label stands before an item, directly or behind other labels.
fn has_label(here: &Here, name: NameId, s: &TStmt) -> bool
    ensures { result ≡ spec.has_label name (stm_of here.now s.now) }
{
    match s {
        TStmt::Label(label, x, _) => name.at == label.at || has_label(here, name, x.get()),
        TStmt::Block(_, _, _) | TStmt::Decl(_, _) | TStmt::Expr(_, _) => false,
        TStmt::If(_, _, _, _) | TStmt::While(_, _, _) | TStmt::Do(_, _, _) => false,
        TStmt::For(_, _, _, _, _) | TStmt::Switch(_, _, _, _) => false,
        TStmt::Case(_, _, _) | TStmt::Default(_) | TStmt::Goto(_, _) => false,
        TStmt::Break(_) | TStmt::Continue(_) | TStmt::Return(_, _) => false,
    }
}

fn is_case(here: &Here, number: u64, s: &TStmt) -> bool
    ensures { result ≡ spec.is_case number (stm_of here.now s.now) }
{
    match s {
        TStmt::Case(n, _, _) => number == *n,
        TStmt::Label(_, _, _) => false,
        TStmt::Block(_, _, _) | TStmt::Decl(_, _) | TStmt::Expr(_, _) => false,
        TStmt::If(_, _, _, _) | TStmt::While(_, _, _) | TStmt::Do(_, _, _) => false,
        TStmt::For(_, _, _, _, _) | TStmt::Switch(_, _, _, _) => false,
        TStmt::Default(_) | TStmt::Goto(_, _) => false,
        TStmt::Break(_) | TStmt::Continue(_) | TStmt::Return(_, _) => false,
    }
}

fn is_default(here: &Here, s: &TStmt) -> bool
    ensures { result ≡ spec.is_default (stm_of here.now s.now) }
{
    match s {
        TStmt::Default(_) => true,
        TStmt::Label(_, _, _) => false,
        TStmt::Block(_, _, _) | TStmt::Decl(_, _) | TStmt::Expr(_, _) => false,
        TStmt::If(_, _, _, _) | TStmt::While(_, _, _) | TStmt::Do(_, _, _) => false,
        TStmt::For(_, _, _, _, _) | TStmt::Switch(_, _, _, _) => false,
        TStmt::Case(_, _, _) | TStmt::Goto(_, _) => false,
        TStmt::Break(_) | TStmt::Continue(_) | TStmt::Return(_, _) => false,
    }
}

/// Whether an item is what is sought.
pub fn found(here: &Here, seek: Seek, s: &TStmt) -> bool
    ensures { result ≡ spec.found (seen.seek seek) (stm_of here.now s.now) }
{
    match seek {
        Seek::Here => true,
        Seek::AtLabel(name) => has_label(here, name, s),
        Seek::AtCase(number) => is_case(here, number, s),
        Seek::AtDefault => is_default(here, s),
    }
}

// Whether an item is that case.
fn some_case(here: &Here, number: u64, xs: &List<TStmt>) -> bool
    ensures { result ≡ spec.some_item (spec.is_case number) (stms_of here.now xs.now) }
{
    for x in xs.as_slice() {
        if is_case(here, number, x) {
            return true;
        }
    }
    false
}

// Whether an item is `default`.
fn some_default(here: &Here, xs: &List<TStmt>) -> bool
    ensures { result ≡ spec.some_item spec.is_default (stms_of here.now xs.now) }
{
    for x in xs.as_slice() {
        if is_default(here, x) {
            return true;
        }
    }
    false
}

/// What a `switch` over that number seeks among its items; none where no item is meant.
pub fn chosen_item(here: &Here, number: u64, xs: &List<TStmt>) -> Option<Seek>
    ensures { seen.seek_if result ≡ spec.chosen_item number (stms_of here.now xs.now) }
{
    if some_case(here, number, xs) {
        Some(Seek::AtCase(number))
    } else if some_default(here, xs) {
        Some(Seek::AtDefault)
    } else {
        None
    }
}
