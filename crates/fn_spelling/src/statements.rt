// Statements (C11 6.8) and the declarations in bodies (C11 6.7), as numbers.

ghost use Rattle.std.specs.Prelude.{◌≡◌, ◌∷◌, ◌++◌, map, IfOk, OnOk, slice_index_or};
ghost use Rattle.fn_matter.specs.Words.{begun, ended, leaf as leaf_of, marked, spell, spell_all, trees};
ghost use Rattle.fn_matter.specs.Numbers.{declared_numbers, pos, way_numbers};
ghost use Rattle.fn_matter.specs.Shapes as shape;

use crate::expressions::{exp_part, one_part};
use crate::writing::{end, leaf, node, part};
use sc_base::{List, OutOfMemory, Pos};
use sc_typed::{Declared, InitStep, TDeclarator, TExpr, TForStart, TInit, TInitItem, TStmt};
use std::alloc::Global;

// A node that stands at a place.
fn at(out: &mut Vec<u64>, kind: u64, p: Pos) -> Result<(), OutOfMemory>
    ensures { OnOk result (out.new.items ≡ begun kind (pos p) out.old.items) }
{
    node(out, kind, &[p.file as u64, p.line as u64, p.col as u64])
}

// A node that stands between two places.
fn between(out: &mut Vec<u64>, kind: u64, p: Pos, q: Pos) -> Result<(), OutOfMemory>
    ensures { OnOk result (out.new.items ≡ begun kind (pos p ++ pos q) out.old.items) }
{
    let (a, b, c) = (p.file as u64, p.line as u64, p.col as u64);
    node(
        out,
        kind,
        &[a, b, c, q.file as u64, q.line as u64, q.col as u64],
    )
}

// A node without parts that stands at a place.
fn bare(out: &mut Vec<u64>, kind: u64, p: Pos) -> Result<(), OutOfMemory>
    ensures { OnOk result (out.new.items ≡ spell (leaf_of kind (pos p)) out.old.items) }
{
    at(out, kind, p)?;
    end(out)
}

// A node with a number that stands at a place.
fn numbered(out: &mut Vec<u64>, kind: u64, n: u64, p: Pos) -> Result<(), OutOfMemory>
    ensures { OnOk result (out.new.items ≡ begun kind (n ∷ pos p) out.old.items) }
{
    node(out, kind, &[n, p.file as u64, p.line as u64, p.col as u64])
}

// An expression that may be left out, as the last parts.
fn exp_if(out: &mut Vec<u64>, e: &Option<TExpr>) -> Result<(), OutOfMemory>
    ensures { OnOk result (out.new.items ≡ spell_all (shape.exp_if e.now) out.old.items) }
{
    match e {
        None => end(out),
        Some(e) => one_part(out, e),
    }
}

// The same as a part of its own.
fn maybe_part(out: &mut Vec<u64>, e: &Option<TExpr>) -> Result<(), OutOfMemory>
    ensures { OnOk result (out.new.items ≡ spell (shape.maybe_exp e.now) (marked out.old.items)) }
{
    part(out)?;
    node(out, 0, &[])?;
    exp_if(out, e)
}

// ---- declarations

// The numbers of the steps to a part of an object, two for each.
fn steps(alloc: Global, way: &[InitStep]) -> Result<Vec<u64>, OutOfMemory>
    ensures { IfOk result (λ made. made.items ≡ way_numbers way.now) }
{
    let mut made = Vec::new(alloc);
    for step in way {
        match step {
            InitStep::Field(n) => made.extend_from_slice(&[0, *n as u64])?,
            InitStep::Elem(n) => made.extend_from_slice(&[1, *n as u64])?,
        }
    }
    Ok(made)
}

// A value in braces, as a part.
fn item_part(alloc: Global, out: &mut Vec<u64>, x: &TInitItem) -> Result<(), OutOfMemory>
    ensures { OnOk result (out.new.items ≡ spell (shape.item_tree x.now) (marked out.old.items)) }
{
    part(out)?;
    match &x.way {
        None => {
            node(out, 0, &[])?;
            one_part(out, &x.value)
        }
        Some(way) => {
            let numbers = steps(alloc, way.as_slice())?;
            node(out, 1, numbers.as_slice())?;
            one_part(out, &x.value)
        }
    }
}

// Values in braces, as the last parts.
fn items(alloc: Global, out: &mut Vec<u64>, xs: &[TInitItem]) -> Result<(), OutOfMemory>
    ensures { OnOk result (out.new.items ≡ spell_all (trees (map shape.item_tree xs.now)) out.old.items) }
{
    for x in xs {
        item_part(alloc, out, x)?;
    }
    end(out)
}

// An initialiser, as a part.
fn init_part(alloc: Global, out: &mut Vec<u64>, x: &TInit) -> Result<(), OutOfMemory>
    ensures { OnOk result (out.new.items ≡ spell (shape.init_tree x.now) (marked out.old.items)) }
{
    part(out)?;
    match x {
        TInit::One(e) => {
            node(out, 0, &[])?;
            one_part(out, e)
        }
        TInit::Braces(xs) => {
            node(out, 1, &[])?;
            items(alloc, out, xs.as_slice())
        }
    }
}

// An initialiser that may be left out, as the last parts.
fn init_if(alloc: Global, out: &mut Vec<u64>, x: &Option<TInit>) -> Result<(), OutOfMemory>
    ensures { OnOk result (out.new.items ≡ spell_all (shape.init_if x.now) out.old.items) }
{
    match x {
        None => end(out),
        Some(x) => {
            init_part(alloc, out, x)?;
            end(out)
        }
    }
}

// What a declarator declares, as a kind and a number.
fn declared_kind(d: Declared) -> u64
    ensures { result ≡ slice_index_or (declared_numbers d) 0 0 }
{
    match d {
        Declared::Local(_) => 0,
        Declared::Global(_) => 1,
        Declared::Function => 2,
    }
}

fn declared_number(d: Declared) -> u64
    ensures { result ≡ slice_index_or (declared_numbers d) 1 0 }
{
    match d {
        Declared::Local(n) | Declared::Global(n) => n as u64,
        Declared::Function => 0,
    }
}

// The head of a declarator.
fn declarator_node(out: &mut Vec<u64>, d: &TDeclarator) -> Result<(), OutOfMemory>
    ensures { OnOk result (out.new.items ≡ begun 0 (d.now.name.at ∷ (pos d.now.pos ++ declared_numbers d.now.declared)) out.old.items) }
{
    let (p, what, number) = (
        d.pos,
        declared_kind(d.declared),
        declared_number(d.declared),
    );
    let (file, line, col) = (p.file as u64, p.line as u64, p.col as u64);
    node(out, 0, &[d.name.at as u64, file, line, col, what, number])
}

// A declarator, as a part.
fn declarator_part(alloc: Global, out: &mut Vec<u64>, d: &TDeclarator) -> Result<(), OutOfMemory>
    ensures { OnOk result (out.new.items ≡ spell (shape.declarator_tree d.now) (marked out.old.items)) }
{
    part(out)?;
    declarator_node(out, d)?;
    init_if(alloc, out, &d.init)
}

// Declarators, as the last parts.
fn declarators(alloc: Global, out: &mut Vec<u64>, ds: &[TDeclarator]) -> Result<(), OutOfMemory>
    ensures { OnOk result (out.new.items ≡ spell_all (trees (map shape.declarator_tree ds.now)) out.old.items) }
{
    for d in ds {
        declarator_part(alloc, out, d)?;
    }
    end(out)
}

// What stands in the first place of a `for`, as a part.
fn start_part(alloc: Global, out: &mut Vec<u64>, x: &TForStart) -> Result<(), OutOfMemory>
    ensures { OnOk result (out.new.items ≡ spell (shape.start_tree x.now) (marked out.old.items)) }
{
    part(out)?;
    match x {
        TForStart::Nothing => leaf(out, 0, &[]),
        TForStart::Expr(e) => {
            node(out, 1, &[])?;
            one_part(out, e)
        }
        TForStart::Decl(ds, p) => {
            at(out, 2, *p)?;
            declarators(alloc, out, ds.as_slice())
        }
    }
}

// ---- statements

// The head of a `for`: all but its body.
fn for_head(
    alloc: Global,
    out: &mut Vec<u64>,
    first: &TForStart,
    test: &Option<TExpr>,
    next: &Option<TExpr>,
    p: Pos,
) -> Result<(), OutOfMemory>
    ensures { OnOk result (out.new.items ≡ spell (shape.maybe_exp next.now) (marked (spell (shape.maybe_exp test.now) (marked
        (spell (shape.start_tree first.now) (marked (begun 6 (pos p) out.old.items))))))) }
{
    at(out, 6, p)?;
    start_part(alloc, out, first)?;
    maybe_part(out, test)?;
    maybe_part(out, next)
}

/// Writes a statement behind the numbers.
///
/// # Errors
///
/// `OutOfMemory` where memory is refused.
#[cycle(statement)]
pub fn statement(alloc: Global, out: &mut Vec<u64>, x: &TStmt) -> Result<(), OutOfMemory>
    ensures { OnOk result (out.new.items ≡ spell (shape.stm_tree x.now) out.old.items) }
{
    match x {
        TStmt::Block(xs, begin, close) => {
            between(out, 0, *begin, *close)?;
            statements(alloc, out, xs)
        }
        TStmt::Decl(ds, p) => {
            at(out, 1, *p)?;
            declarators(alloc, out, ds.as_slice())
        }
        TStmt::Expr(e, p) => {
            at(out, 2, *p)?;
            exp_if(out, e)
        }
        TStmt::If(e, then, None, p) => {
            at(out, 3, *p)?;
            exp_part(out, e)?;
            last_part(alloc, out, then.get())
        }
        TStmt::If(e, then, Some(other), p) => {
            at(out, 3, *p)?;
            exp_part(out, e)?;
            stm_part(alloc, out, then.get())?;
            last_part(alloc, out, other.get())
        }
        TStmt::While(e, body, p) => {
            at(out, 4, *p)?;
            exp_part(out, e)?;
            last_part(alloc, out, body.get())
        }
        TStmt::Do(body, e, p) => {
            at(out, 5, *p)?;
            stm_part(alloc, out, body.get())?;
            one_part(out, e)
        }
        TStmt::For(first, test, next, body, p) => {
            for_head(alloc, out, first, test, next, *p)?;
            last_part(alloc, out, body.get())
        }
        TStmt::Switch(e, xs, p, close) => {
            between(out, 7, *p, *close)?;
            exp_part(out, e)?;
            statements(alloc, out, xs)
        }
        TStmt::Case(n, e, p) => {
            numbered(out, 8, *n, *p)?;
            one_part(out, e)
        }
        TStmt::Default(p) => bare(out, 9, *p),
        TStmt::Goto(name, p) => {
            numbered(out, 10, name.at as u64, *p)?;
            end(out)
        }
        TStmt::Break(p) => bare(out, 11, *p),
        TStmt::Continue(p) => bare(out, 12, *p),
        TStmt::Return(e, p) => {
            at(out, 13, *p)?;
            exp_if(out, e)
        }
        TStmt::Label(name, of, p) => {
            numbered(out, 14, name.at as u64, *p)?;
            last_part(alloc, out, of.get())
        }
    }
}

// Writes a statement as a part.
#[cycle(statement)]
fn stm_part(alloc: Global, out: &mut Vec<u64>, x: &TStmt) -> Result<(), OutOfMemory>
    ensures { OnOk result (out.new.items ≡ spell (shape.stm_tree x.now) (marked out.old.items)) }
{
    part(out)?;
    statement(alloc, out, x)
}

// Writes a statement as the last part.
#[cycle(statement)]
fn last_part(alloc: Global, out: &mut Vec<u64>, x: &TStmt) -> Result<(), OutOfMemory>
    ensures { OnOk result (out.new.items ≡ ended (spell (shape.stm_tree x.now) (marked out.old.items))) }
{
    stm_part(alloc, out, x)?;
    end(out)
}

// Writes statements as the last parts.
#[cycle(statement)]
fn statements(alloc: Global, out: &mut Vec<u64>, xs: &List<TStmt>) -> Result<(), OutOfMemory>
    ensures { OnOk result (out.new.items ≡ spell_all (trees (map shape.stm_tree xs.now)) out.old.items) }
{
    for x in xs.as_slice() {
        stm_part(alloc, out, x)?;
    }
    end(out)
}
