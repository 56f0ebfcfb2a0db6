// Functions with a body (C11 6.9.1).

ghost use Rattle.std.specs.Prelude.{◌≡◌, [], Some, IfOk, OnOk};
ghost use Rattle.std.specs.Option.{option_copied};
ghost use Rattle.sc_rules.specs.Gives.{Gives};
ghost use Rattle.sc_declare.specs.Numbers.{keys_of};
ghost use Rattle.sc_typing.specs.Tables as tables;
ghost use Rattle.sc_typing.specs.Typing.{heading};
ghost use Rattle.sc_declarations.specs.Declarations as declared;
ghost use Rattle.sc_tree.specs.declared.expr.Head.{out-Head};
ghost use Rattle.sc_tree.specs.declared.expr.Specs.{out-Specs};
ghost use Rattle.sc_declare.specs.Storage.{has_local};
ghost use Rattle.sc_check.specs.Files as spec;
ghost use Rattle.sc_check.specs.Parts as parts;

use crate::heads::{
    close_params, finish, judge_head, judge_jumps, open_params, shape_of, skip_body,
};
use sc_base::{Boxed, List, NameId, OutOfMemory, Pos};
use sc_bodies::{Around, bare_statement};
use sc_declare::{GlobalNumbers, has_local, signature_of};
use sc_names::Scope;
use sc_rules::Walk;
use sc_tree::ctype::CType;
use sc_tree::expr::Head;
use sc_tree::stmt::Stmt;
use sc_tree::unit::Body;
use sc_typed::{Function, TStmt};
use sc_types::copy_type;
use sc_typing::{Own, Shape, Tables};
use scopes::{Block, Scopes};
use std::alloc::Global;

/// The name that a declarator declares, with its place; in a declaration each has one.
pub fn name_or(name: Option<(NameId, Pos)>) -> (NameId, Pos)
    ensures { result ≡ declared.name_of name }
{
    match name {
        None => (
            NameId { at: 0 },
            Pos {
                file: 0,
                line: 0,
                col: 0,
            },
        ),
        Some(name) => name,
    }
}

// A block without names.
fn empty_block<T: Drop>(alloc: Global) -> Result<Block<T>, OutOfMemory>
    ensures { IfOk result (λ block. block ≡ []) }
{
    let mut scopes = Scopes::new(alloc);
    scopes.open()?;
    scopes.close()
}

fn no_own(alloc: Global) -> Result<Own, OutOfMemory>
    ensures { IfOk result (λ own. own ≡ spec.no_own) }
{
    let names = empty_block(alloc)?;
    let tags = empty_block(alloc)?;
    Ok(Own {
        params: List::new(alloc),
        scope: Scope { names, tags },
        variadic: false,
        brackets: true,
    })
}

/// The parameters of a function, which stand directly round its name.
pub fn own_or(alloc: Global, own: Option<Own>) -> Result<Own, OutOfMemory>
    ensures { IfOk result (λ x. x ≡ spec.own_or own) }
{
    match own {
        None => no_own(alloc),
        Some(own) => Ok(own),
    }
}

// The result of a function type; `None` of any other type.
fn result_of(alloc: Global, t: &CType) -> Result<Option<CType>, OutOfMemory>
    ensures { IfOk result (λ x. x ≡ spec.result_type (Some t.now)) }
{
    match signature_of(t) {
        None => Ok(None),
        Some(s) => Ok(Some(copy_type(alloc, &s.result)?)),
    }
}

/// The result of a function type that may not be known.
pub fn result_type(alloc: Global, t: Option<&CType>) -> Result<Option<CType>, OutOfMemory>
    ensures { IfOk result (λ x. x ≡ spec.result_type (option_copied t.entry)) }
{
    match t {
        None => Ok(None),
        Some(t) => result_of(alloc, t),
    }
}

// The tree of a body, whose outermost block has the scope of the parameters (C11 6.2.1, 4).
fn tree_in(
    alloc: Global,
    walk: &mut Walk,
    numbers: &mut GlobalNumbers,
    here: &Tables,
    t: Option<&CType>,
    s: &Stmt,
) -> Result<Option<Boxed<TStmt>>, OutOfMemory>
    requires { numbers.old ≡ keys_of walk.old.globals }
    ensures typed { Gives (parts.tree_in (tables.here_of here.now) (option_copied t.entry) s.now walk.old)
        result walk.new }
    ensures tied { OnOk result (numbers.new ≡ keys_of walk.new.globals) }
{
    let around = Around::function(t);
    let x = bare_statement(alloc, walk, numbers, here, &around, s)?;
    judge_jumps(alloc, walk, s)?;
    Ok(x)
}

/// The body of a function with that result, whose name stands at that place.
pub fn body_in(
    alloc: Global,
    walk: &mut Walk,
    numbers: &mut GlobalNumbers,
    here: &Tables,
    t: Option<&CType>,
    at: Pos,
    b: &Body,
) -> Result<Option<Boxed<TStmt>>, OutOfMemory>
    requires { numbers.old ≡ keys_of walk.old.globals }
    ensures typed { Gives (spec.body_in (tables.here_of here.now) (option_copied t.entry) at b.now walk.old)
        result walk.new }
    ensures tied { OnOk result (numbers.new ≡ keys_of walk.new.globals) }
{
    match b {
        Body::Skipped(skip) => Ok(skip_body(walk, at, *skip)),
        Body::Tree(s) => tree_in(alloc, walk, numbers, here, t, s.get()),
    }
}

// The same in the scope of the parameters.
fn body_scoped(
    alloc: Global,
    walk: &mut Walk,
    numbers: &mut GlobalNumbers,
    here: &Tables,
    scope: Scope,
    t: Option<&CType>,
    at: Pos,
    b: &Body,
) -> Result<Option<Boxed<TStmt>>, OutOfMemory>
    requires { numbers.old ≡ keys_of walk.old.globals }
    ensures typed { Gives (spec.body_scoped (tables.here_of here.now) scope (option_copied t.entry) at b.now walk.old)
        result walk.new }
    ensures tied { OnOk result (numbers.new ≡ keys_of walk.new.globals) }
{
    open_params(walk, scope)?;
    let s = body_in(alloc, walk, numbers, here, t, at, b)?;
    close_params(walk)?;
    Ok(s)
}

// A function of that name and type, with its parameters.
fn function_shaped(
    alloc: Global,
    walk: &mut Walk,
    numbers: &mut GlobalNumbers,
    here: &Tables,
    name: NameId,
    at: Pos,
    is_local: bool,
    t: Option<&CType>,
    own: Own,
    b: &Body,
) -> Result<Function, OutOfMemory>
    requires { numbers.old ≡ keys_of walk.old.globals }
    ensures typed { Gives (spec.function_shaped (tables.here_of here.now) name at is_local (option_copied t.entry)
        own b.now walk.old) result walk.new }
    ensures tied { OnOk result (numbers.new ≡ keys_of walk.new.globals) }
{
    judge_head(alloc, walk, here, name, at, is_local, t, &own)?;
    let Own { params, scope, .. } = own;
    let result = result_type(alloc, t)?;
    let s = body_scoped(alloc, walk, numbers, here, scope, result.as_ref(), at, b)?;
    finish(alloc, walk, name, at, params, result, s)
}

/// The name that the head of a function declares, with its place.
pub fn head_name(here: &Tables, h: &Head) -> (NameId, Pos)
    ensures { result ≡ declared.name_of (heading (tables.here_of here.now) h.now).name }
{
    name_or(here.declared_name(&h.declarator))
}

/// Whether the words of a head make its function local to the file.
pub fn head_is_local(h: &Head) -> bool
    ensures { result ≡ has_local (out-Specs (out-Head h.now).specs).storage }
{
    has_local(h.specs.storage.as_slice())
}

// A function of that name, with its head and its body.
fn function_named(
    alloc: Global,
    walk: &mut Walk,
    numbers: &mut GlobalNumbers,
    here: &Tables,
    h: &Head,
    is_local: bool,
    b: &Body,
    name: NameId,
    at: Pos,
) -> Result<Function, OutOfMemory>
    requires { numbers.old ≡ keys_of walk.old.globals }
    ensures typed { Gives (spec.function_named (tables.here_of here.now) (heading (tables.here_of here.now) h.now) is_local b.now
        (name, at) walk.old)
        result walk.new }
    ensures tied { OnOk result (numbers.new ≡ keys_of walk.new.globals) }
{
    let Shape { ctype, own } = shape_of(alloc, walk, here, h, at)?;
    let own = own_or(alloc, own)?;
    function_shaped(
        alloc,
        walk,
        numbers,
        here,
        name,
        at,
        is_local,
        ctype.as_ref(),
        own,
        b,
    )
}

/// Types a function: its tree, or the first fault in it. Its name stays declared, and what its head declares.
///
/// `numbers` has the numbers of the globals of `walk`, before and after. Where memory is refused neither is of
/// further use.
pub fn function(
    alloc: Global,
    walk: &mut Walk,
    numbers: &mut GlobalNumbers,
    here: &Tables,
    h: &Head,
    b: &Body,
) -> Result<Function, OutOfMemory>
    requires { numbers.old ≡ keys_of walk.old.globals }
    ensures typed { Gives (spec.function (tables.here_of here.now) h.now b.now walk.old) result walk.new }
    ensures tied { OnOk result (numbers.new ≡ keys_of walk.new.globals) }
{
    let (name, at) = head_name(here, h);
    let is_local = head_is_local(h);
    function_named(alloc, walk, numbers, here, h, is_local, b, name, at)
}
