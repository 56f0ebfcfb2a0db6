// The steps of a function's head (C11 6.9.1). None of them declares a variable with linkage, so each leaves the
// globals of the walk.

ghost use Rattle.std.specs.Prelude.{◌≡◌, not, Some, IfOk, OnOk};
ghost use Rattle.std.specs.Option.{option_copied};
ghost use Rattle.sc_base.specs.declared.skip.Unsupported.TheVariants as u;
ghost use Rattle.sc_rules.specs.Faults.{unsupported_at as fault_at};
ghost use Rattle.sc_rules.specs.Gives.{Gives};
ghost use Rattle.sc_rules.specs.Walks as walks;
ghost use Rattle.sc_declare.specs.Functions as declared;
ghost use Rattle.sc_files.specs.Functions as finished;
ghost use Rattle.sc_jumps.specs.Jumps as jumping;
ghost use Rattle.sc_typing.specs.Tables as tables;
ghost use Rattle.sc_typing.specs.Typing as typing;
ghost use Rattle.sc_check.specs.Files as spec;

use sc_base::{Boxed, List, NameId, OutOfMemory, Pos, Skip, Unsupported};
use sc_declare::{Parameter, declare_function_if, local_function, signature_at};
use sc_files::{few_params, finish_function, skip_pos};
use sc_jumps::{Jumps, check_jumps, jumps_of_body};
use sc_names::{Scope, close_scope, open_again};
use sc_rules::{Fault, Walk, fault, holds_or, unsupported_at};
use sc_tree::ctype::CType;
use sc_tree::expr::Head;
use sc_tree::stmt::Stmt;
use sc_typed::{Function, TStmt};
use sc_typing::{Own, Shape, Tables, head};
use std::alloc::Global;
use typing_laws::heads_keep_globals;

/// What a head makes; faults of its declarator stand at that place.
pub fn shape_of(
    alloc: Global,
    walk: &mut Walk,
    here: &Tables,
    h: &Head,
    at: Pos,
) -> Result<Shape, OutOfMemory>
    ensures typed { Gives ((typing.heading (tables.here_of here.now) h.now).run at walk.old) result walk.new }
    ensures kept { OnOk result (walk.new.globals ≡ walk.old.globals) }
{
    heads_keep_globals();
    head(alloc, walk, here, h, at)
}

// Notes the faults of the result and the parameters, which the declarator wrote.
fn judge_signature(walk: &mut Walk, at: Pos, t: Option<&CType>, params: &List<Parameter>)
    ensures judged { declared.signature_at at (option_copied t.entry) (Some params.now) walk.old ≡ (tt, walk.new) }
    ensures kept { walk.new.globals ≡ walk.old.globals }
{
    signature_at(walk, at, t, Some(params));
}

// Declares the function, if its type is known.
fn declare(
    alloc: Global,
    walk: &mut Walk,
    name: NameId,
    at: Pos,
    t: Option<&CType>,
    brackets: bool,
) -> Result<(), OutOfMemory>
    ensures declared { Gives (declared.declare_function_if name at (option_copied t.entry) brackets walk.old)
        result walk.new }
    ensures kept { OnOk result (walk.new.globals ≡ walk.old.globals) }
{
    declare_function_if(alloc, walk, name, at, t, brackets)
}

// Notes that the function is local to the file, where its head makes it so.
fn note_local(walk: &mut Walk, file: u32, name: NameId, is_local: bool) -> Result<(), OutOfMemory>
    ensures noted { Gives (declared.local_function file name is_local walk.old) result walk.new }
    ensures kept { OnOk result (walk.new.globals ≡ walk.old.globals) }
{
    local_function(walk, file, name, is_local)
}

// Notes a fault where the number of arguments is open.
fn judge_variadic(walk: &mut Walk, at: Pos, variadic: bool) -> bool
    ensures judged { walks.holds_or (not variadic) (fault_at u.Variadic at) walk.old ≡ (result, walk.new) }
    ensures kept { walk.new.globals ≡ walk.old.globals }
{
    holds_or(walk, !variadic, unsupported_at(Unsupported::Variadic, at))
}

// Notes a fault where there are too many parameters.
fn judge_count(walk: &mut Walk, at: Pos, count: usize) -> bool
    ensures judged { finished.few_params at count walk.old ≡ (result, walk.new) }
    ensures kept { walk.new.globals ≡ walk.old.globals }
{
    few_params(walk, at, count)
}

/// Judges the head of a function that has this type and these parameters, and declares its name.
pub fn judge_head(
    alloc: Global,
    walk: &mut Walk,
    here: &Tables,
    name: NameId,
    at: Pos,
    is_local: bool,
    t: Option<&CType>,
    own: &Own,
) -> Result<bool, OutOfMemory>
    ensures judged { Gives (spec.head_judged (tables.here_of here.now) name at is_local (option_copied t.entry)
        own.now walk.old) result walk.new }
    ensures kept { OnOk result (walk.new.globals ≡ walk.old.globals) }
{
    judge_signature(walk, at, t, &own.params);
    declare(alloc, walk, name, at, t, own.brackets)?;
    note_local(walk, here.file(), name, is_local)?;
    judge_variadic(walk, at, own.variadic);
    Ok(judge_count(walk, at, own.params.len()))
}

/// Notes why a body is skipped.
pub fn skip_body(walk: &mut Walk, at: Pos, skip: Skip) -> Option<Boxed<TStmt>>
    ensures skipped { walks.fault (record { pos = finished.skip_pos at skip; skip = skip }) walk.old
        ≡ (result, walk.new) }
    ensures kept { walk.new.globals ≡ walk.old.globals }
{
    let pos = skip_pos(at, skip);
    fault(walk, Fault { pos, skip })
}

/// Opens the scope of the parameters again.
pub fn open_params(walk: &mut Walk, scope: Scope) -> Result<(), OutOfMemory>
    ensures opened { Gives (walks.open_scope (record { names = scope.names; tags = scope.tags }) walk.old)
        result walk.new }
    ensures kept { OnOk result (walk.new.globals ≡ walk.old.globals) }
{
    open_again(walk, scope)
}

/// Closes the scope of the parameters, and gives what it had.
pub fn close_params(walk: &mut Walk) -> Result<Scope, OutOfMemory>
    ensures closed { IfOk result (λ scope. walks.close_scope walk.old
        ≡ (record { names = scope.names; tags = scope.tags }, walk.new)) }
    ensures kept { OnOk result (walk.new.globals ≡ walk.old.globals) }
{
    close_scope(walk)
}

// Notes the faults of these labels and jumps.
fn judge_found(walk: &mut Walk, found: &Jumps)
    ensures judged { jumping.jumps_of found.now walk.old ≡ (tt, walk.new) }
    ensures kept { walk.new.globals ≡ walk.old.globals }
{
    check_jumps(walk, found);
}

/// Notes the faults of the labels and jumps of a body.
pub fn judge_jumps(alloc: Global, walk: &mut Walk, body: &Stmt) -> Result<(), OutOfMemory>
    ensures judged { Gives (jumping.jumps_of (jumping.jumps body.now) walk.old) result walk.new }
    ensures kept { OnOk result (walk.new.globals ≡ walk.old.globals) }
{
    let found = jumps_of_body(alloc, body)?;
    judge_found(walk, &found);
    Ok(())
}

/// Ends the function.
pub fn finish(
    alloc: Global,
    walk: &mut Walk,
    name: NameId,
    at: Pos,
    params: List<Parameter>,
    t: Option<CType>,
    s: Option<Boxed<TStmt>>,
) -> Result<Function, OutOfMemory>
    ensures finished { Gives (finished.finish_function name at params t s walk.old) result walk.new }
    ensures kept { OnOk result (walk.new.globals ≡ walk.old.globals) }
{
    finish_function(alloc, walk, name, at, params, t, s)
}
