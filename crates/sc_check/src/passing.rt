// One file in the first walk (C11 6.9). Only what is left of the walk counts there, so a body that leaves nothing behind
// is not typed, and what another one becomes is dropped at once.

ghost use Rattle.std.specs.Prelude.{◌≡◌, true, [], OnOk};
ghost use Rattle.std.specs.Option.{option_copied};
ghost use Rattle.sc_rules.specs.Gives.{Gives};
ghost use Rattle.sc_declare.specs.Numbers.{keys_of};
ghost use Rattle.sc_typing.specs.Tables as tables;
ghost use Rattle.sc_typing.specs.Typing.{heading};
ghost use Rattle.plain_bodies.specs.Leaves.{outside, is_open};
ghost use Rattle.sc_check.specs.Files as files;
ghost use Rattle.sc_check.specs.Left as spec;

use crate::files::{begin, file_declaration};
use crate::functions::{body_in, head_is_local, head_name, own_or, result_type};
use crate::heads::{close_params, finish, judge_head, open_params, shape_of};
use plain_bodies::{is_plain, jumps_leave_faults, plain_bodies_leave_nothing};
use sc_base::{List, NameId, OutOfMemory, Pos};
use sc_declare::{GlobalNumbers, Parameter};
use sc_names::Scope;
use sc_rules::{Tag, Walk};
use sc_tree::ctype::CType;
use sc_tree::decl::Decl;
use sc_tree::expr::Head;
use sc_tree::unit::{Body, FileDecl, Segment};
use sc_typing::{Own, Shape, Tables};
use scopes::Scopes;
use std::alloc::Global;

// Whether a body leaves nothing behind, where these are the tags.
fn is_plain_body(tags: &Scopes<Tag>, b: &Body) -> bool
    ensures { result ≡ spec.plain_body tags.now b.now }
{
    match b {
        Body::Skipped(_) => true,
        Body::Tree(s) => is_plain(tags, s.get()),
    }
}

// What is outside of a body that leaves nothing behind stays as it is.
fn outside_stays(walk: &Walk, here: &Tables, t: Option<&CType>, at: Pos, b: &Body)
    requires plain { spec.plain_body walk.now.tags b.now ≡ true }
    requires block { is_open walk.now.names.blocks ≡ true }
    ensures { outside walk.now ≡ outside (files.body_in (tables.here_of here.now) (option_copied t.entry) at b.now walk.now).1 }
{
    plain_bodies_leave_nothing();
    jumps_leave_faults();
}

// A body that is typed, and dropped.
#[tactic(auto, using(crate::proofs::Left::step_left))]
fn typed_body(
    alloc: Global,
    walk: &mut Walk,
    numbers: &mut GlobalNumbers,
    here: &Tables,
    t: Option<&CType>,
    at: Pos,
    b: &Body,
) -> Result<(), OutOfMemory>
    requires { numbers.old ≡ keys_of walk.old.globals }
    ensures left { OnOk result (walk.new
        ≡ (files.body_in (tables.here_of here.now) (option_copied t.entry) at b.now walk.old).1) }
    ensures tied { OnOk result (numbers.new ≡ keys_of walk.new.globals) }
{
    drop(body_in(alloc, walk, numbers, here, t, at, b)?);
    Ok(())
}

// A body in a block: one that leaves nothing behind is not typed.
fn pass_body(
    alloc: Global,
    walk: &mut Walk,
    numbers: &mut GlobalNumbers,
    here: &Tables,
    t: Option<&CType>,
    at: Pos,
    b: &Body,
) -> Result<(), OutOfMemory>
    requires numbers { numbers.old ≡ keys_of walk.old.globals }
    requires block { is_open walk.old.names.blocks ≡ true }
    ensures left { OnOk result (outside walk.new
        ≡ outside (files.body_in (tables.here_of here.now) (option_copied t.entry) at b.now walk.old).1) }
    ensures tied { OnOk result (numbers.new ≡ keys_of walk.new.globals) }
{
    if is_plain_body(&walk.tags, b) {
        outside_stays(walk, here, t, at, b);
        return Ok(());
    }
    typed_body(alloc, walk, numbers, here, t, at, b)?;
    Ok(())
}

// A body in the scope of the parameters.
#[tactic(auto, using(crate::proofs::Bare::scope_gives, crate::proofs::Bare::is_opened))]
fn pass_scoped(
    alloc: Global,
    walk: &mut Walk,
    numbers: &mut GlobalNumbers,
    here: &Tables,
    scope: Scope,
    t: Option<&CType>,
    at: Pos,
    b: &Body,
) -> Result<(), OutOfMemory>
    requires { numbers.old ≡ keys_of walk.old.globals }
    ensures left { OnOk result (spec.unlocal walk.new
        ≡ spec.unlocal (files.body_scoped (tables.here_of here.now) scope (option_copied t.entry) at b.now walk.old).1) }
    ensures tied { OnOk result (numbers.new ≡ keys_of walk.new.globals) }
{
    open_params(walk, scope)?;
    pass_body(alloc, walk, numbers, here, t, at, b)?;
    close_params(walk)?;
    Ok(())
}

// Ends a function whose body is dropped.
fn end_function(
    alloc: Global,
    walk: &mut Walk,
    name: NameId,
    at: Pos,
    params: List<Parameter>,
) -> Result<(), OutOfMemory>
    ensures ended { Gives (spec.end_left name at params walk.old) result walk.new }
    ensures kept { OnOk result (walk.new.globals ≡ walk.old.globals) }
{
    drop(finish(alloc, walk, name, at, params, None, None)?);
    Ok(())
}

// A function of that name and type, with its parameters.
#[tactic(auto, using(crate::proofs::Bare::shaped_left))]
fn pass_shaped(
    alloc: Global,
    walk: &mut Walk,
    numbers: &mut GlobalNumbers,
    here: &Tables,
    name: NameId,
    at: Pos,
    is_local: bool,
    t: Option<&CType>,
    own: Own,
    b: &Body,
) -> Result<(), OutOfMemory>
    requires { numbers.old ≡ keys_of walk.old.globals }
    ensures left { OnOk result (walk.new ≡ (files.function_shaped (tables.here_of here.now) name at is_local
        (option_copied t.entry) own b.now walk.old).1) }
    ensures tied { OnOk result (numbers.new ≡ keys_of walk.new.globals) }
{
    judge_head(alloc, walk, here, name, at, is_local, t, &own)?;
    let Own { params, scope, .. } = own;
    let result = result_type(alloc, t)?;
    pass_scoped(alloc, walk, numbers, here, scope, result.as_ref(), at, b)?;
    end_function(alloc, walk, name, at, params)
}

// A function of that name, with its head and its body.
#[tactic(auto, using(crate::proofs::Bare::named_left))]
fn pass_named(
    alloc: Global,
    walk: &mut Walk,
    numbers: &mut GlobalNumbers,
    here: &Tables,
    h: &Head,
    is_local: bool,
    b: &Body,
    name: NameId,
    at: Pos,
) -> Result<(), OutOfMemory>
    requires { numbers.old ≡ keys_of walk.old.globals }
    ensures left { OnOk result (walk.new ≡ (files.function_named (tables.here_of here.now)
        (heading (tables.here_of here.now) h.now) is_local b.now (name, at) walk.old).1) }
    ensures tied { OnOk result (numbers.new ≡ keys_of walk.new.globals) }
{
    let Shape { ctype, own } = shape_of(alloc, walk, here, h, at)?;
    let own = own_or(alloc, own)?;
    pass_shaped(
        alloc,
        walk,
        numbers,
        here,
        name,
        at,
        is_local,
        ctype.as_ref(),
        own,
        b,
    )
}

// A function.
fn pass_function(
    alloc: Global,
    walk: &mut Walk,
    numbers: &mut GlobalNumbers,
    here: &Tables,
    h: &Head,
    b: &Body,
) -> Result<(), OutOfMemory>
    requires { numbers.old ≡ keys_of walk.old.globals }
    ensures left { OnOk result (walk.new ≡ (files.function (tables.here_of here.now) h.now b.now walk.old).1) }
    ensures tied { OnOk result (numbers.new ≡ keys_of walk.new.globals) }
{
    let (name, at) = head_name(here, h);
    let is_local = head_is_local(h);
    pass_named(alloc, walk, numbers, here, h, is_local, b, name, at)
}

// A declaration, whose note is dropped.
fn pass_declaration(
    alloc: Global,
    walk: &mut Walk,
    numbers: &mut GlobalNumbers,
    here: &Tables,
    d: &Decl,
) -> Result<(), OutOfMemory>
    requires { numbers.old ≡ keys_of walk.old.globals }
    ensures left { OnOk result (walk.new
        ≡ (files.file_declaration (tables.here_of here.now) d.now [] walk.old).1) }
    ensures tied { OnOk result (numbers.new ≡ keys_of walk.new.globals) }
{
    let mut notes = List::new(alloc);
    file_declaration(alloc, walk, numbers, here, d, &mut notes)
}

// A segment of a file.
fn pass_segment(
    alloc: Global,
    walk: &mut Walk,
    numbers: &mut GlobalNumbers,
    here: &Tables,
    s: &Segment,
) -> Result<(), OutOfMemory>
    requires { numbers.old ≡ keys_of walk.old.globals }
    ensures left { OnOk result (walk.new ≡ spec.segment_left (tables.here_of here.now) s.now walk.old) }
    ensures tied { OnOk result (numbers.new ≡ keys_of walk.new.globals) }
{
    match s {
        Segment::Skipped(_) => Ok(()),
        Segment::Function(h, b) => pass_function(alloc, walk, numbers, here, h.get(), b.get()),
        Segment::Decl(d) => match d {
            FileDecl::Empty(_) => Ok(()),
            FileDecl::Full(d) => pass_declaration(alloc, walk, numbers, here, d.get()),
        },
    }
}

// The segments of a file, in their order.
#[tactic(auto, using(crate::proofs::Left::next_segment))]
fn pass_segments(
    alloc: Global,
    walk: &mut Walk,
    numbers: &mut GlobalNumbers,
    here: &Tables,
    ss: &[Segment],
) -> Result<(), OutOfMemory>
    requires { numbers.old ≡ keys_of walk.old.globals }
    ensures left { OnOk result (walk.new ≡ spec.segments_left (tables.here_of here.now) ss.now walk.old) }
    ensures tied { OnOk result (numbers.new ≡ keys_of walk.new.globals) }
{
    for s in ss {
        pass_segment(alloc, walk, numbers, here, s)?;
    }
    Ok(())
}

/// Walks over a file for what it leaves of the walk.
///
/// `numbers` has the numbers of the globals of `walk`, before and after. Where memory is refused neither is of
/// further use.
pub fn pass_file(
    alloc: Global,
    walk: &mut Walk,
    numbers: &mut GlobalNumbers,
    here: &Tables,
    ss: &[Segment],
) -> Result<(), OutOfMemory>
    requires { numbers.old ≡ keys_of walk.old.globals }
    ensures left { OnOk result (walk.new ≡ spec.file_left (tables.here_of here.now) ss.now walk.old) }
    ensures tied { OnOk result (numbers.new ≡ keys_of walk.new.globals) }
{
    begin(walk);
    pass_segments(alloc, walk, numbers, here, ss)
}
