// Variables of a body without linkage, with their initialisers (C11 6.7, 6.7.9).
//
// An initialiser that a failing step leaves is dropped by a call of `drop`: a drop that is not written out costs the
// check of its function ten seconds, and several of them more than their sum.

ghost use Rattle.std.specs.Prelude.{◌≡◌};
ghost use Rattle.std.specs.Option.{option_copied};
ghost use Rattle.sc_rules.specs.Gives.{Gives};
ghost use Rattle.sc_declare.specs.Locals.{lengthen};
ghost use Rattle.sc_fill.specs.Initialisers.{elements_set};
ghost use Rattle.sc_typing.specs.Tables as tables;
ghost use Rattle.sc_declarations.specs.Declarations as spec;

use crate::initialisers::initialiser;
use sc_base::{Boxed, NameId, OutOfMemory, Pos, Unsupported};
use sc_declare::{declare_local, has_static, lengthen};
use sc_fill::elements_set;
use sc_names::{note_unless, size_now};
use sc_rules::{Walk, unsupported_at};
use sc_tree::ctype::CType;
use sc_tree::decl::Init;
use sc_tree::expr::Storage;
use sc_typed::{Declared, TDeclarator, TInit};
use sc_typing::Tables;
use std::alloc::Global;

// A type that has a size.
fn sized(t: &CType, size: Option<u64>) -> Option<&CType>
    ensures { option_copied result ≡ spec.sized t.now size }
{
    match size {
        None => None,
        Some(_) => Some(t),
    }
}

// The length that an initialiser gives the array that is the local with that number.
fn lengthened(
    alloc: Global,
    walk: &mut Walk,
    here: &Tables,
    number: u32,
    name: NameId,
    at: Pos,
    t: &CType,
    made: &Option<TInit>,
) -> Result<(), OutOfMemory>
    ensures { Gives (lengthen (tables.here_of here.now).widths number name at (elements_set made.now) t.now walk.old)
        result walk.new }
{
    let length = elements_set(made)?;
    lengthen(alloc, walk, here.widths(), number, name, at, length, t)?;
    Ok(())
}

// The initialiser of the local with that number, which may give its array a length.
fn written_initialiser(
    alloc: Global,
    walk: &mut Walk,
    here: &Tables,
    number: u32,
    name: NameId,
    at: Pos,
    t: &CType,
    init: &Init,
) -> Result<Option<TInit>, OutOfMemory>
    ensures { Gives (spec.written_initialiser (tables.here_of here.now) number name at t.now init.now walk.old)
        result walk.new }
{
    let size = size_now(walk, here.widths(), t);
    let made = initialiser(alloc, walk, here, at, sized(t, size), init)?;
    match lengthened(alloc, walk, here, number, name, at, t, &made) {
        Err(refused) => {
            drop(made);
            Err(refused)
        }
        Ok(()) => Ok(made),
    }
}

fn local_initialiser(
    alloc: Global,
    walk: &mut Walk,
    here: &Tables,
    number: u32,
    name: NameId,
    at: Pos,
    t: &CType,
    init: &Option<Boxed<Init>>,
) -> Result<Option<TInit>, OutOfMemory>
    ensures { Gives (spec.local_initialiser (tables.here_of here.now) number name at t.now init.now walk.old)
        result walk.new }
{
    match init {
        None => Ok(None),
        Some(init) => written_initialiser(alloc, walk, here, number, name, at, t, init.get()),
    }
}

// The initialiser of a local whose type has a fault.
fn faulty_initialiser(
    alloc: Global,
    walk: &mut Walk,
    here: &Tables,
    at: Pos,
    init: &Option<Boxed<Init>>,
) -> Result<Option<TInit>, OutOfMemory>
    ensures { Gives (spec.faulty_initialiser (tables.here_of here.now) at init.now walk.old) result walk.new }
{
    match init {
        None => Ok(None),
        Some(init) => initialiser(alloc, walk, here, at, None, init.get()),
    }
}

// A local whose type is known.
fn typed_local(
    alloc: Global,
    walk: &mut Walk,
    here: &Tables,
    name: NameId,
    at: Pos,
    init: &Option<Boxed<Init>>,
    t: &CType,
) -> Result<TDeclarator, OutOfMemory>
    ensures { Gives (spec.typed_local (tables.here_of here.now) name at init.now t.now walk.old) result walk.new }
{
    let number = declare_local(alloc, walk, here.widths(), name, at, t)?;
    let init = local_initialiser(alloc, walk, here, number, name, at, t, init)?;
    Ok(TDeclarator {
        name,
        pos: at,
        declared: Declared::Local(number),
        init,
    })
}

// A local whose type has a fault.
fn untyped_local(
    alloc: Global,
    walk: &mut Walk,
    here: &Tables,
    name: NameId,
    at: Pos,
    init: &Option<Boxed<Init>>,
) -> Result<TDeclarator, OutOfMemory>
    ensures { Gives (spec.untyped_local (tables.here_of here.now) name at init.now walk.old) result walk.new }
{
    let init = faulty_initialiser(alloc, walk, here, at, init)?;
    Ok(TDeclarator {
        name,
        pos: at,
        declared: Declared::Local(0),
        init,
    })
}

fn local_if(
    alloc: Global,
    walk: &mut Walk,
    here: &Tables,
    name: NameId,
    at: Pos,
    init: &Option<Boxed<Init>>,
    t: Option<CType>,
) -> Result<TDeclarator, OutOfMemory>
    ensures { Gives (spec.local_if (tables.here_of here.now) name at init.now t walk.old) result walk.new }
{
    match t {
        None => untyped_local(alloc, walk, here, name, at, init),
        Some(t) => typed_local(alloc, walk, here, name, at, init, &t),
    }
}

/// A declarator that declares a variable of a body without linkage, with its initialiser; the type is `None` where it
/// has a fault. `static` is not taken.
pub fn local_declared(
    alloc: Global,
    walk: &mut Walk,
    here: &Tables,
    words: &[Storage],
    name: NameId,
    at: Pos,
    init: &Option<Boxed<Init>>,
    t: Option<CType>,
) -> Result<TDeclarator, OutOfMemory>
    ensures { Gives (spec.local_declared (tables.here_of here.now) words.now name at init.now t walk.old)
        result walk.new }
{
    note_unless(
        walk,
        !has_static(words),
        unsupported_at(Unsupported::Static, at),
    );
    local_if(alloc, walk, here, name, at, init, t)
}
