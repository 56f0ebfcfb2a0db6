// What a declarator declares, where it has no initialiser (C11 6.7): a function, a typedef name, a variable in a
// body with `extern`.

ghost use Rattle.std.specs.Prelude.{◌≡◌, OnOk};
ghost use Rattle.std.specs.Option.{option_copied};
ghost use Rattle.sc_rules.specs.Gives.{Gives};
ghost use Rattle.sc_declare.specs.Numbers.{keys_of};
ghost use Rattle.sc_declare.specs.Declarators as spec;

use crate::functions::{Parameter, declare_function_if, local_function, signature_at};
use crate::linkage::{Linked, declare_global};
use crate::numbers::GlobalNumbers;
use sc_base::{List, NameId, OutOfMemory, Pos, Unsupported};
use sc_names::{declare_if, new_here, note_unless};
use sc_rules::{Entity, Walk, unsupported_at};
use sc_tree::ctype::CType;
use sc_typed::{Declared, TDeclarator};
use std::alloc::Global;

fn without_init(name: NameId, pos: Pos, declared: Declared) -> TDeclarator
    ensures { result ≡ spec.without_init name pos declared }
{
    TDeclarator {
        name,
        pos,
        declared,
        init: None,
    }
}

/// A declarator that declares a function without a body; with the flag it is local to that file. The parameters
/// are those that the declarator wrote, `None` where a typedef wrote them.
pub fn function_declared(
    alloc: Global,
    walk: &mut Walk,
    file: u32,
    is_local: bool,
    name: NameId,
    at: Pos,
    t: Option<&CType>,
    params: Option<&List<Parameter>>,
) -> Result<TDeclarator, OutOfMemory>
    ensures { Gives (spec.function_declared file is_local name at (option_copied t.entry) (option_copied params.entry) walk.old) result walk.new }
{
    signature_at(walk, at, t, params);
    declare_function_if(alloc, walk, name, at, t, false)?;
    local_function(walk, file, name, is_local)?;
    Ok(without_init(name, at, Declared::Function))
}

// Declares a typedef name whose type is known.
fn declare_typedef(
    walk: &mut Walk,
    name: NameId,
    at: Pos,
    t: Option<CType>,
) -> Result<(), OutOfMemory>
    ensures { Gives (spec.declare_typedef name at t walk.old) result walk.new }
{
    match t {
        None => Ok(()),
        Some(t) => {
            let new = new_here(walk, name, at);
            declare_if(walk, new, name, Entity::Typedef(t))
        }
    }
}

/// A declarator that declares a typedef name (C11 6.7.8). A name that its scope has already is a fault at that
/// place.
pub fn typedef_declared(
    walk: &mut Walk,
    name: NameId,
    at: Pos,
    t: Option<CType>,
) -> Result<TDeclarator, OutOfMemory>
    ensures { Gives (spec.typedef_declared name at t walk.old) result walk.new }
{
    declare_typedef(walk, name, at, t)?;
    Ok(without_init(name, at, Declared::Function))
}

// The number of the global that is declared; 0 where it has no type.
fn declare_global_if(
    alloc: Global,
    walk: &mut Walk,
    numbers: &mut GlobalNumbers,
    d: Option<&Linked>,
) -> Result<u32, OutOfMemory>
    requires { numbers.old ≡ keys_of walk.old.globals }
    ensures declared { Gives (spec.declare_global_if (option_copied d.entry) walk.old) result walk.new }
    ensures tied { OnOk result (numbers.new ≡ keys_of walk.new.globals) }
{
    match d {
        None => Ok(0),
        Some(d) => declare_global(alloc, walk, numbers, d),
    }
}

/// A declarator that declares a variable in a body with `extern` (C11 6.7.1, 7); `None` where its type has a
/// fault. `static` beside it is not taken.
///
/// `numbers` has the numbers of the globals of `walk`, before and after. Where memory is refused neither is of
/// further use.
pub fn extern_declared(
    alloc: Global,
    walk: &mut Walk,
    numbers: &mut GlobalNumbers,
    name: NameId,
    at: Pos,
    has_static: bool,
    d: Option<&Linked>,
) -> Result<TDeclarator, OutOfMemory>
    requires { numbers.old ≡ keys_of walk.old.globals }
    ensures declared { Gives (spec.extern_declared name at has_static (option_copied d.entry) walk.old) result walk.new }
    ensures tied { OnOk result (numbers.new ≡ keys_of walk.new.globals) }
{
    note_unless(walk, !has_static, unsupported_at(Unsupported::Static, at));
    let number = declare_global_if(alloc, walk, numbers, d)?;
    Ok(without_init(name, at, Declared::Global(number)))
}
