// Variables with linkage (C11 6.2.2): one global for all declarations of a name, or of a name in a file where it
// is local to it.

ghost use Rattle.std.specs.Prelude.{◌≡◌, IfOk, OnOk};
ghost use Rattle.std.specs.Option.{option_copied};
ghost use Rattle.sc_rules.specs.Gives.{Gives};
ghost use Rattle.sc_declare.specs.Numbers.{keys_of};
ghost use Rattle.sc_declare.specs.Linkage as spec;

use crate::numbers::GlobalNumbers;
use sc_base::{List, OutOfMemory, Pos};
use sc_names::{declare_or, name_here};
use sc_rules::{Entity, GlobalKey, Record, Walk};
use sc_tree::ctype::CType;
use sc_typed::Global as Variable;
use sc_types::{compatible, composite, copy_type};
use std::alloc::Global;

/// A declaration of a variable with linkage.
#[derive(Drop)]
pub struct Linked {
    /// The file in which it stands.
    pub file: u32,
    /// The name, and the file where it is local to one.
    pub key: GlobalKey,
    /// The place of the name.
    pub pos: Pos,
    pub ctype: CType,
    /// The type that all files give the variable, once it is known.
    pub over_all: Option<CType>,
    /// It stands at file scope with `static`.
    pub is_static: bool,
}

// The type that all files give a variable, where it is known; else that of the declaration.
fn copy_of_type(alloc: Global, d: &Linked) -> Result<CType, OutOfMemory>
    ensures { IfOk result (λ t. t ≡ spec.type_or d.now.ctype d.now.over_all) }
{
    match &d.over_all {
        None => copy_type(alloc, &d.ctype),
        Some(over_all) => copy_type(alloc, over_all),
    }
}

// Puts one more behind the globals where none has that key.
fn with_global(
    globals: &mut List<Variable>,
    numbers: &mut GlobalNumbers,
    key: GlobalKey,
    ctype: CType,
) -> Result<(), OutOfMemory>
    requires { numbers.old ≡ keys_of globals.old }
    ensures added { OnOk result (globals.new ≡ spec.with_global globals.old key ctype) }
    ensures tied { OnOk result (numbers.new ≡ keys_of globals.new) }
{
    if numbers.contains(key) {
        return Ok(());
    }
    numbers.add(key)?;
    globals.push(Variable {
        name: key.name,
        ctype,
        file: key.file,
    })
}

// Puts a declaration on record; its global is there.
fn add_global(
    alloc: Global,
    walk: &mut Walk,
    numbers: &mut GlobalNumbers,
    d: &Linked,
) -> Result<(), OutOfMemory>
    requires { numbers.old ≡ keys_of walk.old.globals }
    ensures added { Gives (spec.add_global d.now walk.old) result walk.new }
    ensures tied { OnOk result (numbers.new ≡ keys_of walk.new.globals) }
{
    let ctype = copy_of_type(alloc, d)?;
    with_global(&mut walk.globals, numbers, d.key, ctype)?;
    walk.records.push(Record {
        file: d.file,
        name: d.key.name,
        ctype: copy_type(alloc, &d.ctype)?,
        is_static: d.is_static,
    })
}

// What a variable means that is declared again, where its declarations agree.
fn global_again(
    alloc: Global,
    agree: bool,
    number: u32,
    old: &CType,
    new: &CType,
) -> Result<Option<Entity>, OutOfMemory>
    ensures { IfOk result (λ e. e ≡ spec.global_again agree number old.now new.now) }
{
    if agree {
        Ok(Some(Entity::Global(number, composite(alloc, old, new)?)))
    } else {
        Ok(None)
    }
}

// What the name of a variable with linkage means from now on; `None` where it cannot stand beside what the name is
// already.
fn global_beside(
    alloc: Global,
    old: Option<&Entity>,
    number: u32,
    t: &CType,
) -> Result<Option<Entity>, OutOfMemory>
    ensures { IfOk result (λ e. e ≡ spec.global_beside (option_copied old.entry) number t.now) }
{
    match old {
        None => Ok(Some(Entity::Global(number, copy_type(alloc, t)?))),
        Some(Entity::Global(earlier, old)) => {
            let agree = number == *earlier && compatible(old, t);
            global_again(alloc, agree, number, old, t)
        }
        Some(
            Entity::Typedef(_)
            | Entity::Function(_, _)
            | Entity::Constant(_)
            | Entity::Param(_, _)
            | Entity::Local(_, _),
        ) => Ok(None),
    }
}

// Declares a name as what it means from now on, and its global; a clash is a fault at that place.
fn global_if(
    alloc: Global,
    walk: &mut Walk,
    numbers: &mut GlobalNumbers,
    entity: Option<Entity>,
    d: &Linked,
) -> Result<(), OutOfMemory>
    requires { numbers.old ≡ keys_of walk.old.globals }
    ensures declared { Gives (spec.global_if entity d.now walk.old) result walk.new }
    ensures tied { OnOk result (numbers.new ≡ keys_of walk.new.globals) }
{
    match entity {
        None => declare_or(walk, None, d.key.name, d.pos),
        Some(entity) => {
            declare_or(walk, Some(entity), d.key.name, d.pos)?;
            add_global(alloc, walk, numbers, d)
        }
    }
}

// The number of the global with that key.
fn global_number(walk: &Walk, numbers: &GlobalNumbers, key: GlobalKey) -> Result<u32, OutOfMemory>
    requires { numbers.now ≡ keys_of walk.now.globals }
    ensures { IfOk result (λ number. spec.global_number key walk.now ≡ (number, walk.now)) }
{
    let number = numbers.number(key)?;
    Ok(number)
}

/// Declares a variable with linkage in the innermost scope, and gives the number of its global. Where the scope
/// has declared the name already and the two do not agree, there is a fault at the place of the name.
///
/// `numbers` has the numbers of the globals of `walk`, before and after. Where memory is refused neither is of
/// further use.
pub fn declare_global(
    alloc: Global,
    walk: &mut Walk,
    numbers: &mut GlobalNumbers,
    d: &Linked,
) -> Result<u32, OutOfMemory>
    requires { numbers.old ≡ keys_of walk.old.globals }
    ensures declared { Gives (spec.declare_global d.now walk.old) result walk.new }
    ensures tied { OnOk result (numbers.new ≡ keys_of walk.new.globals) }
{
    let number = global_number(walk, numbers, d.key)?;
    let entity = global_beside(alloc, name_here(walk, d.key.name), number, &d.ctype)?;
    global_if(alloc, walk, numbers, entity, d)?;
    Ok(number)
}
