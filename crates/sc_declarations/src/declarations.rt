// Declarations (C11 6.7): what a declarator declares, at file scope and in a body.
//
// What is not used further is dropped by a call of `drop`, before a step that can fail: a drop that is not written out
// stands in the check of its function once for each way out.

ghost use Rattle.std.specs.Prelude.{◌≡◌, IfOk, OnOk};
ghost use Rattle.std.specs.Option.{option_copied};
ghost use Rattle.sc_rules.specs.Gives.{Gives};
ghost use Rattle.sc_declare.specs.Numbers.{keys_of};
ghost use Rattle.sc_declare.specs.Declarators.{declare_global_if, typedef_declared};
ghost use Rattle.sc_unary.specs.Members.{is_there};
ghost use Rattle.sc_files.specs.Variables.{object_if};
ghost use Rattle.sc_lengths.specs.Lengths.{completed_type};
ghost use Rattle.sc_typing.specs.Tables as tables;
ghost use Rattle.sc_typing.specs.Typing as typing;
ghost use Rattle.sc_declarations.specs.Declarations as spec;

use crate::laws::no_local_has_a_global;
use crate::locals::local_declared;
use sc_base::{Boxed, List, NameId, OutOfMemory, Pos};
use sc_declare::{
    GlobalNumbers, Linked, Parameter, declare_global, extern_declared, function_declared,
    has_extern, has_local, has_static, has_typedef, typedef_declared,
};
use sc_files::{is_function_of, linked_in, object_if};
use sc_lengths::completed_type;
use sc_rules::Walk;
use sc_tree::ctype::CType;
use sc_tree::decl::{Decl, Init, InitDeclarator};
use sc_tree::expr::{Declarator, Storage};
use sc_typed::{Declared, TDeclarator};
use sc_types::copy_type;
use sc_typing::{Own, Shape, Tables, declarator, specifiers};
use std::alloc::Global;
use typing_laws::{
    declarators_keep_globals, functions_keep_globals, lengths_keep_globals, objects_keep_globals,
    specifiers_keep_globals, typedefs_keep_globals,
};

// A copy of a type, where there is one.
fn copy_if(alloc: Global, t: Option<&CType>) -> Result<Option<CType>, OutOfMemory>
    ensures { IfOk result (λ copy. copy ≡ option_copied t.entry) }
{
    match t {
        None => Ok(None),
        Some(t) => {
            let copy = copy_type(alloc, t)?;
            Ok(Some(copy))
        }
    }
}

// The type that all files give a global, once it is known.
fn type_over_all(alloc: Global, here: &Tables, name: NameId) -> Result<Option<CType>, OutOfMemory>
    ensures { IfOk result (λ t. t ≡ spec.type_over_all (tables.here_of here.now) name) }
{
    if here.settled() {
        copy_if(alloc, here.global_type(name))
    } else {
        Ok(None)
    }
}

// A declaration of a variable with linkage, if its type is known.
fn linked_if(
    alloc: Global,
    here: &Tables,
    name: NameId,
    at: Pos,
    is_static: bool,
    t: Option<CType>,
) -> Result<Option<Linked>, OutOfMemory>
    ensures { IfOk result (λ d. d ≡ spec.linked_if (tables.here_of here.now) name at is_static t) }
{
    let over_all = type_over_all(alloc, here, name)?;
    Ok(linked_in(
        here.file(),
        here.is_local(name),
        over_all,
        name,
        at,
        is_static,
        t,
    ))
}

// The parameters that the declarator wrote.
fn params_if(own: &Option<Own>) -> Option<&List<Parameter>>
    ensures { option_copied result ≡ spec.params_if own.now }
{
    match own {
        None => None,
        Some(own) => Some(&own.params),
    }
}

// The type of a variable, with the length that its initialiser gives it. The designators of that declare no global.
fn completed_if(
    alloc: Global,
    walk: &mut Walk,
    here: &Tables,
    init: &Option<Boxed<Init>>,
    t: Option<CType>,
) -> Result<Option<CType>, OutOfMemory>
    ensures completed { Gives (spec.completed_if (tables.here_of here.now) init.now t walk.old) result walk.new }
    ensures kept { OnOk result (walk.new.globals ≡ walk.old.globals) }
{
    match t {
        None => Ok(None),
        Some(t) => {
            let t = completed(alloc, walk, here, init, &t)?;
            Ok(Some(t))
        }
    }
}

// The same of a type that is known.
fn completed(
    alloc: Global,
    walk: &mut Walk,
    here: &Tables,
    init: &Option<Boxed<Init>>,
    t: &CType,
) -> Result<CType, OutOfMemory>
    ensures completed { Gives (completed_type (tables.here_of here.now) init.now t.now walk.old) result walk.new }
    ensures kept { OnOk result (walk.new.globals ≡ walk.old.globals) }
{
    lengths_keep_globals();
    completed_type(alloc, walk, here, init, t)
}

// The type of an object at file scope is one that an object has.
fn object_at_file(walk: &mut Walk, here: &Tables, defines: bool, at: Pos, t: Option<&CType>) -> bool
    ensures judged { object_if (tables.here_of here.now).widths defines at (option_copied t.entry) walk.old
        ≡ (result, walk.new) }
    ensures kept { walk.new.globals ≡ walk.old.globals }
{
    objects_keep_globals();
    object_if(walk, here.widths(), defines, at, t)
}

// The number of the global that is declared; 0 where it has no type.
fn global_if(
    alloc: Global,
    walk: &mut Walk,
    numbers: &mut GlobalNumbers,
    d: Option<&Linked>,
) -> Result<u32, OutOfMemory>
    requires { numbers.old ≡ keys_of walk.old.globals }
    ensures declared { Gives (declare_global_if (option_copied d.entry) walk.old) result walk.new }
    ensures tied { OnOk result (numbers.new ≡ keys_of walk.new.globals) }
{
    match d {
        None => Ok(0),
        Some(d) => declare_global(alloc, walk, numbers, d),
    }
}

// A variable at file scope: one without `extern` is an object.
fn file_variable(
    alloc: Global,
    walk: &mut Walk,
    numbers: &mut GlobalNumbers,
    here: &Tables,
    words: &[Storage],
    name: NameId,
    at: Pos,
    init: &Option<Boxed<Init>>,
    t: Option<CType>,
) -> Result<TDeclarator, OutOfMemory>
    requires { numbers.old ≡ keys_of walk.old.globals }
    ensures declared { Gives (spec.file_variable (tables.here_of here.now) words.now name at init.now
        t walk.old) result walk.new }
    ensures tied { OnOk result (numbers.new ≡ keys_of walk.new.globals) }
{
    let t = completed_if(alloc, walk, here, init, t)?;
    object_at_file(walk, here, !has_extern(words), at, t.as_ref());
    let d = linked_if(alloc, here, name, at, has_static(words), t)?;
    let number = global_if(alloc, walk, numbers, d.as_ref());
    drop(d);
    let number = number?;
    Ok(TDeclarator {
        name,
        pos: at,
        declared: Declared::Global(number),
        init: None,
    })
}

// A variable of a body without linkage; it has no global.
fn local_named(
    alloc: Global,
    walk: &mut Walk,
    here: &Tables,
    words: &[Storage],
    name: NameId,
    at: Pos,
    init: &Option<Boxed<Init>>,
    t: Option<CType>,
) -> Result<TDeclarator, OutOfMemory>
    ensures declared { Gives (spec.local_declared (tables.here_of here.now) words.now name at init.now
        t walk.old) result walk.new }
    ensures kept { OnOk result (walk.new.globals ≡ walk.old.globals) }
{
    no_local_has_a_global();
    local_declared(alloc, walk, here, words, name, at, init, t)
}

// A variable in a body.
fn body_variable(
    alloc: Global,
    walk: &mut Walk,
    numbers: &mut GlobalNumbers,
    here: &Tables,
    words: &[Storage],
    name: NameId,
    at: Pos,
    init: &Option<Boxed<Init>>,
    t: Option<CType>,
) -> Result<TDeclarator, OutOfMemory>
    requires { numbers.old ≡ keys_of walk.old.globals }
    ensures declared { Gives (spec.body_variable (tables.here_of here.now) words.now name at init.now
        t walk.old) result walk.new }
    ensures tied { OnOk result (numbers.new ≡ keys_of walk.new.globals) }
{
    if has_extern(words) {
        let d = linked_if(alloc, here, name, at, false, t)?;
        let made = extern_declared(
            alloc,
            walk,
            numbers,
            name,
            at,
            has_static(words),
            d.as_ref(),
        );
        drop(d);
        made
    } else {
        let made = local_named(alloc, walk, here, words, name, at, init, t)?;
        Ok(made)
    }
}

// A variable.
fn variable_declared(
    alloc: Global,
    walk: &mut Walk,
    numbers: &mut GlobalNumbers,
    here: &Tables,
    at_file: bool,
    words: &[Storage],
    name: NameId,
    at: Pos,
    init: &Option<Boxed<Init>>,
    t: Option<CType>,
) -> Result<TDeclarator, OutOfMemory>
    requires { numbers.old ≡ keys_of walk.old.globals }
    ensures declared { Gives (spec.variable_declared (tables.here_of here.now) at_file words.now name
        at init.now t walk.old) result walk.new }
    ensures tied { OnOk result (numbers.new ≡ keys_of walk.new.globals) }
{
    if at_file {
        file_variable(alloc, walk, numbers, here, words, name, at, init, t)
    } else {
        body_variable(alloc, walk, numbers, here, words, name, at, init, t)
    }
}

// Whether a declarator wrote parameters round its name.
fn has_own(own: &Option<Own>) -> bool
    ensures { result ≡ is_there own.now }
{
    match own {
        None => false,
        Some(_) => true,
    }
}

// What a declarator declares that makes that of the type of its specifiers.
fn declared_as(
    alloc: Global,
    walk: &mut Walk,
    numbers: &mut GlobalNumbers,
    here: &Tables,
    at_file: bool,
    words: &[Storage],
    name: NameId,
    at: Pos,
    init: &Option<Boxed<Init>>,
    shape: Shape,
) -> Result<TDeclarator, OutOfMemory>
    requires { numbers.old ≡ keys_of walk.old.globals }
    ensures declared { Gives (spec.declared_as (tables.here_of here.now) at_file words.now name at init.now
        shape walk.old) result walk.new }
    ensures tied { OnOk result (numbers.new ≡ keys_of walk.new.globals) }
{
    let Shape { ctype, own } = shape;
    if at_file && has_typedef(words) {
        drop(own);
        let made = typedef_named(walk, name, at, ctype)?;
        Ok(made)
    } else if is_function_of(ctype.as_ref(), has_own(&own)) {
        let is_local = at_file && has_local(words);
        let made = function_named(alloc, walk, here, is_local, name, at, ctype.as_ref(), &own);
        drop(ctype);
        drop(own);
        let made = made?;
        Ok(made)
    } else {
        drop(own);
        variable_declared(
            alloc, walk, numbers, here, at_file, words, name, at, init, ctype,
        )
    }
}

// A typedef name; it has no global.
fn typedef_named(
    walk: &mut Walk,
    name: NameId,
    at: Pos,
    t: Option<CType>,
) -> Result<TDeclarator, OutOfMemory>
    ensures declared { Gives (typedef_declared name at t walk.old) result walk.new }
    ensures kept { OnOk result (walk.new.globals ≡ walk.old.globals) }
{
    typedefs_keep_globals();
    typedef_declared(walk, name, at, t)
}

// A function without a body; it has no global.
fn function_named(
    alloc: Global,
    walk: &mut Walk,
    here: &Tables,
    is_local: bool,
    name: NameId,
    at: Pos,
    t: Option<&CType>,
    own: &Option<Own>,
) -> Result<TDeclarator, OutOfMemory>
    ensures declared { Gives (spec.function_named (tables.here_of here.now) is_local name at
        (option_copied t.entry) own.now walk.old) result walk.new }
    ensures kept { OnOk result (walk.new.globals ≡ walk.old.globals) }
{
    functions_keep_globals();
    function_declared(
        alloc,
        walk,
        here.file(),
        is_local,
        name,
        at,
        t,
        params_if(own),
    )
}

// What a declarator makes of the type of its specifiers; that has no global.
fn shaped(
    alloc: Global,
    walk: &mut Walk,
    here: &Tables,
    d: &Declarator,
    at: Pos,
    t: Option<CType>,
) -> Result<Shape, OutOfMemory>
    ensures shaped { Gives ((typing.declaring (tables.here_of here.now) d.now).run at t walk.old) result walk.new }
    ensures kept { OnOk result (walk.new.globals ≡ walk.old.globals) }
{
    declarators_keep_globals();
    declarator(alloc, walk, here, d, at, t)
}

fn is_alone(parts: &[InitDeclarator]) -> bool
    ensures { result ≡ spec.is_alone parts.now }
{
    match parts {
        [] => true,
        [_, ..] => false,
    }
}

// The type that the specifiers of a declaration name; that has no global.
fn type_named(
    alloc: Global,
    walk: &mut Walk,
    here: &Tables,
    d: &Decl,
) -> Result<Option<CType>, OutOfMemory>
    ensures named { Gives (spec.type_named (tables.here_of here.now) d.now walk.old) result walk.new }
    ensures kept { OnOk result (walk.new.globals ≡ walk.old.globals) }
{
    specifiers_keep_globals();
    specifiers(alloc, walk, here, &d.specs, is_alone(d.parts.as_slice()))
}

// The name of a declarator. In a declaration each has one.
fn name_of(name: Option<(NameId, Pos)>) -> (NameId, Pos)
    ensures { result ≡ spec.name_of name }
{
    match name {
        None => (
            NameId { at: 0 },
            Pos {
                file: 0,
                line: 0,
                col: 0,
            },
        ),
        Some(name) => name,
    }
}

// A declarator of that name declares something of the type that its specifiers name.
fn declarator_named(
    alloc: Global,
    walk: &mut Walk,
    numbers: &mut GlobalNumbers,
    here: &Tables,
    at_file: bool,
    words: &[Storage],
    t: Option<CType>,
    d: &InitDeclarator,
    name: (NameId, Pos),
) -> Result<TDeclarator, OutOfMemory>
    requires { numbers.old ≡ keys_of walk.old.globals }
    ensures declared { Gives (spec.declarator_named (tables.here_of here.now) at_file words.now t
        (typing.declaring (tables.here_of here.now) d.now.declarator) d.now.init name walk.old) result walk.new }
    ensures tied { OnOk result (numbers.new ≡ keys_of walk.new.globals) }
{
    let (name, at) = name;
    let shape = shaped(alloc, walk, here, &d.declarator, at, t)?;
    declared_as(
        alloc, walk, numbers, here, at_file, words, name, at, &d.init, shape,
    )
}

// A declarator declares something of the type that its specifiers name.
fn declarator_of(
    alloc: Global,
    walk: &mut Walk,
    numbers: &mut GlobalNumbers,
    here: &Tables,
    at_file: bool,
    words: &[Storage],
    t: Option<&CType>,
    d: &InitDeclarator,
) -> Result<TDeclarator, OutOfMemory>
    requires { numbers.old ≡ keys_of walk.old.globals }
    ensures declared { Gives (spec.declarator (tables.here_of here.now) at_file words.now
        (option_copied t.entry) d.now walk.old) result walk.new }
    ensures tied { OnOk result (numbers.new ≡ keys_of walk.new.globals) }
{
    let name = name_of(here.declared_name(&d.declarator));
    let t = copy_if(alloc, t)?;
    declarator_named(alloc, walk, numbers, here, at_file, words, t, d, name)
}

// The declarators of a declaration, one after the other.
#[tactic(auto, using(crate::proofs::Joined::joined_step))]
fn declarators(
    alloc: Global,
    walk: &mut Walk,
    numbers: &mut GlobalNumbers,
    here: &Tables,
    at_file: bool,
    words: &[Storage],
    t: Option<&CType>,
    parts: &[InitDeclarator],
) -> Result<List<TDeclarator>, OutOfMemory>
    requires { numbers.old ≡ keys_of walk.old.globals }
    ensures declared { Gives (spec.declarators (tables.here_of here.now) at_file words.now
        (option_copied t.entry) parts.now walk.old) result walk.new }
    ensures tied { OnOk result (numbers.new ≡ keys_of walk.new.globals) }
{
    let mut made = List::new(alloc);
    for d in parts {
        let x = declarator_of(alloc, walk, numbers, here, at_file, words, t, d)?;
        made.push(x)?;
    }
    Ok(made)
}

/// Declares what a declaration declares, and gives its declarators; with the flag it stands at file scope, else in a
/// body. What is not taken is a fault that the walk notes.
///
/// `numbers` has the numbers of the globals of `walk`, before and after. Where memory is refused neither is of
/// further use.
pub fn declaration(
    alloc: Global,
    walk: &mut Walk,
    numbers: &mut GlobalNumbers,
    here: &Tables,
    at_file: bool,
    d: &Decl,
) -> Result<List<TDeclarator>, OutOfMemory>
    requires { numbers.old ≡ keys_of walk.old.globals }
    ensures declared { Gives (spec.declaration (tables.here_of here.now) at_file d.now walk.old) result walk.new }
    ensures tied { OnOk result (numbers.new ≡ keys_of walk.new.globals) }
{
    let t = type_named(alloc, walk, here, d)?;
    let words = d.specs.storage.as_slice();
    declarators(
        alloc,
        walk,
        numbers,
        here,
        at_file,
        words,
        t.as_ref(),
        d.parts.as_slice(),
    )
}
