// What a declarator declares, as far as its type says it (C11 6.7).

ghost use Rattle.std.specs.Prelude.{◌≡◌};
ghost use Rattle.std.specs.Option.{option_copied};
ghost use Rattle.sc_files.specs.Variables as spec;

use sc_base::{NameId, Pos};
use sc_declare::Linked;
use sc_names::object_at;
use sc_rules::{GlobalKey, Walk};
use sc_tree::ctype::{CType, Widths};
use sc_types::is_function;

fn key_in(file: u32, is_local: bool, name: NameId) -> GlobalKey
    ensures { result ≡ spec.key_in file is_local name }
{
    let file = if is_local { Some(file) } else { None };
    GlobalKey { name, file }
}

/// A declaration in a file of a variable with linkage, if its type is known. With `is_local` the name is local to the
/// file; `over_all` is the type that all files give it, once that is known.
pub fn linked_in(
    file: u32,
    is_local: bool,
    over_all: Option<CType>,
    name: NameId,
    at: Pos,
    is_static: bool,
    t: Option<CType>,
) -> Option<Linked>
    ensures { result ≡ spec.linked_in file is_local over_all name at is_static t }
{
    match t {
        None => None,
        Some(ctype) => Some(Linked {
            file,
            key: key_in(file, is_local, name),
            pos: at,
            ctype,
            over_all,
            is_static,
        }),
    }
}

/// Notes a fault at that place where a declaration defines an object, as the flag says, and its type is known and none
/// that an object has.
pub fn object_if(walk: &mut Walk, w: Widths, defines: bool, at: Pos, t: Option<&CType>) -> bool
    ensures { spec.object_if w defines at (option_copied t.entry) walk.old ≡ (result, walk.new) }
{
    if defines {
        match t {
            None => true,
            Some(t) => object_at(walk, w, at, t),
        }
    } else {
        true
    }
}

/// Whether a function is declared: by its type, or, where that has a fault, by its declarator.
pub fn is_function_of(t: Option<&CType>, by_declarator: bool) -> bool
    ensures { result ≡ spec.is_function_of (option_copied t.entry) by_declarator }
{
    match t {
        None => by_declarator,
        Some(t) => is_function(t),
    }
}
