// Types (C11 6.2.5), as numbers.

ghost use Rattle.std.specs.Prelude.{◌≡◌, map, OnOk};
ghost use Rattle.fn_matter.specs.Words.{marked, spell, spell_all, trees};
ghost use Rattle.fn_matter.specs.Shapes.{signature_tree, type_tree};

use crate::numbers::{flag, int_number, opaque_number};
use crate::writing::{end, leaf, node, optional_node, part};
use sc_base::{List, OutOfMemory};
use sc_tree::ctype::{CType, Signature};

/// Writes a type behind the numbers.
///
/// # Errors
///
/// `OutOfMemory` where memory is refused.
#[cycle(ctype)]
pub fn ctype(out: &mut Vec<u64>, t: &CType) -> Result<(), OutOfMemory>
    ensures { OnOk result (out.new.items ≡ spell (type_tree t.now) out.old.items) }
{
    match t {
        CType::Void => leaf(out, 0, &[]),
        CType::Bool => leaf(out, 1, &[]),
        CType::Int(k) => leaf(out, 2, &[int_number(*k)]),
        CType::Ptr(to) => {
            node(out, 3, &[])?;
            type_part(out, to.get())?;
            end(out)
        }
        CType::Array(of, length) => {
            optional_node(out, 4, *length)?;
            type_part(out, of.get())?;
            end(out)
        }
        CType::Struct(n) => leaf(out, 5, &[*n as u64]),
        CType::Union(n) => leaf(out, 6, &[*n as u64]),
        CType::Func(s) => {
            node(out, 7, &[])?;
            part(out)?;
            signature(out, s.get())?;
            end(out)
        }
        CType::Opaque(k) => leaf(out, 8, &[opaque_number(*k)]),
    }
}

// Writes a type as a part.
#[cycle(ctype)]
pub(crate) fn type_part(out: &mut Vec<u64>, t: &CType) -> Result<(), OutOfMemory>
    ensures { OnOk result (out.new.items ≡ spell (type_tree t.now) (marked out.old.items)) }
{
    part(out)?;
    ctype(out, t)
}

// Writes the type of a function.
#[cycle(ctype)]
fn signature(out: &mut Vec<u64>, s: &Signature) -> Result<(), OutOfMemory>
    ensures { OnOk result (out.new.items ≡ spell (signature_tree s.now) out.old.items) }
{
    match &s.params {
        None => {
            node(out, 0, &[flag(s.variadic)])?;
            type_part(out, &s.result)?;
            end(out)
        }
        Some(params) => {
            node(out, 1, &[flag(s.variadic)])?;
            type_part(out, &s.result)?;
            types(out, params)
        }
    }
}

// Writes types as the last parts.
#[cycle(ctype)]
pub(crate) fn types(out: &mut Vec<u64>, ts: &List<CType>) -> Result<(), OutOfMemory>
    ensures { OnOk result (out.new.items ≡ spell_all (trees (map type_tree ts.now)) out.old.items) }
{
    for t in ts.as_slice() {
        type_part(out, t)?;
    }
    end(out)
}
