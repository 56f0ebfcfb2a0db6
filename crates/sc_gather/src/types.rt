// Questions to the outermost layer of a type (C11 6.2.5).

ghost use Rattle.std.specs.Prelude.{◌≡◌};
ghost use Rattle.sc_typed.specs.Kinds as kinds;
ghost use Rattle.sc_world.specs.Tree as spec;
ghost use Rattle.sc_world.specs.View.{type};
ghost use Rattle.sc_gather.specs.Seen.{type_if};

use sc_tree::ctype::{CType, Widths};
use sc_types::kind_bits;

/// Whether it is `void`.
pub fn is_void(t: &CType) -> bool
    ensures { result ≡ spec.is_void (type t.now) }
{
    matches!(t, CType::Void)
}

/// Whether it is an integer type: `_Bool` or a kind of integer.
pub fn is_integer(t: &CType) -> bool
    ensures { result ≡ spec.is_integer (type t.now) }
{
    matches!(t, CType::Bool | CType::Int(_))
}

/// Whether it is a pointer.
pub fn is_pointer(t: &CType) -> bool
    ensures { result ≡ spec.is_pointer (type t.now) }
{
    matches!(t, CType::Ptr(_))
}

/// What a pointer points to; `None` of any other type.
pub fn target(t: &CType) -> Option<&CType>
    ensures { type_if result ≡ spec.target (type t.now) }
{
    match t {
        CType::Ptr(target) => Some(target.get()),
        CType::Void
        | CType::Bool
        | CType::Int(_)
        | CType::Array(_, _)
        | CType::Struct(_)
        | CType::Union(_)
        | CType::Func(_)
        | CType::Opaque(_) => None,
    }
}

/// The bits of a value of an integer type: 1 of `_Bool`; 0 of any other type.
pub fn integer_bits(w: Widths, t: &CType) -> u32
    ensures { result ≡ spec.int_bits w (type t.now) }
{
    match t {
        CType::Bool => 1,
        CType::Int(kind) => kind_bits(w, *kind),
        CType::Void
        | CType::Ptr(_)
        | CType::Array(_, _)
        | CType::Struct(_)
        | CType::Union(_)
        | CType::Func(_)
        | CType::Opaque(_) => 0,
    }
}
