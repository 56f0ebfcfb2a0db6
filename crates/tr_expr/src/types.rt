// What is asked of the types of expressions.

ghost use Rattle.std.specs.Prelude.{◌≡◌};
ghost use Rattle.sc_world.specs.Tree as tree;
ghost use Rattle.sc_world.specs.View.{type};

use sc_tree::ctype::CType;

/// Whether it is `_Bool`.
pub fn is_bool(t: &CType) -> bool
    ensures { result ≡ tree.is_bool (type t.now) }
{
    matches!(t, CType::Bool)
}
