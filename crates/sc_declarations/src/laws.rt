// A variable of a body without linkage has no global, whatever its initialiser is.

ghost use Rattle.std.specs.Prelude.{List, Option};
ghost use Rattle.sc_base.specs.declared.pos.NameId.{NameId};
ghost use Rattle.sc_base.specs.declared.pos.Pos.{Pos};
ghost use Rattle.sc_tree.specs.declared.ctype.CType.{CType};
ghost use Rattle.sc_tree.specs.declared.expr.Storage.{Storage};
ghost use Rattle.sc_tree.specs.declared.decl.Init.{Init};
ghost use Rattle.sc_typing.specs.Here.{Here};
ghost use Rattle.typing_laws.specs.Kept.{KeepsGlobals};
ghost use Rattle.sc_declarations.specs.Declarations as spec;

use typing_laws::{
    braces_keep_globals, expressions_keep_globals, lengthening_keeps_globals, locals_keep_globals,
    one_value_keeps_globals,
};

/// A variable of a body without linkage leaves the globals of the walk as they are.
pub fn no_local_has_a_global()
    ensures { (here : Here) (words : List Storage) (name : NameId) (at : Pos) (x : Option Init) (t : Option CType) →
        KeepsGlobals (spec.local_declared here words name at x t) }
{
    expressions_keep_globals();
    one_value_keeps_globals();
    braces_keep_globals();
    locals_keep_globals();
    lengthening_keeps_globals();
}
