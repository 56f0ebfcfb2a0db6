// The globals of a walk stay as they are while functions, typedef names and locals are declared and initialised.

ghost use Rattle.std.specs.Prelude.{ℕ, Bool, Option, List};
ghost use Rattle.sc_base.specs.declared.pos.NameId.{NameId};
ghost use Rattle.sc_base.specs.declared.pos.Pos.{Pos};
ghost use Rattle.sc_tree.specs.declared.ctype.CType.{CType};
ghost use Rattle.sc_tree.specs.declared.ctype.Widths.{Widths};
ghost use Rattle.sc_tree.specs.declared.decl.Init.{Init};
ghost use Rattle.sc_typed.specs.declared.expr.TExpr.{TExpr};
ghost use Rattle.sc_declare.specs.declared.functions.Parameter.{Parameter};
ghost use Rattle.sc_declare.specs.Declarators.{function_declared, typedef_declared};
ghost use Rattle.sc_declare.specs.Locals.{declare_local, lengthen};
ghost use Rattle.sc_files.specs.Variables.{object_if};
ghost use Rattle.sc_fill.specs.Initialisers.{spread_if, one_value};
ghost use Rattle.sc_lengths.specs.Lengths.{completed_type};
ghost use Rattle.sc_typing.specs.Here.{Here};
ghost use Rattle.typing_laws.specs.Kept.{KeepsGlobals};

/// A function that is declared.
pub fn functions_keep_globals()
    ensures { (file : ℕ) (is_local : Bool) (name : NameId) (at : Pos) (t : Option CType)
        (ps : Option (List Parameter)) → KeepsGlobals (function_declared file is_local name at t ps) }
{}

/// A typedef name.
pub fn typedefs_keep_globals()
    ensures { (name : NameId) (at : Pos) (t : Option CType) → KeepsGlobals (typedef_declared name at t) }
{}

/// A variable of a body without linkage.
pub fn locals_keep_globals()
    ensures { (ws : Widths) (name : NameId) (at : Pos) (t : CType) → KeepsGlobals (declare_local ws name at t) }
{}

/// The length that an initialiser gives to a local array.
pub fn lengthening_keeps_globals()
    ensures { (ws : Widths) (n : ℕ) (name : NameId) (at : Pos) (m : Option ℕ) (t : CType) →
        KeepsGlobals (lengthen ws n name at m t) }
{}

/// The length that an initialiser gives to an array at file scope.
pub fn lengths_keep_globals()
    ensures { (here : Here) (x : Option Init) (t : CType) → KeepsGlobals (completed_type here x t) }
{}

/// The values in the braces of an initialiser.
pub fn braces_keep_globals()
    ensures { (ws : Widths) (at : Pos) (t : Option CType) (xs : List (Option TExpr)) →
        KeepsGlobals (spread_if ws at t xs) }
{}

/// The value of an initialiser without braces.
pub fn one_value_keeps_globals()
    ensures { (ws : Widths) (at : Pos) (t : Option CType) (e : TExpr) → KeepsGlobals (one_value ws at t e) }
{}

/// The test of the type of an object at file scope.
pub fn objects_keep_globals()
    ensures { (ws : Widths) (is_object : Bool) (at : Pos) (t : Option CType) →
        KeepsGlobals (object_if ws is_object at t) }
{}
