// The globals of a walk stay as they are while expressions, types and declarators are typed.

ghost use Rattle.std.specs.Prelude.{Bool, Option};
ghost use Rattle.sc_base.specs.declared.pos.Pos.{Pos};
ghost use Rattle.sc_tree.specs.declared.ctype.CType.{CType};
ghost use Rattle.sc_tree.specs.declared.expr.Declarator.{Declarator};
ghost use Rattle.sc_tree.specs.declared.expr.Expr.{Expr};
ghost use Rattle.sc_tree.specs.declared.expr.Head.{Head};
ghost use Rattle.sc_tree.specs.declared.expr.Specs.{Specs};
ghost use Rattle.sc_typing.specs.Here.{Here};
ghost use Rattle.sc_typing.specs.Typing.{typing, valued, heading, declaring, naming};
ghost use Rattle.typing_laws.specs.Kept.{KeepsGlobals};

/// An expression as it stands.
pub fn expressions_keep_globals()
    ensures { (here : Here) (e : Expr) → KeepsGlobals (typing here e).run }
{}

/// The value of an expression.
pub fn values_keep_globals()
    ensures { (here : Here) (e : Expr) → KeepsGlobals (valued (typing here e)) }
{}

/// What specifiers and a declarator make.
pub fn heads_keep_globals()
    ensures { (here : Here) (h : Head) (at : Pos) → KeepsGlobals ((heading here h).run at) }
{}

/// What a declarator makes of a type.
pub fn declarators_keep_globals()
    ensures { (here : Here) (d : Declarator) (at : Pos) (t : Option CType) →
        KeepsGlobals ((declaring here d).run at t) }
{}

/// The type that specifiers name.
pub fn specifiers_keep_globals()
    ensures { (here : Here) (s : Specs) (alone : Bool) → KeepsGlobals (naming here s alone) }
{}
