// What typing makes of expressions and statements.

ghost use Rattle.std.specs.Prelude.{◌≡◌, true, Some};
ghost use Rattle.sc_tree.specs.declared.ctype.CType.{CType};
ghost use Rattle.sc_tree.specs.declared.expr.Expr.{Expr};
ghost use Rattle.sc_tree.specs.declared.stmt.Stmt.{Stmt};
ghost use Rattle.sc_typed.specs.declared.expr.TExpr.{TExpr};
ghost use Rattle.sc_typed.specs.declared.stmt.TStmt.{TStmt};
ghost use Rattle.sc_typed.specs.Constants.{is_lvalue};
ghost use Rattle.sc_typed.specs.Types as typed;
ghost use Rattle.sc_rules.specs.declared.walk.Walk.{Walk};
ghost use Rattle.sc_typing.specs.Here.{Here};
ghost use Rattle.sc_typing.specs.Typing.{typing, valued};
ghost use Rattle.sc_bodies.specs.Bodies.{Inside, stating};
ghost use Rattle.sc_world.specs.Source.{Source};
ghost use Rattle.sc_world.specs.View.{exp, stm, type};
ghost use Rattle.sc_world.specs.Eval.{Value, Place'};
ghost use Rattle.fitting_laws.specs.Typed.{IsTyped};
ghost use Rattle.fitting_laws.specs.Statements.{StatementTyped};
ghost use Rattle.typed_laws.specs.Agrees.{ResultIs, StatementAgrees};
ghost use Rattle.typed_laws.specs.Named.{NamesAgree};
ghost use Rattle.typed_laws.specs.Meanings.{MeansAlike};

/// Types that typing finds to be one are one type to runs.
#[tactic(auto, using(crate::proofs::Same::same_type_seen))]
pub fn types_are_seen()
    ensures { (t u : CType) → typed.same t u ≡ true → type t ≡ type u }
{}

/// The value that typing makes of an expression is typed, where what it names has its type: the operands of each
/// operator have the types that it wants.
pub fn values_are_typed()
    ensures { (s : Source) (here : Here) → MeansAlike here s → (e : Expr) (w : Walk) (x : TExpr) →
        (valued (typing here e) w).0 ≡ Some x → NamesAgree s (exp s.structs x) → IsTyped s Value (exp s.structs x) }
{}

/// What typing makes of an expression as it stands is typed where its place is wanted, if it is an lvalue.
pub fn places_are_typed()
    ensures { (s : Source) (here : Here) → MeansAlike here s → (e : Expr) (w : Walk) (x : TExpr) →
        ((typing here e).run w).0 ≡ Some x → NamesAgree s (exp s.structs x) → is_lvalue x ≡ true →
        IsTyped s Place' (exp s.structs x) }
{}

/// What typing makes of a statement is typed, where what it names and declares agrees with the source, and the result
/// that typing knows is that of the function.
pub fn statements_are_typed()
    ensures { (s : Source) (here : Here) → MeansAlike here s → (x : Stmt) (r : Inside) → ResultIs s r.result →
        (w : Walk) (y : TStmt) → ((stating here x).bare r w).0 ≡ Some y → StatementAgrees s (stm s.structs y) →
        StatementTyped s (stm s.structs y) }
{}
