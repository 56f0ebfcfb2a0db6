//! Laws of the reading: what the grammar spells is read, and no tokens spell two trees.
#![tactic(auto)]

ghost use Rattle.std.specs.Prelude.{◌≡◌, ℕ, List, false};
ghost use Rattle.sc_tree.specs.declared.token.Token.{Token};
ghost use Rattle.sc_base.specs.declared.pos.NameId.{NameId};
ghost use Rattle.sc_tree.specs.declared.expr.Declarator.{Declarator};
ghost use Rattle.sc_tree.specs.declared.expr.Expr.{Expr};
ghost use Rattle.sc_tree.specs.declared.grammar.Core.{Core};
ghost use Rattle.sc_tree.specs.declared.grammar.Level.{Level};
ghost use Rattle.sc_tree.specs.declared.grammar.Naming.{Naming};
ghost use Rattle.sc_tree.specs.declared.grammar.Specified.{Specified};
ghost use Rattle.sc_tree.specs.Grammar.{may_lack, Spells, Specifies, Declares};
ghost use Rattle.sc_parse_expr.specs.Laws.{BeginsDeclarator, BeginsExpr, BeginsSpecs, IsComplete};

/// How phrases begin: the first token tells which of them may stand there. A declarator that may be
/// without a name may be empty.
#[tactic(auto, using(crate::proofs::Begins::begins_expr, crate::proofs::Begins::begins_specs, crate::proofs::Begins::begins_declarator))]
pub fn how_phrases_begin()
    ensures expr { (types : List NameId) (level : Level) (h : ℕ) (t : Expr) (s : List Token) → Spells types level h t s → BeginsExpr types s }
    ensures specs { (types : List NameId) (h : ℕ) (f : Specified) (s : List Token) → Specifies types h f s → BeginsSpecs types s }
    ensures declarator { (types : List NameId) (n : Naming) (c : Core) (h : ℕ) (t : Declarator) (s : List Token) → may_lack n ≡ false
        → Declares types n c h t s → BeginsDeclarator s }
{}

/// What is spelled with a height of at most the limit is read, whatever follows that does not go on
/// with it.
#[tactic(auto, using(crate::proofs::Completeness::complete))]
pub fn reading_is_complete()
    ensures { (types : List NameId) (limit : ℕ) → IsComplete types limit }
{}

/// Tokens spell at most one expression of a level, and at one height.
#[tactic(auto, using(crate::proofs::Whole::one_tree))]
pub fn one_expression()
    ensures { (types : List NameId) (level : Level) (h m : ℕ) (a b : Expr) (s : List Token) → Spells types level h a s
        → Spells types level m b s → (a ≡ b) × (h ≡ m) }
{}

/// Tokens are at most one type's specifiers, at one height.
#[tactic(auto, using(crate::proofs::Whole::one_type))]
pub fn one_type()
    ensures { (types : List NameId) (h m : ℕ) (a b : Specified) (s : List Token) → Specifies types h a s → Specifies types m b s → (a ≡ b) × (h ≡ m) }
{}

/// Tokens spell at most one declarator of a naming, which declares one thing, at one height.
#[tactic(auto, using(crate::proofs::Whole::one_declarator))]
pub fn one_declarator()
    ensures { (types : List NameId) (n : Naming) (c e : Core) (h m : ℕ) (a b : Declarator) (s : List Token) → Declares types n c h a s
        → Declares types n e m b s → (a ≡ b) × (c ≡ e) × (h ≡ m) }
{}
