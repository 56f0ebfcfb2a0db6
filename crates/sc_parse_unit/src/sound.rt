//! The laws that what is read is spelled.
#![tactic(auto)]

ghost use Rattle.std.specs.Prelude.{◌≡◌, ℕ, List, Some};
ghost use Rattle.sc_base.specs.declared.pos.NameId.{NameId};
ghost use Rattle.sc_tree.specs.declared.token.Token.{Token};
ghost use Rattle.sc_parse_unit.specs.Laws.{IsSound, Outlines};
ghost use Rattle.sc_parse_unit.specs.Reading.{Outlined, outline_of};

/// What is read at the front of tokens as an initialiser, a declaration or a statement, the tokens up to
/// those that are left spell, with a tree of exactly the height read, which is at most the limit. No
/// `else` stands behind a statement that could take it.
#[tactic(auto, using(crate::proofs::SoundAll::sound))]
pub fn reading_is_spelled()
    ensures { (types : List NameId) (limit : ℕ) → IsSound types limit }
{}

/// What a segment is read as before the body of a function, its tokens spell: a declaration, with the
/// typedef names behind it, or the head of a function and tokens in braces.
#[tactic(auto, using(crate::proofs::SoundAll::outline_sound))]
pub fn outline_is_spelled()
    ensures { (types : List NameId) (ts : List Token) (o : Outlined) → outline_of types ts ≡ Some o → Outlines types ts o.it o.types o.inside }
{}
