//! The law that what is read is spelled.
#![tactic(auto)]

ghost use Rattle.std.specs.Prelude.{ℕ, List};
ghost use Rattle.sc_base.specs.declared.pos.NameId.{NameId};
ghost use Rattle.sc_parse_expr.specs.Laws.{IsSound};

/// What is read at the front of tokens, the tokens up to those that are left spell, with a tree of
/// exactly the height read, which is at most the limit.
pub fn reading_is_spelled()
    ensures { (types : List NameId) (limit : ℕ) → IsSound types limit }
{}
