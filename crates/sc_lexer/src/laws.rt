//! Laws of the definition of pieces: none is empty, so the definition has steps enough for all bytes, and
//! the punctuator that it takes is the longest one.
#![tactic(auto)]

ghost use Rattle.std.specs.Prelude.{◌≡◌, ℕ, ◌<◌, ◌≤◌, Bool, true, List, Some, length};
ghost use Rattle.sc_tree.specs.declared.piece.Piece.{Piece};
ghost use Rattle.sc_tree.specs.declared.token.Punct.{Punct};
ghost use Rattle.sc_tree.specs.Pieces.{piece};
ghost use Rattle.sc_tree.specs.Puncts.{punctuator, punctuators};
ghost use Rattle.sc_tree.specs.Tables.{Row, begins};
ghost use Rattle.sc_lexer.specs.Laws.{is_spelling};

/// No piece is empty.
pub fn pieces_have_bytes()
    ensures { (fresh : Bool) (bytes : List ℕ) (p : Piece) → piece fresh bytes ≡ Some p → 0 < p.len }
{}

/// No punctuator of the table that stands at the front is longer than the one that is taken.
pub fn punctuator_is_the_longest()
    ensures { (bytes text : List ℕ) (row : Row Punct) → punctuator bytes ≡ Some row → is_spelling punctuators text ≡ true
        → begins text bytes ≡ true → length text ≤ length row.0 }
{}
