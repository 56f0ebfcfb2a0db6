//! What holds of the text of a certificate. The law is the clause of a function that does nothing.

ghost use Rattle.std.specs.Prelude.{◌≡◌};
ghost use Rattle.drat_text.specs.Certificate.{Contents};
ghost use Rattle.drat_text.specs.Reading.{Spells, spelled};
ghost use Rattle.drat_text.specs.Writing.{HasText, text_of};

/// The text of a certificate spells this certificate, and no other.
#[tactic(auto, using(crate::proofs::ReadBack::read_back))]
pub fn written_is_read_back()
    ensures { (contents : Contents) → HasText contents → spelled (text_of contents) ≡ Spells contents }
{}
