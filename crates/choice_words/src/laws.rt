// What holds of the things of every function. A law is the clause of a function that does nothing but cite others.

ghost use Rattle.std.specs.Prelude.{◌≡◌, Ok, map};
ghost use Rattle.sc_world.specs.Source.{Source};
ghost use Rattle.sc_world.specs.Layout.{Layout};
ghost use Rattle.sc_world.specs.Places.{places};
ghost use Rattle.verdict_laws.specs.Bits.{EachOfOne};
ghost use Rattle.choice_words.specs.Bits.{bits_of};
ghost use Rattle.choice_words.specs.Things.{things};

use verdict_laws::each_bit_is_of_one_thing;

/// Each bit of a choice belongs to exactly one of the things that are spoken of, and no thing has another bit.
#[tactic(auto, using(crate::proofs::EachBit::each_is_spoken))]
pub fn each_bit_is_spoken_of()
    ensures { (s : Source) (p : Layout) → places s ≡ Ok p → EachOfOne p.bits (map (bits_of s) (things s p)) }
{
    each_bit_is_of_one_thing();
}
