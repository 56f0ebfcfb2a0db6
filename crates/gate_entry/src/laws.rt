//! What holds of the bits of every layout: a law, with no code.

ghost use Rattle.std.specs.Prelude.{◌≡◌, Ok, All};
ghost use Rattle.sc_world.specs.Source.{Source};
ghost use Rattle.sc_world.specs.Layout.{Layout};
ghost use Rattle.sc_world.specs.Places.{places};
ghost use Rattle.gate_entry.specs.Entry.{ReadsWithin};

use verdict_laws::each_bit_is_of_one_thing;

/// In the layout of a function each location reads at entry bits of the layout alone.
pub fn locations_read_their_layout()
    ensures { (s : Source) (p : Layout) → places s ≡ Ok p → All (ReadsWithin s p) p.locations }
{
    each_bit_is_of_one_thing();
}
