// What the text of a location tells.

ghost use Rattle.std.specs.Prelude.{◌≡◌, ◌<◌, ℕ, Ok, length};
ghost use Rattle.sc_world.specs.Paths.{Texts, text_at};
ghost use Rattle.sc_world.specs.Places.{places};
ghost use Rattle.sc_world.specs.Source.{Source};
ghost use Rattle.text_laws.specs.Ways.{HasPlainNames, NamesArePlain, way_of};

use layout_laws::locations_are_right;

/// Two locations of one text are reached in one way: they begin at one name, or at calls of one line and column, and the
/// steps from there are the same. So a text that a report shows can be read in one way only.
/// For the layout of a function this is asked of the names that its locations use, and of the places of calls, alone.
pub fn texts_tell_ways()
    ensures any { (x : Texts) (a b : ℕ) → HasPlainNames x → a < length x.layout.locations
        → b < length x.layout.locations → text_at x a ≡ text_at x b → way_of x a ≡ way_of x b }
    ensures laid { (s : Source) (x : Texts) (a b : ℕ) → places s ≡ Ok x.layout → NamesArePlain x
        → a < length x.layout.locations → b < length x.layout.locations → text_at x a ≡ text_at x b
        → way_of x a ≡ way_of x b }
{
    locations_are_right();
}
