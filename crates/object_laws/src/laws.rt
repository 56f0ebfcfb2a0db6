//! What the objects of a layout are.

ghost use Rattle.std.specs.Prelude.{◌≡◌, Ok};
ghost use Rattle.sc_world.specs.Source.{Source};
ghost use Rattle.sc_world.specs.Layout.{Layout};
ghost use Rattle.sc_world.specs.Places.{places};
ghost use Rattle.walk_laws.specs.Objects.{HasObjects};

/// In the layout of a function the object of each location is a location.
#[tactic(auto, using(crate::proofs::Layouts::objects))]
pub fn objects_are_locations()
    ensures { (s : Source) (p : Layout) → places s ≡ Ok p → HasObjects p }
{}
