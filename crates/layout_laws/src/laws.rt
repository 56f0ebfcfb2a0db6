// What the layout of a function has.

ghost use Rattle.std.specs.Prelude.{◌≡◌, Ok};
ghost use Rattle.sc_world.specs.Source.{Source};
ghost use Rattle.sc_world.specs.Gather.{gather_function, nothing_found};
ghost use Rattle.sc_world.specs.Layout.{Layout};
ghost use Rattle.sc_world.specs.Places.{places};
ghost use Rattle.layout_laws.specs.Origins.{IsLaidFor, found_in};

/// In the layout of a function each location has the type that its origin has: that of the parameter, the global or the
/// local; of a part that of the member or the element of what it is a part of; of what a pointer points to, unless it is
/// a stub, what the pointer's type says; strings and functions are stubs. Each array has the elements that are shown, and
/// each struct the members that the text names. All parameters and locals are there, the globals that the text names,
/// and its strings and functions.
#[tactic(auto, using(crate::proofs::Right::right))]
pub fn locations_are_right()
    ensures { (s : Source) (p : Layout) → places s ≡ Ok p
        → IsLaidFor s (found_in (gather_function s nothing_found)) p.locations }
{}
