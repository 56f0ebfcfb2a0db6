// Where runs end by errors.

ghost use Rattle.std.specs.Prelude.{◌≡◌, ◌<◌, List, Bool, true, length};
ghost use Rattle.sc_world.specs.Source.{Source};
ghost use Rattle.sc_world.specs.Layout.{Layout};
ghost use Rattle.sc_world.specs.Exec.{run};
ghost use Rattle.error_laws.specs.Errors.{IsErrorOf, all_of_params};

/// A run that ends by an error ends at a location of its layout, and it is told whether callers know that location. The layout has a
/// location, or no call acts by a summary with an item of a location that is reached from a global.
pub fn errors_are_at_locations()
    ensures some { (s : Source) (p : Layout) (bits : List Bool) → 0 < length p.locations → IsErrorOf p (run s p bits).0 }
    ensures none { (s : Source) (p : Layout) (bits : List Bool) → all_of_params s p ≡ true → IsErrorOf p (run s p bits).0 }
{}
