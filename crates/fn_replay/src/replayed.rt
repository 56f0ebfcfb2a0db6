// What a replay gives.

ghost use Rattle.std.specs.Prelude.{◌≡◌};

/// What a replay of a function gives.
#[derive(Debug, Drop)]
pub enum Replayed {
    /// The function is skipped.
    Skipped,
    /// No choice of the function is spelled so.
    BadChoice,
    /// The run, in the form that was asked for.
    Told(Vec<u8>),
}
