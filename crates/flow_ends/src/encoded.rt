//! The runs of a function, as gates.

use crate::fates::Fates;
use gl_store::{Store, Val};

/// What becomes of the runs of a function, as gates whose inputs are the bits of the choice.
#[derive(Drop)]
pub struct Encoded {
    /// How runs end that do not come to the function's end.
    pub fates: Fates,

    /// Where the function ends: its store, the cells of all locations and their states behind them.
    pub store: Store,

    /// Where the function ends: what it gives.
    pub result: Val,
}
