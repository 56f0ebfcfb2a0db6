//! The places of the database: one for each kept edge of the plan, and one for each result.

/// Where one output lies on its way from its giver, the function that publishes it, to its taker,
/// the function that is given it. A result is taken by the reader of the database, which stands
/// behind the last function of the plan and is never claimed.
#[derive(Clone, Copy, Drop)]
pub struct Place {
    pub taker: u32,
    pub giver: u32,
}
