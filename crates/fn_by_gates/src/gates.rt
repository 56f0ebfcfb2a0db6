// The gates of a function.

use bit_net::Net;
use sat_base::Solver;

/// The gates of a function: the net, who makes the gates of questions in it, and a solver that has no clauses yet.
#[derive(Drop)]
pub struct Gates<G: Drop, S: Solver + Drop> {
    pub net: Net,
    pub questions: G,
    pub solver: S,
}
