// A solver that learns from its conflicts: decisions, unit propagation over two watched literals a
// clause, and from each conflict a clause that is kept from question to question. What the answers
// rest on is proved: each clause that is learnt follows from those given, and each literal that is
// put as implied follows from what stands before it. Which literals are watched, which variable is
// decided, and which clauses are resolved are matters of speed; where an answer needs a fact of them
// it is tested. The clauses with their log are in `sat_clauses`, the trail with propagation and
// decisions in `sat_trail`.
#![tactic(auto)]

mod analyse;
mod backjump;
mod certify;
mod conflict;
mod reduce;
mod resolvent;
mod search;
mod solver;
mod state;
mod turn;
mod values;

pub use solver::Cdcl;
