// The clauses of a learning solver: those given and those learnt, by names that stay; a log of the learnt
// ones, for a certificate; and lists by which propagation finds the clauses of a literal. Each learnt clause
// follows from those given. What the log shows is proved with it; nothing rests on the lists.
#![tactic(auto)]

mod code;
mod held;
mod learnt;
mod watch;

pub use code::{Code, LAST_VARIABLE};
pub use held::{ClauseId, Clauses};
pub use watch::{Pair, Short, Watch, Watches};
