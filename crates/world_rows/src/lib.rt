//! Worked rows: the definitions of `sc_world`, computed on small functions.
#![tactic(auto)]

mod rows;

pub use rows::{
    division, double_lock, fallthrough, freed, goto_leak, local_lock, long_lp64, out_kept,
    out_leak, parts, reach, taken, three_states, trylock, trylock_untold, two_calls, two_paths,
    two_turns,
};
