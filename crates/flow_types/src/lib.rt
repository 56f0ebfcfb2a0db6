//! What the temps of the unrolled graph of a function keep. Laws alone.
#![tactic(auto)]

mod laws;

pub use laws::temps_are_of_one_type;
