//! A gate for every question to the runs of a function.
//!
//! `kinds` has the kinds of pointers at the function's end, `rows` the rows that tell what became of objects and pointers, `erring` whether
//! runs end by errors at locations alone, `facts` what is known of a function before questions, `asking` the gates of questions, and
//! `answering` that they are those by which questions are answered.
#![tactic(auto)]

mod answering;
mod asking;
mod erring;
mod facts;
mod kinds;
mod rows;

pub use facts::Facts;
