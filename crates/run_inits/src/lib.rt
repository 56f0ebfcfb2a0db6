//! Declarations of a run (C11 6.7, 6.7.9): what initialisers do, and expressions as statements use them.
//!
//! `space` has the room beside the world, `evaluating` an expression in a statement, `parts` the part that a value in
//! braces sets, `lookup` parts of locations, `cells` the cells of an object, `stores` the stores of braces, `braces` their
//! values, and `declaring` declarations. Nothing here takes memory but the reserving of room.
#![tactic(auto)]

mod braces;
mod cells;
mod declaring;
mod evaluating;
mod lookup;
mod parts;
mod space;
mod stores;

pub use cells::blank;
pub use declaring::declarators;
pub use evaluating::evaluate;
pub use space::Space;
pub use stores::Store;
