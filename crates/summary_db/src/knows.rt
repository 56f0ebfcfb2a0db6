//! What a pass stands for. It is known to proofs alone: no value of it is made.

use std::collections::LinkedList;

/// What a pass stands for: the plan and the work of its database (T is an optional work), the
/// functions that it has claimed, abandoned and published, the functions that it saw published,
/// whether it saw the stop word set, and the place and the word that it found last, with a count of
/// how often it found one.
pub struct Knows<T> {
    pub rows: LinkedList<LinkedList<u64>>,
    pub work: T,
    pub jobs: LinkedList<u64>,
    pub claims: LinkedList<u64>,
    pub gone: LinkedList<u64>,
    pub done: LinkedList<u64>,
    pub seen: LinkedList<u64>,
    pub stopped: bool,
    pub place: u64,
    pub word: u64,
    pub finds: u64,
}
