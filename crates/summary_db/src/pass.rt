//! What a worker has of the database: its pass, and a job for each function that it has claimed.

use crate::{Knows, Work};
use atomic_table::Seat;
use std::sync::Arc;

/// A seat on the table of a database.
pub(crate) type DbSeat<W> = Seat<Option<Arc<<W as Work>::Out>>, Knows<Option<W>>>;

/// What a worker steps with. Contracts see of it what it stands for, `view pass`.
#[derive(Drop)]
pub struct Pass<W: Work> {
    pub(crate) seat: DbSeat<W>,
}

/// A function that a pass has claimed. It is seen as the function and the number of outputs that
/// it was asked for.
#[derive(Drop)]
pub struct Job<W: Work> {
    pub(crate) seat: DbSeat<W>,
    pub(crate) function: u32,
    pub(crate) asked: usize,
}

/// What became of an attempt to claim a function.
#[derive(Drop)]
pub enum Claim<W: Work> {
    /// The function was free and is claimed now.
    Claimed(Job<W>),
    /// The function's word was this, 1 for claimed or 2 for published.
    Taken(u64),
    /// This kept callee of the function was not published: its word was `found`.
    Waiting { callee: u32, found: u64 },
}

/// Whether a function is published.
#[derive(Clone, Copy, Debug, PartialEq, Eq, Drop)]
pub enum Seen {
    /// Its word was 2.
    Yes,
    /// Its word was this, 0 or 1.
    No(u64),
}
