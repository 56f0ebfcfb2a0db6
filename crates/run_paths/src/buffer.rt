// What a known call has found, and the room for it.

ghost use Rattle.std.specs.Prelude.{◌≡◌, ◌<◌, ◌≤◌, ◌^◌, vec_capacity, IfOk};

use std::alloc::{AllocError, Global};
use sum_rows::Row;

/// An item that is not missing.
#[derive(Clone, Copy)]
pub struct Found<'p> {
    /// Its rows.
    pub rows: &'p [Row],
    /// The first bit of what the choice says of it.
    pub bit: u32,
    /// The object that comes with it.
    pub object: Option<u32>,
    /// The location.
    pub at: u32,
}

/// A written cell that is not missing.
#[derive(Clone, Copy, Debug, PartialEq, Eq)]
pub struct Written {
    /// Its bits; 0 for a pointer.
    pub width: u32,
    /// The first bit of what the choice says of it.
    pub bit: u32,
    /// The object that comes with it.
    pub object: Option<u32>,
    /// The location.
    pub at: u32,
}

/// Room for what a known call finds.
#[derive(Drop)]
pub struct Buffer<'p> {
    /// The locations.
    pub locks: Vec<Found<'p>>,
    /// The pointers that parameters point to.
    pub outs: Vec<Found<'p>>,
    /// The other written cells.
    pub writes: Vec<Written>,
    /// So many of each have room.
    pub most: usize,
    pub ghost small: { most < 2 ^ 32 },
    pub ghost room: { (most ≤ vec_capacity locks) × (most ≤ vec_capacity outs) × (most ≤ vec_capacity writes) },
}

impl<'p> Buffer<'p> {
    /// Room for so many of each. No memory has room for 2^32.
    pub fn reserve(alloc: Global, most: usize) -> Result<Buffer<'p>, AllocError>
        ensures { IfOk result (λ b. b.most ≡ most) }
    {
        if most > u32::MAX as usize {
            return Err(AllocError);
        }
        let locks = Vec::with_capacity(alloc, most)?;
        let outs = Vec::with_capacity(alloc, most)?;
        let writes = Vec::with_capacity(alloc, most)?;
        Ok(Buffer {
            locks,
            outs,
            writes,
            most,
        })
    }
}
