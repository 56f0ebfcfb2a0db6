//! How far a function of the plan has come. In the running database this is one word a function:
//! 0 for free, 1 for claimed, 2 for published.

/// How far the analysis of a function has come.
#[derive(Clone, Copy, Debug, PartialEq, Eq)]
pub enum Mark {
    /// No worker has taken the function yet.
    Free,
    /// The worker of this number analyses the function.
    Claimed(u32),
    /// The summary of the function is there for all to read, and never changes again.
    Published,
}
