// What every other crate of the checker stands on: positions and names in a source text, the two
// errors that come from outside, the lists that contracts compare, the kinds of skips, and the
// outside itself: files that are read and sinks that are written to, each once as the real thing
// and once in memory. The definitions of `specs/` that all programs share say what was read, what
// went to a sink, and when a call may fail.
#![tactic(auto)]

pub mod boxed;
pub mod fault;
pub mod files;
pub mod keyed;
pub mod list;
pub mod mem_files;
pub mod mem_sink;
pub mod names;
pub mod numbers;
pub mod pos;
pub mod real;
pub mod rows;
pub mod sink;
pub mod skip;

pub use boxed::Boxed;
pub use fault::{Failed, OutOfMemory};
pub use files::Files;
pub use keyed::Keyed;
pub use list::List;
pub use mem_files::MemFiles;
pub use mem_sink::MemSink;
pub use names::Names;
pub use numbers::Numbers;
pub use pos::{NameId, Pos};
pub use real::{RealFiles, RealSink};
pub use rows::RowList;
pub use sink::Sink;
pub use skip::{IllTyped, LimitKind, Skip, Unsupported};
