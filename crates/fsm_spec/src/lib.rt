//! Finite-state machines that a user writes down in a file: the table of a machine, and its reader.
//!
//! A machine has a name, two to eight states and up to 64 operations. An operation is a C function; for
//! each state it leads to a state, or is an error there. `table` has the table and the questions that the
//! analysis asks of it, `reading` reads the table from the bytes of a file, line by line (`forms` has the
//! form of one line, `words` its words), and `lock` has the machine of locks as such a table.
#![tactic(auto)]

mod fault;
mod forms;
mod laws;
mod list;
mod lock;
mod reading;
mod table;
mod words;

pub use fault::{MachineAnswer, OutOfMemory};
pub use laws::{lock_file, state_numbers, whole_machines};
pub use list::List;
pub use lock::locks;
pub use reading::machine;
pub use table::{MachineSpec, Operation, Returns};
pub use words::Word;
