//! What is found out about a function: the rows of its summary, the runs that are shown, its reports, and
//! its verdict. All of it is plain data, which contracts compare as it is.
#![tactic(auto)]

mod path;
mod report;
mod row;

pub use path::{Path, Root, Step};
pub use report::{Event, Report, Shown, Verdict, What};
pub use row::{Gives, Item, ItemRows, Row, State, Summary, Write};
