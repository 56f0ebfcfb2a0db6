//! The tests of workers: runs of them, and in `database` the calls of a database one after another. They stand
//! in a crate of their own, so that `work_pool` and `summary_db` are proved once, without tests.
#![tactic(auto)]

#[cfg(test)]
mod database;
#[cfg(test)]
mod odd;
#[cfg(test)]
mod runs;
