//! The text of a certificate: a formula in DIMACS CNF, the line `c drat`, and the steps of a DRAT proof. `read`
//! gives the certificate that the bytes of a file spell, or the line that breaks the form.
#![tactic(auto)]

mod certificate;
mod expecting;
mod fault;
mod laws;
mod numbers;
mod parts;
mod reading;
mod writing;

pub use certificate::Certificate;
pub use fault::ReadError;
pub use laws::written_is_read_back;
pub use reading::read;
pub use writing::{write, write_parts};
