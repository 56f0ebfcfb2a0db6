// Why a step gives nothing.

use sc_base::LimitKind;

/// Why nothing is gathered or laid out.
#[derive(Clone, Copy, Debug, PartialEq, Eq)]
pub enum Refused {
    /// The function passes this limit.
    Limit(LimitKind),
    /// Memory was asked for and refused.
    Memory,
}
