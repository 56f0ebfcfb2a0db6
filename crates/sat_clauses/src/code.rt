// A literal as one number, for the lists that propagation reads: it takes a quarter of the room.

use sat_base::Lit;

/// The number of a literal: its variable times two, and one more where it is negated.
#[derive(Clone, Copy, Debug, PartialEq, Eq)]
pub struct Code {
    number: u32,
}

/// The greatest variable that has a code of its own.
pub const LAST_VARIABLE: usize = (1 << 31) - 1;

impl Code {
    /// The code of a literal, whose variable is at most `LAST_VARIABLE`.
    pub fn of(lit: Lit) -> Code {
        let var = lit.var.min(LAST_VARIABLE) as u32;
        Code {
            number: if lit.neg { 2 * var + 1 } else { 2 * var },
        }
    }

    /// The literal of this code.
    pub fn lit(self) -> Lit {
        Lit {
            var: (self.number / 2) as usize,
            neg: self.number % 2 == 1,
        }
    }

    /// The code as an index into a table of all literals.
    pub fn index(self) -> usize {
        self.number as usize
    }
}
