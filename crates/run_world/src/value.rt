// What a cell holds.

ghost use Rattle.std.specs.Prelude.{◌≡◌};
ghost use Rattle.run_store.specs.Concrete as store;
ghost use Rattle.sc_world.specs.World as spec;
ghost use Rattle.sc_world.specs.Eval as eval;
ghost use Rattle.run_world.specs.Seen as seen;

/// What a cell holds.
#[derive(Clone, Copy, Debug, PartialEq, Eq)]
pub enum Value {
    /// A number of that many bits.
    Number(u32, u64),
    /// A pointer to the location with that number, or null.
    Pointer(Option<u32>),
    /// Nothing: there is no cell.
    Nothing,
}

impl Value {
    /// Whether it is neither 0 nor null.
    pub fn is_true(self) -> bool
        ensures { result ≡ spec.is_true (seen.cell self) }
    {
        match self {
            Value::Number(_, n) => n != 0,
            Value::Pointer(at) => at.is_some(),
            Value::Nothing => false,
        }
    }

    /// The number; 0 of what is none.
    pub fn number(self) -> u64
        ensures { result ≡ spec.number_of (seen.cell self) }
    {
        match self {
            Value::Number(_, n) => n,
            Value::Pointer(_) | Value::Nothing => 0,
        }
    }

    /// The location to which it points; none of null and of what is no pointer.
    pub fn location(self) -> Option<u32>
        ensures { seen.target result ≡ spec.target_of (seen.cell self) }
    {
        match self {
            Value::Pointer(at) => at,
            Value::Number(_, _) | Value::Nothing => None,
        }
    }

    /// The location that a place is; 0 of null and of what is no pointer.
    pub fn place(self) -> u32
        ensures { result ≡ eval.place_of (seen.cell self) }
    {
        match self.location() {
            None => 0,
            Some(at) => at,
        }
    }

    /// The new value where it is of the kind of the old one, else the old one.
    pub fn overwritten(self, new: Value) -> Value
        ensures { seen.cell result ≡ store.put (seen.cell self) (seen.cell new) }
    {
        match (self, new) {
            (Value::Number(bits, _), Value::Number(other, _)) => {
                if bits == other { new } else { self }
            }
            (Value::Pointer(_), Value::Pointer(_)) => new,
            _ => self,
        }
    }
}
