// The store and the trace of a run. The first half of the slots has the values of the locations, the other half their
// states.

ghost use Rattle.std.specs.Prelude.{◌≡◌, ◌<◌, ◌≤◌, vec_capacity, length, true, Ok};
ghost use Rattle.run_store.specs.Concrete as store;
ghost use Rattle.sc_world.specs.World as spec;
ghost use Rattle.run_world.specs.Seen as seen;

use crate::Value;
use run_store::Flag;
use sc_base::Pos;
use sc_world::Reason;
use sum_rows::{Event, What};

/// How a run ends before its function does.
#[derive(Clone, Copy, Debug, PartialEq, Eq)]
pub enum Ended {
    /// With an error at a location that callers know.
    Error(u32),
    /// With an error at another location.
    Inner(u32),
    /// Set aside.
    Aside(Reason),
}

/// What happened to a location.
#[derive(Clone, Copy, Debug, PartialEq, Eq)]
pub struct Marks {
    pub touched: bool,
    pub written: bool,
    pub allocated: bool,
    pub freed: bool,
    pub escaped: bool,
}

impl Marks {
    /// Nothing happened.
    pub fn none() -> Marks
        ensures { seen.marks result ≡ spec.no_marks }
    {
        Marks {
            touched: false,
            written: false,
            allocated: false,
            freed: false,
            escaped: false,
        }
    }

    /// Whether this happened.
    pub fn has(self, flag: Flag) -> bool
        ensures { result ≡ store.flag_of (seen.marks self) flag }
    {
        match flag {
            Flag::Touched => self.touched,
            Flag::Written => self.written,
            Flag::Allocated => self.allocated,
            Flag::Freed => self.freed,
            Flag::Escaped => self.escaped,
        }
    }

    /// The marks with this one too.
    pub fn with(self, flag: Flag) -> Marks
        ensures { seen.marks result ≡ store.with_flag (seen.marks self) flag true }
    {
        match flag {
            Flag::Touched => Marks {
                touched: true,
                ..self
            },
            Flag::Written => Marks {
                written: true,
                ..self
            },
            Flag::Allocated => Marks {
                allocated: true,
                ..self
            },
            Flag::Freed => Marks {
                freed: true,
                ..self
            },
            Flag::Escaped => Marks {
                escaped: true,
                ..self
            },
        }
    }
}

/// A cell and what happened to it.
#[derive(Clone, Copy, Debug, PartialEq, Eq)]
pub struct Slot {
    pub value: Value,
    pub marks: Marks,
}

/// The store and the trace of a run.
#[derive(Drop)]
pub struct World {
    pub slots: Vec<Slot>,
    pub trace: Vec<Event>,
}

impl World {
    /// What the cell holds; nothing past the end.
    #[tactic(auto, unfolding(crate::specs::Seen::world))]
    pub fn load(&self, at: usize) -> Value
        ensures { spec.load at (seen.world self.now) ≡ (Ok (seen.cell result), seen.world self.now) }
    {
        if at < self.slots.len() {
            self.slots[at].value
        } else {
            Value::Nothing
        }
    }

    /// Whether the mark is there; no past the end.
    #[tactic(auto, unfolding(crate::specs::Seen::world))]
    pub fn has_mark(&self, at: usize, flag: Flag) -> bool
        ensures { spec.has_mark at flag (seen.world self.now) ≡ (Ok result, seen.world self.now) }
    {
        if at < self.slots.len() {
            self.slots[at].marks.has(flag)
        } else {
            false
        }
    }

    /// The cell holds the value from now on, if it is of its kind.
    #[tactic(auto, unfolding(crate::specs::Seen::world))]
    pub fn put(&mut self, at: usize, value: Value)
        ensures value { spec.put at (seen.cell value) (seen.world self.old) ≡ (Ok tt, seen.world self.new) }
        ensures trace { self.new.trace ≡ self.old.trace }
    {
        if at < self.slots.len() {
            let was = self.slots[at];
            self.slots[at] = Slot {
                value: was.value.overwritten(value),
                ..was
            };
        }
    }

    /// The mark is there from now on.
    #[tactic(auto, unfolding(crate::specs::Seen::world))]
    pub fn mark(&mut self, at: usize, flag: Flag)
        ensures mark { spec.mark at flag (seen.world self.old) ≡ (Ok tt, seen.world self.new) }
        ensures trace { self.new.trace ≡ self.old.trace }
    {
        if at < self.slots.len() {
            let was = self.slots[at];
            self.slots[at] = Slot {
                marks: was.marks.with(flag),
                ..was
            };
        }
    }

    /// The cell is written: its value, and the mark.
    pub fn store(&mut self, at: usize, value: Value)
        ensures value { spec.store at (seen.cell value) (seen.world self.old) ≡ (Ok tt, seen.world self.new) }
        ensures trace { self.new.trace ≡ self.old.trace }
    {
        self.put(at, value);
        self.mark(at, Flag::Written);
    }

    /// What happens next. There has to be room for it.
    #[tactic(auto, unfolding(crate::specs::Seen::world))]
    pub fn event(&mut self, pos: Pos, what: What)
        requires room { length self.old.trace.items < vec_capacity self.old.trace }
        ensures event { spec.event pos what (seen.world self.old) ≡ (Ok tt, seen.world self.new) }
        ensures room { vec_capacity self.old.trace ≤ vec_capacity self.new.trace }
    {
        let event = Event {
            line: pos.line,
            col: pos.col,
            what,
        };
        let _ = self.trace.push(event);
    }
}
