//! The table of a machine, and the questions that are asked of it. None of them takes memory.
#![tactic(auto)]

ghost use Rattle.std.specs.Prelude.{◌≡◌, ◌<◌, length, slice_get, Some};
ghost use Rattle.fsm_spec.specs.Table.{first_target};

use crate::{List, Word};

/// What the function of an operation returns.
#[derive(Clone, Copy, Debug, PartialEq, Eq)]
pub enum Returns {
    /// Nothing: the word `void`.
    Nothing,
    /// An `int` that is 0: the word `zero`.
    Zero,
}

/// One operation: a C function, and what a call of it does to a location's state.
#[derive(Debug, Drop)]
pub struct Operation {
    /// The function's name.
    pub function: Word,
    /// What the function returns.
    pub returns: Returns,
    /// For each state, in their order, the number of the state to which the operation leads from there;
    /// `None` where it is an error.
    pub targets: List<Option<usize>>,
}

/// A finite-state machine.
#[derive(Debug, Drop)]
pub struct MachineSpec {
    /// The machine's name.
    pub name: Word,
    /// The names of the states. A state's number is its place here, counted from 0.
    pub states: List<Word>,
    /// The operations. An operation's number is its place here, counted from 0.
    pub operations: List<Operation>,
}

impl MachineSpec {
    ghost use Rattle.fsm_spec.specs.Table.{find_in, on_any, returns_zero, target_of};

    /// The machine's name.
    pub fn name(&self) -> &str
        ensures { result.now ≡ self.now.name }
    {
        self.name.as_str()
    }

    /// How many states it has.
    pub fn states(&self) -> usize
        ensures { result ≡ length self.now.states }
    {
        self.states.len()
    }

    /// How many operations it has.
    pub fn operations(&self) -> usize
        ensures { result ≡ length self.now.operations }
    {
        self.operations.len()
    }

    /// The name of the state with this number, which is in range.
    pub fn state_name(&self, state: usize) -> &str
        requires { state < length self.now.states }
        ensures { Some result.now ≡ slice_get self.now.states state }
    {
        self.states.as_slice()[state].as_str()
    }

    /// The number of the operation with this function. `None` where no operation has it.
    pub fn find(&self, name: &str) -> Option<usize>
        ensures { result ≡ find_in self.now name.now }
    {
        let operations = self.operations.as_slice();
        operations
            .iter()
            .position(|operation| operation.function.is(name.as_bytes()))
    }

    /// The number of the state to which an operation leads from a state. `None` where the operation is an
    /// error there; also where there is no operation or state with this number.
    pub fn target(&self, op: usize, state: usize) -> Option<usize>
        ensures { result ≡ target_of self.now op state }
    {
        let operation = self.operations.as_slice().get(op)?;
        *operation.targets.as_slice().get(state)?
    }

    /// The number of the state to which an operation leads where the state is not known: the first target
    /// that is no error, in the order of the states. `None` where each is an error.
    pub fn on_any(&self, op: usize) -> Option<usize>
        ensures { result ≡ on_any self.now op }
    {
        let operation = self.operations.as_slice().get(op)?;
        first_target(operation.targets.as_slice())
    }

    /// Whether the function of an operation returns an `int` that is 0; also `false` where there is no
    /// operation with this number.
    pub fn is_zero(&self, op: usize) -> bool
        ensures { result ≡ returns_zero (slice_get self.now.operations op) }
    {
        match self.operations.as_slice().get(op) {
            None => false,
            Some(operation) => operation.returns == Returns::Zero,
        }
    }
}

/// The first target that is no error.
fn first_target(targets: &[Option<usize>]) -> Option<usize>
    ensures { result ≡ first_target targets.now }
{
    for target in targets {
        if let Some(state) = target {
            return Some(*state);
        }
    }
    None
}
