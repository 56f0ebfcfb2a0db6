//! The machine of locks as a table, in the form of any other machine.
#![tactic(auto)]

ghost use Rattle.std.specs.Prelude.{◌≡◌, IfOk, true};
ghost use Rattle.fsm_spec.specs.Lock.{lock_operations, locking, locks, unlocking};
ghost use Rattle.fsm_spec.specs.Words.{is_word};

use crate::{List, MachineSpec, Operation, OutOfMemory, Returns, Word};
use std::alloc::Global;

/// The machine of locks: the name `lock`, the states U and L, and the six functions that lock and unlock.
#[tactic(auto, unfolding(crate::specs::Lock::locks, crate::specs::Words::is_word, crate::specs::Words::is_word_byte))]
pub fn locks(alloc: Global) -> Result<MachineSpec, OutOfMemory>
    ensures { IfOk result (λ machine. machine ≡ locks) }
{
    let name = Word::of(alloc, b"lock")?;
    let mut states = List::new(alloc);
    states.push(Word::of(alloc, b"U")?)?;
    states.push(Word::of(alloc, b"L")?)?;
    let operations = operations(alloc)?;
    Ok(MachineSpec {
        name,
        states,
        operations,
    })
}

/// The six operations.
#[tactic(auto, unfolding(crate::specs::Words::is_word, crate::specs::Words::is_word_byte))]
fn operations(alloc: Global) -> Result<List<Operation>, OutOfMemory>
    ensures { IfOk result (λ operations. operations ≡ lock_operations) }
{
    let mut operations = List::new(alloc);
    operations.push(locking(alloc, b"spin_lock", Returns::Nothing)?)?;
    operations.push(locking(alloc, b"mutex_lock", Returns::Nothing)?)?;
    operations.push(locking(alloc, b"pthread_mutex_lock", Returns::Zero)?)?;
    operations.push(unlocking(alloc, b"spin_unlock", Returns::Nothing)?)?;
    operations.push(unlocking(alloc, b"mutex_unlock", Returns::Nothing)?)?;
    operations.push(unlocking(alloc, b"pthread_mutex_unlock", Returns::Zero)?)?;
    Ok(operations)
}

/// An operation that leads from U to L, and is an error in L.
fn locking(alloc: Global, function: &[u8], returns: Returns) -> Result<Operation, OutOfMemory>
    requires { is_word function.now ≡ true }
    ensures { IfOk result (λ operation. operation ≡ locking function.now returns) }
{
    operation(alloc, function, returns, [Some(1), None])
}

/// An operation that is an error in U, and leads from L to U.
fn unlocking(alloc: Global, function: &[u8], returns: Returns) -> Result<Operation, OutOfMemory>
    requires { is_word function.now ≡ true }
    ensures { IfOk result (λ operation. operation ≡ unlocking function.now returns) }
{
    operation(alloc, function, returns, [None, Some(0)])
}

/// An operation with these targets from U and from L.
fn operation(
    alloc: Global,
    function: &[u8],
    returns: Returns,
    to: [Option<usize>; 2],
) -> Result<Operation, OutOfMemory>
    requires { is_word function.now ≡ true }
    ensures { IfOk result (λ operation. operation ≡ record { function = function.now; returns = returns; targets = to }) }
{
    let [from_unlocked, from_locked] = to;
    let mut targets = List::new(alloc);
    targets.push(from_unlocked)?;
    targets.push(from_locked)?;
    let function = Word::of(alloc, function)?;
    Ok(Operation {
        function,
        returns,
        targets,
    })
}
