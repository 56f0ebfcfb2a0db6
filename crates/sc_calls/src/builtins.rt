//! The names that mean a built-in function where they are called.

ghost use Rattle.std.specs.Prelude.{◌≡◌, map};
ghost use Rattle.std.specs.Option.{option_copied};
ghost use Rattle.sc_tree.specs.Tables.{named};
ghost use Rattle.sc_calls.specs.Builtins as spec;

use fsm_spec::MachineSpec;
use sc_rules::{Builtin, Given};

const LOCKS: [(&[u8], Builtin); 9] = [
    (b"spin_lock", Builtin::Nothing(Given::Pointer)),
    (b"mutex_lock", Builtin::Nothing(Given::Pointer)),
    (b"pthread_mutex_lock", Builtin::Int(Given::Pointer)),
    (b"spin_unlock", Builtin::Nothing(Given::Pointer)),
    (b"mutex_unlock", Builtin::Nothing(Given::Pointer)),
    (b"pthread_mutex_unlock", Builtin::Int(Given::Pointer)),
    (b"spin_trylock", Builtin::Int(Given::Pointer)),
    (b"mutex_trylock", Builtin::Int(Given::Pointer)),
    (b"pthread_mutex_trylock", Builtin::Int(Given::Pointer)),
];

const OTHERS: [(&[u8], Builtin); 15] = [
    (b"malloc", Builtin::Object(Given::Any)),
    (b"kmalloc", Builtin::Object(Given::Any)),
    (b"calloc", Builtin::Object(Given::Any)),
    (b"kzalloc", Builtin::Object(Given::Any)),
    (b"free", Builtin::Nothing(Given::Pointer)),
    (b"kfree", Builtin::Nothing(Given::Pointer)),
    (b"exit", Builtin::Nothing(Given::Any)),
    (b"_exit", Builtin::Nothing(Given::Any)),
    (b"abort", Builtin::Nothing(Given::Any)),
    (b"panic", Builtin::Nothing(Given::Any)),
    (b"__assert_fail", Builtin::Nothing(Given::Any)),
    (b"__builtin_expect", Builtin::Long(Given::Two)),
    (b"realloc", Builtin::Refused),
    (b"setjmp", Builtin::Refused),
    (b"sigsetjmp", Builtin::Refused),
];

// What the first row of that name means.
fn row_of(rows: &[(&[u8], Builtin)], name: &[u8]) -> Option<Builtin>
    ensures { result ≡ named (map (λ row. (row.0.now, row.1)) rows.now) name.now }
{
    for (word, meaning) in rows {
        if *word == name {
            return Some(*meaning);
        }
    }
    None
}

// An operation of a machine: its function takes a pointer first, and gives nothing or an `int` that is 0.
fn operation(zero: bool) -> Builtin
    ensures { result ≡ spec.operation zero }
{
    if zero {
        Builtin::Int(Given::Pointer)
    } else {
        Builtin::Nothing(Given::Pointer)
    }
}

// A built-in function on locks: without a machine one of nine, with one an operation of it.
fn lock_builtin(machine: Option<&MachineSpec>, name: &str) -> Option<Builtin>
    ensures { result ≡ spec.lock_builtin (option_copied machine.entry) name.now }
{
    match machine {
        None => row_of(&LOCKS, name.as_bytes()),
        Some(machine) => match machine.find(name) {
            None => None,
            Some(number) => Some(operation(machine.is_zero(number))),
        },
    }
}

/// The built-in function that a name means where it is called. With a machine its operations stand in place of
/// the nine names of locks.
pub fn builtin(machine: Option<&MachineSpec>, name: &str) -> Option<Builtin>
    ensures { result ≡ spec.builtin (option_copied machine.entry) name.now }
{
    match lock_builtin(machine, name) {
        None => row_of(&OTHERS, name.as_bytes()),
        Some(meaning) => Some(meaning),
    }
}
