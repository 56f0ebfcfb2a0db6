//! Machine files whose answers are known, each limit at its edge, and the files of `examples/machines`.

use fsm_spec::{MachineAnswer, MachineSpec, OutOfMemory, locks, machine};
use std::alloc::{AllocError, Global};

/// Interrupts with one level of nesting.
const NESTED: &[u8] =
    b"machine irq\nstates off on nested\nop irq_on void off>on on>nested nested>!\nop irq_off void off>! on>off nested>on\n";

/// The line that breaks the form, if one does.
fn broken_line(alloc: Global, bytes: &[u8]) -> Result<Option<u32>, OutOfMemory> {
    match machine(alloc, bytes) {
        Ok(_) => Ok(None),
        Err(MachineAnswer::Line(line)) => Ok(Some(line)),
        Err(MachineAnswer::OutOfMemory) => Err(OutOfMemory),
    }
}

fn is_nested(irq: &MachineSpec) -> bool {
    irq.name() == "irq"
        && irq.states() == 3
        && irq.state_name(1) == "on"
        && irq.operations() == 2
        && irq.find("irq_off") == Some(1)
        && irq.find("irq_o") == None
        && irq.target(0, 1) == Some(2)
        && irq.target(0, 2) == None
        && irq.on_any(1) == Some(0)
        && !irq.is_zero(0)
}

#[test]
fn a_machine_of_three_states(rt: HostRuntime) {
    let irq = machine(rt.alloc(), NESTED);
    assert!(rt; matches!(&irq, Ok(irq) if is_nested(irq)));
}

/// Lines that break the form: (the file, the number of the line).
const BROKEN: &[(&[u8], u32)] = &[
    // Missing lines, and files that end within a line.
    (b"", 1),
    (b"mach", 1),
    (b"machine ", 1),
    (b"machine m", 2),
    (b"machine m\nstat", 2),
    (b"machine m\nstates a ", 2),
    (b"machine m\nstates a b\n", 3),
    (b"machine m\nstates a b\nop f", 3),
    (b"machine m\nstates a b\nop f void", 3),
    (b"machine m\nstates a b\nop f void a>b b>", 3),
    (b"machine irq\nop irq_on void off>on on>!\n", 2),
    // Spaces, words and limits.
    (b"machine  m\n", 1),
    (b"machine m\r\n", 1),
    (b"machine 2m\n", 1),
    (b"machine !\n", 1),
    (b"machine a234567890123456789012345678901x\n", 1),
    (b"machine m\n\nstates a b\n", 2),
    (b"machine m\nstates a\n", 2),
    (b"machine m\nstates a b a\n", 2),
    (b"machine m\nstates 0 1 2 3 4 5 6 7\n", 2),
    (b"machine m\nstates a b c d e f g h i\n", 2),
    // Operations.
    (b"machine m\nstates a b\nop f void a>b b>c\n", 3),
    (b"machine m\nstates a b\nop f void b>a a>b\n", 3),
    (b"machine m\nstates a b\nop f void a>b  b>a\n", 3),
    (b"machine m\nstates a b\nop f int a>b b>a\n", 3),
    (
        b"machine m\nstates a b\nop f void a>b b>a\nop f zero a>a b>b\n",
        4,
    ),
    (
        b"machine m\nstates a b\nop f void a>b b>a\nop malloc void a>b b>a\n",
        4,
    ),
    (
        b"machine m\nstates a b\nop spin_trylock void a>b b>a\nop __builtin_expect zero a>b b>a\n",
        4,
    ),
    (b"machine m\nstates a b\nop f void a>b b>a\n\n", 4),
];

#[test]
fn lines_that_break_the_form(rt: HostRuntime) {
    for &(file, line) in BROKEN {
        assert!(rt; broken_line(rt.alloc(), file) == Ok(Some(line)));
    }
}

/// Files that have the form.
const WHOLE: &[&[u8]] = &[
    b"machine m\nstates a b\nop f void a>b b>a",
    b"machine a234567890123456789012345678901\nstates a b\nop f void a>! b>!\n",
    b"machine m\nstates a b c d e f g h\nop f zero a>a b>a c>a d>a e>a f>a g>a h>a\n",
    b"machine m\nstates a b\nop spin_lock void a>b b>a\nop realloc void a>b b>a\n",
];

#[test]
fn files_at_the_edge_of_the_form(rt: HostRuntime) {
    for file in WHOLE {
        assert!(rt; broken_line(rt.alloc(), file) == Ok(None));
    }
}

/// A file with this many operations.
fn with_operations(alloc: Global, count: u32) -> Result<String, AllocError> {
    let mut text = String::from_str(alloc, "machine m\nstates a b\n")?;
    for i in 0..count {
        let line = format!(in alloc; "op f{i} void a>b b>a\n")?;
        text.push_str(line.as_str())?;
    }
    Ok(text)
}

/// The line that breaks the form in a file with this many operations.
fn broken_of(alloc: Global, count: u32) -> Result<Option<u32>, OutOfMemory> {
    let text = with_operations(alloc, count)?;
    broken_line(alloc, text.as_str().as_bytes())
}

#[test]
fn sixty_four_operations(rt: HostRuntime) {
    assert!(rt; broken_of(rt.alloc(), 64) == Ok(None));
    assert!(rt; broken_of(rt.alloc(), 65) == Ok(Some(67)));
}

/// The line that breaks the form in a file of one line of eight mebibytes.
fn broken_of_a_long_line(alloc: Global) -> Result<Option<u32>, OutOfMemory> {
    let line = vec![in alloc; b'a'; 8 * 1024 * 1024]?;
    broken_line(alloc, line.as_slice())
}

#[test]
fn a_line_of_eight_mebibytes(rt: HostRuntime) {
    assert!(rt; broken_of_a_long_line(rt.alloc()) == Ok(Some(1)));
}

/// The files of `examples/machines`: (the text of the file, a function, a state in which it is an error).
const EXAMPLES: &[(&[u8], &str, usize)] = &[
    (
        b"machine irq\nstates on off\nop local_irq_disable void on>off off>!\nop local_irq_enable void on>! off>on\n",
        "local_irq_disable",
        1,
    ),
    (
        b"machine preempt\nstates depth0 depth1 depth2 depth3\nop preempt_disable void depth0>depth1 depth1>depth2 depth2>depth3 depth3>!\nop preempt_enable void depth0>! depth1>depth0 depth2>depth1 depth3>depth2\n",
        "preempt_enable",
        0,
    ),
    (
        b"machine rcu\nstates depth0 depth1 depth2 depth3\nop rcu_read_lock void depth0>depth1 depth1>depth2 depth2>depth3 depth3>!\nop rcu_read_unlock void depth0>! depth1>depth0 depth2>depth1 depth3>depth2\n",
        "rcu_read_lock",
        3,
    ),
    (
        b"machine gmutex\nstates unlocked locked\nop g_mutex_lock void unlocked>locked locked>!\nop g_mutex_unlock void unlocked>! locked>unlocked\n",
        "g_mutex_unlock",
        0,
    ),
    (
        b"machine rwlock\nstates free read write\nop pthread_rwlock_rdlock zero free>read read>read write>!\nop pthread_rwlock_wrlock zero free>write read>! write>!\nop pthread_rwlock_unlock zero free>! read>free write>free\n",
        "pthread_rwlock_wrlock",
        2,
    ),
    (
        b"machine file\nstates open closed\nop fflush zero open>open closed>!\nop rewind void open>open closed>!\nop clearerr void open>open closed>!\nop fclose zero open>closed closed>!\n",
        "fclose",
        1,
    ),
    (
        b"machine lock\nstates U L\nop spin_lock void U>L L>!\nop mutex_lock void U>L L>!\nop pthread_mutex_lock zero U>L L>!\nop spin_unlock void U>! L>U\nop mutex_unlock void U>! L>U\nop pthread_mutex_unlock zero U>! L>U\n",
        "pthread_mutex_unlock",
        0,
    ),
];

/// Whether that function, which the machine has, is an error in that state.
fn is_error(machine: &MachineSpec, function: &str, state: usize) -> bool {
    match machine.find(function) {
        Some(op) => machine.target(op, state) == None,
        None => false,
    }
}

#[test]
fn the_example_files(rt: HostRuntime) {
    for &(file, function, state) in EXAMPLES {
        let found = machine(rt.alloc(), file);
        let holds = matches!(&found, Ok(machine) if is_error(machine, function, state));
        assert!(rt; holds, "{function}");
    }
}

/// A machine of its own for the nine names of locks.
const NINE: &[u8] =
    b"machine m\nstates a b\nop spin_lock void a>b b>a\nop mutex_lock void a>b b>a\nop pthread_mutex_lock zero a>b b>a\nop spin_unlock void a>b b>a\nop mutex_unlock void a>b b>a\nop pthread_mutex_unlock zero a>b b>a\nop spin_trylock void a>b b>!\nop mutex_trylock zero a>b b>a\nop pthread_mutex_trylock zero a>b b>a\n";

fn has_nine(nine: &MachineSpec) -> bool {
    nine.operations() == 9
        && nine.find("spin_trylock") == Some(6)
        && nine.target(6, 0) == Some(1)
        && nine.target(6, 1) == None
        && !nine.is_zero(6)
        && nine.find("pthread_mutex_trylock") == Some(8)
        && nine.is_zero(8)
}

#[test]
fn operations_on_all_names_of_locks(rt: HostRuntime) {
    let nine = machine(rt.alloc(), NINE);
    assert!(rt; matches!(&nine, Ok(nine) if has_nine(nine)));
}

#[test]
fn the_machine_of_locks(rt: HostRuntime) {
    let locks = locks(rt.alloc());
    assert!(rt; matches!(&locks, Ok(locks) if locks.find("mutex_unlock") == Some(4)));
}
