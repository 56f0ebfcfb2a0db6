//! Graphs of small functions, read and counted by hand.

ghost use Rattle.fsm_spec.specs.Table.{IsWhole};

use crate::setting::{Given, checked, context, machine};
use crate::told::text_of;
use fsm_spec::MachineSpec;
use sc_base::OutOfMemory;
use sc_flow::unroll;
use sc_typed::Program;
use std::alloc::Global;

/// What the function gives, its statements, how often a loop turns, and the graph. Behind each loop stands the test
/// behind its last turn, and the run that is set aside there.
const ROWS: &[(&str, &str, u32, &str)] = &[
    (
        "void",
        "h(l); if (i) h(l);",
        8,
        "k1 f2,0 k3 b5,4 -8 +6 k7 f8,0 }9 x ",
    ),
    (
        "int",
        "if (i) f(); else return 1;",
        8,
        "k1 b3,2 -4 +7 k5 r6 v f8,0 }9 x ",
    ),
    (
        "void",
        "while (1) ;",
        1,
        "k1 b3,2 <9 >4 k5 b7,6 <9 >8 a }10 x ",
    ),
    (
        "int",
        "while (1) return i;",
        1,
        "k1 b3,2 <12 >4 k5 r6 v k8 b10,9 <12 >11 a }13 x ",
    ),
    (
        "void",
        "do f(); while (i);",
        1,
        "f1,0 k2 b4,3 <6 >5 a }7 x ",
    ),
    (
        "void",
        "do do f(); while (i); while (i);",
        2,
        "f1,0 k2 b4,3 <11 >5 f6,1 k7 b9,8 <11 >10 a \
         k12 b14,13 <31 >15 f16,2 k17 b19,18 <26 >20 f21,3 k22 b24,23 <26 >25 a \
         k27 b29,28 <31 >30 a }32 x ",
    ),
    (
        "void",
        "for (i = 0; i < 2; i++) { if (i) continue; f(); }",
        1,
        "k1 k2 b4,3 <16 >5 k6 b8,7 -9 +10 f10,0 k11 k12 b14,13 <16 >15 a }17 x ",
    ),
    (
        "void",
        "while (i) switch (i) { case 1: f(); default: break; case 2: return; }",
        1,
        "k1 b3,2 <16 >4 k5 w6 e8,7 e9,11 f11,0 r10 x k12 b14,13 <16 >15 a }17 x ",
    ),
    (
        "void",
        "{ { if (i) goto out; } f(); } f(); out: f();",
        8,
        "k1 b3,2 -5 +4 g7 f6,0 f7,0 f8,0 }9 x ",
    ),
    (
        "void",
        "if (i && f()) return;",
        8,
        "k1 b2,4 f3,0 b5,4 -8 +6 r7 x }9 x ",
    ),
    (
        "void",
        "i = i || f();",
        8,
        "p1 k2 b6,3 f4,0 b6,5 k7 k7 k8 }9 x ",
    ),
    ("void", "i ? f() : 1;", 8, "k1 b3,2 k4 f4,0 }5 x "),
    ("void", "i += f();", 8, "p1 k2 f3,0 u4 }5 x "),
    ("void", "(*l)();", 8, "k1 f2,0 }3 x "),
    (
        "void",
        "int a = 1; int b = f(); int c[2] = {1, f()};",
        8,
        "s1 f2,0 s3 c4 f5,0 c6 i7 }8 x ",
    ),
];

// The file of the function, with what it calls.
fn file_of(alloc: Global, gives: &str, statements: &str) -> Result<String, OutOfMemory> {
    let mut text = String::from_str(alloc, "int f();void h();")?;
    text.push_str(gives)?;
    text.push_str(" g(void(*l)(void),int n,int i){")?;
    text.push_str(statements)?;
    text.push_str("}")?;
    Ok(text)
}

// The program of that file.
fn program_of(alloc: Global, gives: &str, statements: &str) -> Option<Program> {
    match file_of(alloc, gives, statements) {
        Ok(text) => checked(alloc, text.as_str()),
        Err(_) => None,
    }
}

fn given(program: &Program) -> Given<'_> {
    Given {
        program,
        function: 0,
        kept: &[],
        verdicts: &[],
    }
}

// Whether this is the graph of the program's function, with loops that turn so often.
fn is_graph(
    alloc: Global,
    program: &Program,
    machine: &MachineSpec,
    depth: u32,
    graph: &str,
) -> bool
    requires { IsWhole machine.now }
{
    let Ok(flow) = unroll(alloc, &context(given(program), machine, depth)) else {
        return false;
    };
    match text_of(alloc, &flow) {
        Ok(text) => text.as_str() == graph,
        Err(_) => false,
    }
}

// The same of a row.
fn is_row(alloc: Global, gives: &str, statements: &str, depth: u32, graph: &str) -> bool {
    let Ok(machine) = machine(alloc) else {
        return false;
    };
    match program_of(alloc, gives, statements) {
        Some(program) => is_graph(alloc, &program, &machine, depth, graph),
        None => false,
    }
}

#[test]
fn graphs_are_as_read_by_hand(rt: HostRuntime) {
    for &(gives, statements, depth, graph) in ROWS {
        assert!(rt;
            is_row(rt.alloc(), gives, statements, depth, graph),
            "{statements}"
        );
    }
}

/// Ten nodes stand once. A turn has its test of two nodes and two events, the condition of the `if` in as many, the call
/// of two, and the step.
const TURNS: &str = "h(l); for (i = 0; i < n; i++) if (i == 2) h(l);";

// How many nodes the graph has, with loops that turn so often.
fn nodes(alloc: Global, program: &Program, machine: &MachineSpec, depth: u32) -> usize
    requires { IsWhole machine.now }
{
    match unroll(alloc, &context(given(program), machine, depth)) {
        Ok(flow) => flow.nodes.len(),
        Err(_) => 0,
    }
}

// Whether it has eleven more for each turn, for one to eight.
fn has_eleven_a_turn(alloc: Global, program: &Program, machine: &MachineSpec) -> bool
    requires { IsWhole machine.now }
{
    for depth in 1u32..9 {
        if nodes(alloc, program, machine, depth) != 10 + 11 * depth as usize {
            return false;
        }
    }
    true
}

fn turns_have_eleven_nodes(alloc: Global) -> bool {
    let Ok(machine) = machine(alloc) else {
        return false;
    };
    match program_of(alloc, "void", TURNS) {
        Some(program) => has_eleven_a_turn(alloc, &program, &machine),
        None => false,
    }
}

#[test]
fn each_turn_has_eleven_nodes(rt: HostRuntime) {
    assert!(rt; turns_have_eleven_nodes(rt.alloc()));
}
