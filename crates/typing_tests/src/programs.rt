//! Programs of two files, and those of which no program is made.

use crate::found::{both, typed};
use sc_base::{IllTyped, LimitKind, OutOfMemory, Pos, Skip};
use sc_check::CheckAnswer;
use sc_tree::ctype::Widths;
use sc_typed::Program;
use std::alloc::Global;

// What is answered for two files: how many functions there are, whether the one with two bodies is `f`, or how many
// are too many.
#[derive(Clone, Copy, PartialEq, Eq)]
enum Answer {
    Functions(usize),
    Duplicate(bool),
    TooMany(u64),
    Other,
}

fn answer_of(answer: Result<Program, CheckAnswer>) -> Answer {
    match answer {
        Ok(program) => Answer::Functions(program.functions.len()),
        Err(CheckAnswer::Duplicate(names, id)) => {
            let known = (id.at as usize) < names.len();
            Answer::Duplicate(known && names.text(id) == "f")
        }
        Err(CheckAnswer::Limit(LimitKind::Functions, count)) => Answer::TooMany(count),
        Err(_) => Answer::Other,
    }
}

fn answered(alloc: Global, first: &str, second: &str) -> Option<Answer> {
    Some(answer_of(typed(alloc, Widths::Ilp32, &[first, second], None)?))
}

/// Two files, and what is answered for them.
const BODIES: &[(&str, &str, Answer)] = &[
    ("void f(void){}", "void f(void){}", Answer::Duplicate(true)),
    ("void f(void){}void f(void){}", "", Answer::Duplicate(true)),
    (
        "static void f(void){}void f(void){}",
        "",
        Answer::Duplicate(true),
    ),
    (
        "void g(void){}void f(void){}",
        "void f(void){}void g(void){}",
        Answer::Duplicate(true),
    ),
    (
        "static void f(double);void f(_Bool x){}",
        "void f(_Bool x){}",
        Answer::Duplicate(true),
    ),
    (
        "static void f(void){}",
        "static void f(void){}",
        Answer::Functions(2),
    ),
    (
        "static void f(void){}",
        "void f(void){}",
        Answer::Functions(2),
    ),
    (
        "static void f(void);void f(void){}",
        "void f(void){}",
        Answer::Functions(2),
    ),
    (
        "inline void f(void){}",
        "void f(void){}",
        Answer::Functions(2),
    ),
];

#[test]
fn a_function_has_one_body(rt: HostRuntime) {
    for &(first, second, want) in BODIES {
        let found = answered(rt.alloc(), first, second);
        assert!(rt; found == Some(want), "{first} {second}");
    }
}

// 4,096 functions of different names.
fn many_functions(alloc: Global) -> Result<String, OutOfMemory> {
    let mut text = String::new(alloc);
    for number in 0..4096 {
        let function = format!(in alloc; "void g{number}(void){{}}")?;
        text.push_str(function.as_str())?;
    }
    Ok(text)
}

/// A second file beside that of 4,096 functions, and what is answered for both.
const MORE: &[(&str, Answer)] = &[
    ("void f(void);", Answer::Functions(4096)),
    ("static void f(void){x;}", Answer::TooMany(4097)),
    ("void f(void){}void f(void){}", Answer::Duplicate(true)),
];

fn answered_beside_many(alloc: Global, second: &str) -> Option<Answer> {
    let first = many_functions(alloc).ok()?;
    answered(alloc, first.as_str(), second)
}

#[test]
fn a_program_has_4096_functions(rt: HostRuntime) {
    for &(second, want) in MORE {
        let found = answered_beside_many(rt.alloc(), second);
        assert!(rt; found == Some(want), "{second}");
    }
}

#[test]
fn a_global_is_one_over_files(rt: HostRuntime) {
    let one = both(
        rt.alloc(),
        "extern int a[];int f(void){return a[1];}",
        "int a[3];",
    );
    assert!(rt; matches!(one, Some(found) if found.length == Some(3) && found.globals == 1));
    let two = both(rt.alloc(), "static int a[2];", "static int a[3];");
    assert!(rt; matches!(two, Some(found) if found.globals == 2));
}

#[test]
fn each_file_has_its_structs(rt: HostRuntime) {
    let own = both(
        rt.alloc(),
        "struct s{int a;};int f(struct s*p){return p->a;}",
        "struct s{int b;};int g(struct s*p){return p->b;}",
    );
    assert!(rt; matches!(own, Some(found) if found.structs == 2 && found.skip == None));
    let other = both(
        rt.alloc(),
        "struct s{int a;};int f(struct s*p){return p->a;}",
        "struct s{int b;};int g(struct s*p){return p->a;}",
    );
    let (kind, pos) = (
        IllTyped::Field,
        Pos {
            file: 1,
            line: 1,
            col: 46,
        },
    );
    let want = Some(Skip::IllTyped { kind, pos });
    assert!(rt; matches!(other, Some(found) if found.skip == want));
}

#[test]
fn the_names_of_a_file_end_with_it(rt: HostRuntime) {
    let found = both(
        rt.alloc(),
        "struct s{int a;};int x;",
        "struct s;int f(void){return x;}",
    );
    let (kind, pos) = (
        IllTyped::Name,
        Pos {
            file: 1,
            line: 1,
            col: 29,
        },
    );
    let want = Some(Skip::IllTyped { kind, pos });
    assert!(rt; matches!(found, Some(found) if found.skip == want && found.note == None));
}
