//! Declarations at file scope that leave a note, with the column of its place.

use crate::found::{column, is_noted};
use sc_base::{IllTyped, Skip, Unsupported};

/// What C does not allow: the file, why its first declaration that is left out has its note, and the column of that.
const NOT_ALLOWED: &[(&str, IllTyped, u32)] = &[
    ("int a,b[x];", IllTyped::Name, 9),
    ("int a[1-2];", IllTyped::Constant, 8),
    ("enum{A=1/0};", IllTyped::Constant, 6),
    ("enum{A=(-2147483647-1)/-1};", IllTyped::Constant, 6),
    ("enum{A=1<<32};", IllTyped::Constant, 6),
    ("int x;enum{A=1||x};", IllTyped::Constant, 12),
    ("int x;struct s{int a:x;};", IllTyped::Constant, 22),
    ("int a[4294967296];", IllTyped::Constant, 7),
    ("struct s{int a:-1;};", IllTyped::Constant, 16),
    ("struct s x;struct s{int a;};", IllTyped::Incomplete, 10),
    ("int f(void)[3];", IllTyped::Incomplete, 5),
    ("void x;", IllTyped::Incomplete, 6),
    ("struct s{int a;void b;};", IllTyped::Incomplete, 21),
    ("struct s{struct t b;};", IllTyped::Incomplete, 19),
    ("typedef int T;enum{T};", IllTyped::Again, 20),
    ("struct s{int a;char a;};", IllTyped::Again, 21),
    ("int f();int f(char);", IllTyped::Again, 13),
    ("int a;char a;", IllTyped::Again, 12),
    ("struct s{int a;};struct s{int a;};", IllTyped::Again, 25),
    ("struct s{int a;};enum s{A};", IllTyped::Again, 23),
    ("enum{A,A};", IllTyped::Again, 8),
];

#[test]
fn declarations_that_c_does_not_allow_leave_notes(rt: HostRuntime) {
    for &(text, kind, col) in NOT_ALLOWED {
        let pos = column(col);
        assert!(rt;
            is_noted(rt.alloc(), text, Skip::IllTyped { kind, pos }),
            "{text}"
        );
    }
}

/// What is not taken, in the same form.
const NOT_TAKEN: &[(&str, Unsupported, u32)] = &[
    ("double f(int);", Unsupported::Float, 8),
    ("int g(int,float);", Unsupported::Float, 11),
    ("int a[18446744073709551616];", Unsupported::Wide, 7),
    ("int g(int,__builtin_va_list);", Unsupported::VaList, 11),
    ("int a[1.5];", Unsupported::Odd, 7),
    (
        "struct s{int a;};struct s f(void);",
        Unsupported::Struct,
        27,
    ),
    (
        "struct s{int a;};void g(struct s);",
        Unsupported::Struct,
        25,
    ),
    ("int x,a[x];", Unsupported::Vla, 7),
];

#[test]
fn declarations_that_are_not_taken_leave_notes(rt: HostRuntime) {
    for &(text, kind, col) in NOT_TAKEN {
        let pos = column(col);
        assert!(rt;
            is_noted(rt.alloc(), text, Skip::Unsupported { kind, pos }),
            "{text}"
        );
    }
}

#[test]
fn what_is_no_declaration_leaves_a_note(rt: HostRuntime) {
    let pos = column(1);
    assert!(rt; is_noted(rt.alloc(), "foo bar;", Skip::Grammar { pos }));
}
