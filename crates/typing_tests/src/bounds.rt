//! Types at their bounds: 128 derivations in one another, 4,096 parts.

use crate::found::{checked, column, is_noted, is_skipped};
use sc_base::{OutOfMemory, Skip};
use sc_tree::ctype::Widths;
use std::alloc::Global;

/// How a file begins.
#[derive(Clone, Copy)]
enum Head {
    /// `t0` is a `char` behind 100 pointers.
    Chars,
    /// `t0` is a function behind 100 pointers.
    Functions,
    /// `t10` has 4,093 parts: a pointer to a function of two parameters, ten times.
    Pairs,
}

/// A file: its head, and behind it a text with so many stars in the middle.
type Text = (Head, &'static str, u32, &'static str);

const PAIRS: &str = "typedef struct{int a,b,c;}t0;\
typedef void(*t1)(t0,t0);\
typedef void(*t2)(t1,t1);\
typedef void(*t3)(t2,t2);\
typedef void(*t4)(t3,t3);\
typedef void(*t5)(t4,t4);\
typedef void(*t6)(t5,t5);\
typedef void(*t7)(t6,t6);\
typedef void(*t8)(t7,t7);\
typedef void(*t9)(t8,t8);\
typedef void(*t10)(t9,t9);";

fn push_stars(text: &mut String, count: u32) -> Result<(), OutOfMemory> {
    for _ in 0..count {
        text.push('*')?;
    }
    Ok(())
}

fn push_head(text: &mut String, head: Head) -> Result<(), OutOfMemory> {
    match head {
        Head::Pairs => Ok(text.push_str(PAIRS)?),
        Head::Chars => {
            text.push_str("typedef char ")?;
            push_stars(text, 100)?;
            Ok(text.push_str("t0;")?)
        }
        Head::Functions => {
            text.push_str("typedef int u(void);typedef u ")?;
            push_stars(text, 100)?;
            Ok(text.push_str("t0;")?)
        }
    }
}

fn spelled(alloc: Global, (head, before, stars, behind): Text) -> Result<String, OutOfMemory> {
    let mut text = String::new(alloc);
    push_head(&mut text, head)?;
    text.push_str(before)?;
    push_stars(&mut text, stars)?;
    text.push_str(behind)?;
    Ok(text)
}

/// Files whose largest type is as large as types may be.
const LARGEST: &[Text] = &[
    (Head::Chars, "t0 ", 28, "x;"),
    (Head::Chars, "void f(void){t0 ", 28, "x;}"),
    (Head::Chars, "void f(void){sizeof(t0", 28, ");}"),
    (Head::Chars, "struct s{t0 ", 28, "x;};"),
    (Head::Chars, "typedef t0 ", 28, "x;"),
    (Head::Chars, "t0 ", 27, "x[3];"),
    (Head::Chars, "void f(t0 ", 27, "x);"),
    (Head::Chars, "void f(t0 ", 27, "x){}"),
    (Head::Functions, "t0 ", 27, "x;"),
    (Head::Functions, "typedef t0 ", 24, "v(void);void f(v w);"),
    (Head::Pairs, "t10 ", 3, "x;"),
];

fn is_taken(alloc: Global, text: Text) -> bool {
    match spelled(alloc, text) {
        Err(_) => false,
        Ok(text) => match checked(alloc, Widths::Ilp32, text.as_str()) {
            None => false,
            Some(found) => found.skipped == 0 && found.note == None,
        },
    }
}

#[test]
fn the_largest_types_are_taken(rt: HostRuntime) {
    for &text in LARGEST {
        assert!(rt; is_taken(rt.alloc(), text), "{}", text.1);
    }
}

/// Files with one type that is larger, and the column of the name that its declarator declares.
const TOO_LARGE: &[(Text, u32)] = &[
    ((Head::Chars, "t0 ", 29, "x;"), 149),
    ((Head::Chars, "struct s{t0 ", 29, "x;};"), 158),
    ((Head::Chars, "typedef t0 ", 29, "x;"), 157),
    ((Head::Chars, "extern t0 ", 29, "x;"), 156),
    ((Head::Chars, "t0 ", 28, "x[3];"), 148),
    ((Head::Chars, "t0 ", 28, "x(void);"), 148),
    ((Head::Chars, "void f(t0 ", 28, "x);"), 122),
    ((Head::Chars, "void f(t0 ", 29, "x);"), 156),
    ((Head::Functions, "t0 ", 28, "x;"), 165),
    (
        (Head::Functions, "typedef t0 ", 26, "v(void);void(*p)(v w);"),
        190,
    ),
    ((Head::Pairs, "t10 ", 4, "x;"), 289),
    ((Head::Pairs, "typedef void(*t11)(t10,t10);", 0, ""), 295),
];

fn is_noted_at(alloc: Global, text: Text, col: u32) -> bool {
    let pos = column(col);
    match spelled(alloc, text) {
        Err(_) => false,
        Ok(text) => is_noted(alloc, text.as_str(), Skip::Grammar { pos }),
    }
}

#[test]
fn larger_types_are_refused_at_the_name(rt: HostRuntime) {
    for &(text, col) in TOO_LARGE {
        assert!(rt; is_noted_at(rt.alloc(), text, col), "{}", text.1);
    }
}

/// The same in functions: in a body, in a type without a name, in a parameter.
const TOO_LARGE_IN_FUNCTIONS: &[(Text, u32)] = &[
    ((Head::Chars, "void f(void){t0 ", 29, "x;}"), 162),
    ((Head::Chars, "void f(void){sizeof(t0", 29, ");}"), 137),
    ((Head::Chars, "void f(t0 ", 28, "x){}"), 122),
];

fn is_skipped_at(alloc: Global, text: Text, col: u32) -> bool {
    let pos = column(col);
    match spelled(alloc, text) {
        Err(_) => false,
        Ok(text) => is_skipped(alloc, Widths::Ilp32, text.as_str(), Skip::Grammar { pos }),
    }
}

#[test]
fn functions_with_larger_types_are_skipped(rt: HostRuntime) {
    for &(text, col) in TOO_LARGE_IN_FUNCTIONS {
        assert!(rt; is_skipped_at(rt.alloc(), text, col), "{}", text.1);
    }
}
