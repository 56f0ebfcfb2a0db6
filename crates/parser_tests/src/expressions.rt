//! Small expressions: how operators group, casts and calls, and how high a tree may be.

use name_interner::Interner;
use sc_base::{NameId, OutOfMemory};
use sc_lexer::{LexAnswer, tokens};
use sc_parse_expr::{Parsed, expr};
use sc_parse_front::TypeNames;
use sc_tree::expr::Expr;
use sc_tree::op::{AssignOp, BinaryOp};
use std::alloc::Global;

/// What all tokens of a text are, where the types are these names, numbered as the text has them first.
fn parsed(alloc: Global, text: &str, types: &TypeNames) -> Result<Parsed<Expr>, LexAnswer> {
    if text.len() > 1000 {
        return Err(LexAnswer::OutOfMemory);
    }
    let mut names = Interner::new(alloc);
    let found = tokens(alloc, &mut names, 0, text.as_bytes())?;
    let count = found.list.len();
    Ok(expr(alloc, &found, 0, count, types)?)
}

fn untyped(alloc: Global, text: &str) -> Result<Parsed<Expr>, LexAnswer> {
    parsed(alloc, text, &TypeNames::new(alloc))
}

fn is_none(found: &Result<Parsed<Expr>, LexAnswer>) -> bool {
    matches!(found, Ok(Parsed::Not))
}

/// The tree of a text; nothing of a text that is no expression.
fn tree(found: &Result<Parsed<Expr>, LexAnswer>) -> Option<&Expr> {
    match found {
        Ok(Parsed::Tree(tree)) => Some(tree),
        _ => None,
    }
}

fn is_name(tree: &Expr) -> bool {
    matches!(tree, Expr::Name(_, _))
}

fn is_difference(tree: &Expr) -> bool {
    matches!(tree, Expr::Binary(BinaryOp::Sub, _, _, _))
}

fn is_assignment(tree: &Expr) -> bool {
    matches!(tree, Expr::Assign(AssignOp::Set, _, _, _))
}

#[test]
fn half_an_expression_is_none(rt: HostRuntime) {
    for text in ["", "a+", "a?:b"] {
        assert!(rt; is_none(&untyped(rt.alloc(), text)), "{text}");
    }
}

fn groups_to_the_left(tree: &Expr) -> bool {
    match tree {
        Expr::Binary(BinaryOp::Sub, left, right, _) => {
            is_difference(left.get()) && is_name(right.get())
        }
        _ => false,
    }
}

#[test]
fn differences_group_to_the_left(rt: HostRuntime) {
    let found = untyped(rt.alloc(), "a-b-c");
    assert!(rt; matches!(tree(&found), Some(tree) if groups_to_the_left(tree)));
}

fn groups_to_the_right(tree: &Expr) -> bool {
    match tree {
        Expr::Assign(AssignOp::Set, left, right, _) => {
            is_name(left.get()) && is_assignment(right.get())
        }
        _ => false,
    }
}

#[test]
fn assignments_group_to_the_right(rt: HostRuntime) {
    let found = untyped(rt.alloc(), "a=b=c");
    assert!(rt; matches!(tree(&found), Some(tree) if groups_to_the_right(tree)));
}

fn is_call(tree: &Expr) -> bool {
    matches!(tree, Expr::Call(_, _, _))
}

fn is_cast(tree: &Expr) -> bool {
    matches!(tree, Expr::Cast(_, _, _))
}

/// No name of a type, the first name as that of a type, and none again.
fn becomes_a_cast(alloc: Global) -> Result<bool, OutOfMemory> {
    let mut types = TypeNames::new(alloc);
    let before = parsed(alloc, "(a)(b)", &types);
    types.declare(NameId { at: 0 })?;
    let after = parsed(alloc, "(a)(b)", &types);
    types.forget_beyond(0);
    Ok(
        types.len() == 0
            && matches!(tree(&before), Some(tree) if is_call(tree))
            && matches!(tree(&after), Some(tree) if is_cast(tree)),
    )
}

#[test]
fn a_typedef_name_in_brackets_is_a_cast(rt: HostRuntime) {
    assert!(rt; becomes_a_cast(rt.alloc()) == Ok(true));
}

/// `1` in so many pairs of brackets.
fn in_brackets(alloc: Global, pairs: usize) -> Result<String, OutOfMemory> {
    let mut text = String::new(alloc);
    for _pair in 0..pairs {
        text.push_str("(")?;
    }
    text.push_str("1")?;
    for _pair in 0..pairs {
        text.push_str(")")?;
    }
    Ok(text)
}

/// What is read of `1` in so many pairs of brackets.
fn read_in_brackets(alloc: Global, pairs: usize) -> Result<Parsed<Expr>, LexAnswer> {
    let text = in_brackets(alloc, pairs)?;
    untyped(alloc, text.as_str())
}

#[test]
fn a_tree_has_at_most_128_levels(rt: HostRuntime) {
    let high = read_in_brackets(rt.alloc(), 127);
    assert!(rt; matches!(tree(&high), Some(Expr::Int(_, _))));
    let higher = read_in_brackets(rt.alloc(), 128);
    assert!(rt; is_none(&higher));
}
