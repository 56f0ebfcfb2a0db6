//! The expression that a span of tokens is.

ghost use Rattle.std.specs.Prelude.{◌≡◌, ◌≤◌, ◌-◌, length, take, drop, IfOk};
ghost use Rattle.sc_tree.specs.declared.grammar.Level.TheVariants.{Whole};
ghost use Rattle.sc_tree.specs.Trees.{max_height};
ghost use Rattle.sc_parse_expr.specs.Reading.{expr_at};
ghost use Rattle.sc_parse_expr.specs.Spans.{Answers, IsParsed};

use crate::parse::read_expr;
use sc_base::OutOfMemory;
use sc_parse_front::{Cursor, ParseError, TypeNames};
use sc_tree::expr::Expr;
use sc_tree::grammar::Level;
use sc_tree::{Token, Tokens};
use std::alloc::Global;

/// The greatest height of a tree.
const MAX_HEIGHT: usize = 128;

/// What some tokens are.
#[derive(Debug, Drop)]
pub enum Parsed<T> {
    /// They spell this tree, and no other.
    Tree(T),
    /// They spell no tree that is not too high.
    Not,
}

// By the reading function.
fn all_of(alloc: Global, span: &[Token], types: &TypeNames) -> Result<Parsed<Expr>, OutOfMemory>
    ensures { IfOk result (Answers (expr_at types.now max_height Whole span.now)) }
{
    let mut tokens = Cursor::new(span);
    match read_expr(alloc, types, &mut tokens, MAX_HEIGHT, Level::Whole) {
        Ok(found) => {
            if tokens.is_empty() {
                Ok(Parsed::Tree(found.it.tree.into_inner()))
            } else {
                Ok(Parsed::Not)
            }
        }
        Err(ParseError::NoMatch) => Ok(Parsed::Not),
        Err(ParseError::Memory) => Err(OutOfMemory),
    }
}

/// The expression (C11 6.5.17) that the tokens from the one place up to the other spell, where the
/// types are the typedef names declared before; or that they spell none with a tree of at most 128
/// in height. It refuses for want of memory alone.
pub fn expr(
    alloc: Global,
    tokens: &Tokens,
    from: usize,
    to: usize,
    types: &TypeNames,
) -> Result<Parsed<Expr>, OutOfMemory>
    requires order { from ≤ to }
    requires within { to ≤ length tokens.now.list }
    ensures { IfOk result (IsParsed types.now (take (to - from) (drop from tokens.now.list))) }
{
    let span = &tokens.list.as_slice()[from..to];
    all_of(alloc, span, types)
}
