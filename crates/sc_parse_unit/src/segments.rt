//! The segments of a file (C11 6.9).

ghost use Rattle.std.specs.Prelude.{◌≡◌, [], length, IfOk};
ghost use Rattle.sc_tree.specs.Segments.{Cuts};
ghost use Rattle.sc_tree.specs.Units.{AllFit};
ghost use Rattle.sc_parse_unit.specs.Reading as spec;

use crate::MAX_HEIGHT;
use crate::found::Outline;
use crate::outlines::read_outline;
use crate::statements::read_statement;
use sc_base::{Boxed, List, OutOfMemory, Pos, Skip};
use sc_parse_front::{Cursor, ParseError, TypeNames};
use sc_tree::Tokens;
use sc_tree::unit::{Body, Segment, Unit};
use std::alloc::Global;

/// What the tokens of a body in braces are.
#[tactic(auto, unfolding(crate::specs::Reading::body_of))]
fn body_of(alloc: Global, types: &TypeNames, tokens: &mut Cursor<'_>) -> Result<Body, OutOfMemory>
    ensures { IfOk result (λ body. body ≡ spec.body_of types.now tokens.old) }
{
    let pos = tokens.first_pos();
    match read_statement(alloc, types, tokens, MAX_HEIGHT) {
        Ok(found) => {
            if tokens.is_empty() {
                Ok(Body::Tree(found.it))
            } else {
                Ok(Body::Skipped(Skip::Grammar { pos }))
            }
        }
        Err(ParseError::NoMatch) => Ok(Body::Skipped(Skip::Grammar { pos })),
        Err(ParseError::Memory) => Err(OutOfMemory),
    }
}

/// What the tokens of a segment are, with the typedef names before it, and those behind it.
#[tactic(auto, using(crate::proofs::FileTurns::keeps_front), unfolding(crate::specs::Reading::segment_of, crate::specs::Reading::segment_by))]
fn segment_of(
    alloc: Global,
    types: &mut TypeNames,
    tokens: &mut Cursor<'_>,
) -> Result<Segment, OutOfMemory>
    ensures { IfOk result (λ segment. spec.segment_of types.old tokens.old ≡ spec.segmented segment types.new) }
{
    let pos = tokens.first_pos();
    let count = types.len();
    match read_outline(alloc, types, tokens) {
        Ok(Outline::Decl(decl)) => Ok(Segment::Decl(decl)),
        Ok(Outline::Function(head)) => {
            let body = Boxed::new(alloc, body_of(alloc, types, tokens)?)?;
            Ok(Segment::Function(head, body))
        }
        Err(ParseError::NoMatch) => {
            types.forget_beyond(count);
            Ok(Segment::Skipped(Skip::Grammar { pos }))
        }
        Err(ParseError::Memory) => Err(OutOfMemory),
    }
}

/// What the segments are that the tokens of a file fall into (C11 6.9): each the one tree that its
/// tokens spell with a height of at most 128, or skipped at its first token; a function whose body
/// spells no such block keeps its head, and its body is skipped at the opening brace. It refuses
/// for want of memory alone.
pub fn unit(alloc: Global, tokens: &Tokens) -> Result<Unit, OutOfMemory>
    requires { Cuts 0 (length tokens.now.list) tokens.now.ends }
    ensures file { IfOk result (λ unit. unit.file ≡ tokens.now.file) }
    ensures segments { IfOk result (λ unit. AllFit [] tokens.now.list 0 tokens.now.ends unit.segments) }
{
    let all = tokens.list.as_slice();
    let mut types = TypeNames::new(alloc);
    let mut segments = List::new(alloc);
    let mut from = 0;
    for end in tokens.ends.as_slice() {
        let end = *end;
        let mut left = Cursor::new(&all[from..end]);
        segments.push(segment_of(alloc, &mut types, &mut left)?)?;
        from = end;
    }
    Ok(Unit {
        file: tokens.file,
        segments,
    })
}
