//! Where the segments of a file end.
#![tactic(auto)]

ghost use Rattle.std.specs.Prelude.{◌≡◌, ◌+◌, ◌^◌, ◌<◌, ◌≤◌, IfOk, length};
ghost use Rattle.sc_tree.specs.Segments.{ends_of, first_spot, is_body_behind, is_closing_round, is_curly, is_end, next_spot};

use crate::removal::depth_behind;
use crate::roles::role_of;
use sc_base::{List, OutOfMemory};
use sc_tree::{Bracket, Role, Spot, Token};
use std::alloc::Global;

fn first_spot() -> Spot
    ensures { result ≡ first_spot }
{
    Spot {
        depth: 0,
        is_body: false,
        may_begin: true,
    }
}

fn is_curly(bracket: Bracket) -> bool
    ensures { result ≡ is_curly bracket }
{
    matches!(bracket, Bracket::Curly)
}

/// Whether a segment ends with the token.
fn is_end(spot: Spot, role: Role) -> bool
    ensures { result ≡ is_end spot role }
{
    match role {
        Role::Semicolon => spot.depth == 0,
        Role::Closes(bracket) => is_curly(bracket) && spot.depth == 1 && spot.is_body,
        _ => false,
    }
}

/// Whether the outermost bracket that is open behind the token begins a body.
fn is_body_behind(spot: Spot, role: Role) -> bool
    ensures { result ≡ is_body_behind spot role }
{
    match role {
        Role::Opens(bracket) => {
            if spot.depth == 0 {
                is_curly(bracket) && spot.may_begin
            } else {
                spot.is_body
            }
        }
        _ => spot.is_body,
    }
}

fn is_closing_round(role: Role) -> bool
    ensures { result ≡ is_closing_round role }
{
    matches!(role, Role::Closes(Bracket::Round))
}

/// Where the next token stands, in the same segment.
fn next_spot(spot: Spot, role: Role) -> Spot
    requires { spot.depth + 1 < 2 ^ 64 }
    ensures spot { result ≡ next_spot spot role }
    ensures small { result.depth ≤ spot.depth + 1 }
{
    Spot {
        depth: depth_behind(spot.depth, role),
        is_body: is_body_behind(spot, role),
        may_begin: is_closing_round(role),
    }
}

/// The ends of the segments, each the number of tokens up to and with its last one.
#[tactic(auto, unfolding(sc_tree::specs::Segments::ends_of))]
pub(crate) fn ends_of(alloc: Global, tokens: &[Token]) -> Result<List<usize>, OutOfMemory>
    requires { length tokens.now < 2 ^ 63 }
    ensures { IfOk result (λ ends. ends ≡ ends_of tokens.now) }
{
    let mut ends = List::new(alloc);
    let mut start = 0;
    let mut spot = first_spot();
    for (at, token) in tokens.iter().enumerate() {
        let role = role_of(token.kind);
        if is_end(spot, role) {
            start = at + 1;
            ends.push(start)?;
            spot = first_spot();
            continue;
        }
        spot = next_spot(spot, role);
    }
    if start < tokens.len() {
        ends.push(tokens.len())?;
    }
    Ok(ends)
}
