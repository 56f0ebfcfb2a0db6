//! The tokens without the words that leave nothing.
#![tactic(auto)]

ghost use Rattle.std.specs.Prelude.{◌≡◌, ◌+◌, ◌^◌, ◌<◌, ◌≤◌, length};
ghost use Rattle.sc_tree.specs.Removal.{bracketed_len, closing_len, depth_behind, kept};

use crate::roles::role_of;
use sc_base::List;
use sc_tree::{Role, Token};

/// How many brackets are open behind a token.
pub(crate) fn depth_behind(depth: usize, role: Role) -> usize
    requires { depth + 1 < 2 ^ 64 }
    ensures depth { result ≡ depth_behind depth role }
    ensures small { result ≤ depth + 1 }
{
    match role {
        Role::Opens(_) => depth + 1,
        Role::Closes(_) => depth.saturating_sub(1),
        _ => depth,
    }
}

/// How many tokens there are up to and with the one behind which none of these brackets is open.
fn closing_len(from: usize, tokens: &[Token]) -> usize
    requires { from + length tokens.now < 2 ^ 64 }
    ensures len { result ≡ closing_len from tokens.now }
    ensures within { result ≤ length tokens.now }
{
    let mut depth = from;
    for (at, token) in tokens.iter().enumerate() {
        depth = depth_behind(depth, role_of(token.kind));
        if depth == 0 {
            return at + 1;
        }
    }
    tokens.len()
}

/// How many tokens the bracketed part at the front has.
fn bracketed_len(tokens: &[Token]) -> usize
    requires { length tokens.now < 2 ^ 63 }
    ensures { result ≡ bracketed_len tokens.now }
{
    match tokens {
        [] => 0,
        [first, rest @ ..] => match role_of(first.kind) {
            Role::Opens(_) => 1 + closing_len(1, rest),
            _ => 0,
        },
    }
}

/// The tokens that are left. They stay in their memory.
pub(crate) fn kept(tokens: List<Token>) -> List<Token>
    requires { length tokens < 2 ^ 63 }
    ensures kept { result ≡ kept 0 tokens }
    ensures few { length result ≤ length tokens }
{
    let mut items = tokens.into_vec();
    let end = items.len();
    let mut len = 0;
    let mut skip = 0;
    for at in 0..end {
        if skip > 0 {
            skip -= 1;
            continue;
        }
        let token = items[at];
        let role = role_of(token.kind);
        if role == Role::Nothing {
            continue;
        }
        if role == Role::Attribute {
            skip = bracketed_len(&items[at + 1..]);
            continue;
        }
        items[len] = token;
        len += 1;
    }
    items.truncate(len);
    List::from_vec(items)
}
