//! What a token does to brackets and segments.
#![tactic(auto)]

ghost use Rattle.std.specs.Prelude.{◌≡◌};
ghost use Rattle.sc_tree.specs.Roles.{punct_role, role_of, word_role};

use sc_tree::{Bracket, Kind, Punct, Reserved, Role};

fn punct_role(punct: Punct) -> Role
    ensures { result ≡ punct_role punct }
{
    match punct {
        Punct::LeftParen => Role::Opens(Bracket::Round),
        Punct::RightParen => Role::Closes(Bracket::Round),
        Punct::LeftBracket => Role::Opens(Bracket::Square),
        Punct::RightBracket => Role::Closes(Bracket::Square),
        Punct::LeftBrace => Role::Opens(Bracket::Curly),
        Punct::RightBrace => Role::Closes(Bracket::Curly),
        Punct::Semicolon => Role::Semicolon,
        _ => Role::Plain,
    }
}

fn word_role(word: Reserved) -> Role
    ensures { result ≡ word_role word }
{
    match word {
        Reserved::Const
        | Reserved::Volatile
        | Reserved::Restrict
        | Reserved::Register
        | Reserved::Auto
        | Reserved::Noreturn
        | Reserved::ThreadLocal
        | Reserved::Extension => Role::Nothing,
        Reserved::Attribute | Reserved::Alignas => Role::Attribute,
        _ => Role::Plain,
    }
}

pub(crate) fn role_of(kind: Kind) -> Role
    ensures { result ≡ role_of kind }
{
    match kind {
        Kind::Punct(punct) => punct_role(punct),
        Kind::Reserved(word) => word_role(word),
        _ => Role::Plain,
    }
}
