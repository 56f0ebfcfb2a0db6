//! The tokens that are left to read, and what stands at their front.

ghost use Rattle.std.specs.Prelude.{◌≡◌, [], ◌∷◌, length, MatchOption};
ghost use Rattle.sc_tree.specs.Tokens.{first_pos};
ghost use Rattle.sc_parse_front.specs.Front as spec;
ghost use Rattle.sc_tree.specs.Units.{is_empty};

use sc_base::{NameId, Pos};
use sc_tree::{Kind, Punct, Reserved, StrToken, Token};
use std::marker::Model;

/// The tokens that are left to read. Contracts see the list of them.
#[derive(Debug, Drop)]
pub struct Cursor<'a> {
    left: &'a [Token],
}

impl<'a> Model for Cursor<'a> {
    ghost use Rattle.std.specs.Prelude.{List};
    ghost use Rattle.sc_tree.specs.declared.token.Token.{Token};

    ghost Value = { List Token };

    ghost view = { λ c. c.left.now };
}

impl<'a> Cursor<'a> {
    /// All of these tokens.
    pub fn new(tokens: &'a [Token]) -> Cursor<'a>
        ensures { result ≡ tokens.now }
    {
        Cursor { left: tokens }
    }

    /// How many tokens are left.
    pub fn len(&self) -> usize
        ensures { result ≡ length self.now }
    {
        self.left.len()
    }

    /// Whether no token is left.
    pub fn is_empty(&self) -> bool
        ensures { result ≡ is_empty self.now }
    {
        matches!(self.left, [])
    }

    /// The first token, and goes behind it.
    pub fn next(&mut self) -> Option<Token>
        ensures { MatchOption result ((self.old ≡ []) × (self.new ≡ [])) (λ first. self.old ≡ first ∷ self.new) }
    {
        match self.left {
            [] => None,
            [first, rest @ ..] => {
                self.left = rest;
                Some(*first)
            }
        }
    }

    /// What the first token is.
    pub fn kind(&self) -> Option<Kind>
        ensures { result ≡ spec.front_kind self.now }
    {
        match self.left {
            [] => None,
            [first, ..] => Some(first.kind),
        }
    }

    /// The place of the first token, and one that no token has where there is none.
    pub fn first_pos(&self) -> Pos
        ensures { result ≡ first_pos self.now }
    {
        match self.left {
            [] => Pos {
                file: 0,
                line: 0,
                col: 0,
            },
            [first, ..] => first.pos,
        }
    }

    /// Goes behind the first token.
    pub fn advance(&mut self)
        ensures { self.new ≡ spec.behind self.old }
    {
        match self.left {
            [] => {}
            [_, rest @ ..] => self.left = rest,
        }
    }

    /// The punctuator at the front.
    pub fn front(&self) -> Option<Punct>
        ensures { result ≡ spec.front self.now }
    {
        match self.left {
            [] => None,
            [first, ..] => punct_of(first.kind),
        }
    }

    /// The word at the front.
    pub fn word(&self) -> Option<NameId>
        ensures { result ≡ spec.front_word self.now }
    {
        match self.left {
            [] => None,
            [first, ..] => word_of(first.kind),
        }
    }

    /// The reserved word at the front.
    pub fn reserved(&self) -> Option<Reserved>
        ensures { result ≡ spec.front_reserved self.now }
    {
        match self.left {
            [] => None,
            [first, ..] => reserved_of(first.kind),
        }
    }

    /// The string literal at the front.
    pub fn string(&self) -> Option<StrToken>
        ensures { result ≡ spec.front_string self.now }
    {
        match self.left {
            [] => None,
            [first, ..] => string_of(first.kind),
        }
    }

    /// The tokens behind the first, to look ahead.
    pub fn behind(&self) -> Cursor<'a>
        ensures { result ≡ spec.behind self.now }
    {
        match self.left {
            [] => Cursor { left: &[] },
            [_, rest @ ..] => Cursor { left: rest },
        }
    }
}

fn punct_of(kind: Kind) -> Option<Punct>
    ensures { result ≡ spec.punct_of kind }
{
    match kind {
        Kind::Punct(punct) => Some(punct),
        _ => None,
    }
}

fn word_of(kind: Kind) -> Option<NameId>
    ensures { result ≡ spec.word_of kind }
{
    match kind {
        Kind::Word(word) => Some(word),
        _ => None,
    }
}

fn reserved_of(kind: Kind) -> Option<Reserved>
    ensures { result ≡ spec.reserved_of kind }
{
    match kind {
        Kind::Reserved(word) => Some(word),
        _ => None,
    }
}

fn string_of(kind: Kind) -> Option<StrToken>
    ensures { result ≡ spec.string_of kind }
{
    match kind {
        Kind::Str(string) => Some(string),
        _ => None,
    }
}
