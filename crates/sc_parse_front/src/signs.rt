//! Which punctuator stands at the front of the tokens.

ghost use Rattle.std.specs.Prelude.{◌≡◌};
ghost use Rattle.sc_parse_front.specs.Front as spec;
ghost use Rattle.sc_parse_front.specs.Error.{Passes};

use crate::cursor::Cursor;
use crate::error::ParseError;
use sc_tree::{Punct, Reserved};

impl<'a> Cursor<'a> {
    /// Whether `(` stands at the front.
    pub fn is_left_paren(&self) -> bool
        ensures { result ≡ spec.is_left_paren (spec.front self.now) }
    {
        matches!(self.front(), Some(Punct::LeftParen))
    }

    /// Whether `)` stands at the front.
    pub fn is_right_paren(&self) -> bool
        ensures { result ≡ spec.is_right_paren (spec.front self.now) }
    {
        matches!(self.front(), Some(Punct::RightParen))
    }

    /// Whether `]` stands at the front.
    pub fn is_right_bracket(&self) -> bool
        ensures { result ≡ spec.is_right_bracket (spec.front self.now) }
    {
        matches!(self.front(), Some(Punct::RightBracket))
    }

    /// Whether `{` stands at the front.
    pub fn is_left_brace(&self) -> bool
        ensures { result ≡ spec.is_left_brace (spec.front self.now) }
    {
        matches!(self.front(), Some(Punct::LeftBrace))
    }

    /// Whether `}` stands at the front.
    pub fn is_right_brace(&self) -> bool
        ensures { result ≡ spec.is_right_brace (spec.front self.now) }
    {
        matches!(self.front(), Some(Punct::RightBrace))
    }

    /// Whether `,` stands at the front.
    pub fn is_comma(&self) -> bool
        ensures { result ≡ spec.is_comma (spec.front self.now) }
    {
        matches!(self.front(), Some(Punct::Comma))
    }

    /// Whether `:` stands at the front.
    pub fn is_colon(&self) -> bool
        ensures { result ≡ spec.is_colon (spec.front self.now) }
    {
        matches!(self.front(), Some(Punct::Colon))
    }

    /// Whether `?` stands at the front.
    pub fn is_question(&self) -> bool
        ensures { result ≡ spec.is_question (spec.front self.now) }
    {
        matches!(self.front(), Some(Punct::Question))
    }

    /// Whether `;` stands at the front.
    pub fn is_semicolon(&self) -> bool
        ensures { result ≡ spec.is_semicolon (spec.front self.now) }
    {
        matches!(self.front(), Some(Punct::Semicolon))
    }

    /// Whether `*` stands at the front.
    pub fn is_star(&self) -> bool
        ensures { result ≡ spec.is_star (spec.front self.now) }
    {
        matches!(self.front(), Some(Punct::Star))
    }

    /// Whether `=` stands at the front.
    pub fn is_equals(&self) -> bool
        ensures { result ≡ spec.is_equals (spec.front self.now) }
    {
        matches!(self.front(), Some(Punct::Assign))
    }

    /// Whether `...` stands at the front.
    pub fn is_ellipsis(&self) -> bool
        ensures { result ≡ spec.is_ellipsis (spec.front self.now) }
    {
        matches!(self.front(), Some(Punct::Ellipsis))
    }

    /// Whether `void` stands at the front.
    pub fn is_void(&self) -> bool
        ensures { result ≡ spec.is_void_key (spec.front_reserved self.now) }
    {
        matches!(self.reserved(), Some(Reserved::Void))
    }

    /// Whether `sizeof` stands at the front.
    pub fn is_sizeof(&self) -> bool
        ensures { result ≡ spec.is_sizeof (spec.front_reserved self.now) }
    {
        matches!(self.reserved(), Some(Reserved::Sizeof))
    }

    /// Whether `enum` stands at the front.
    pub fn is_enum(&self) -> bool
        ensures { result ≡ spec.is_enum (spec.front_reserved self.now) }
    {
        matches!(self.reserved(), Some(Reserved::Enum))
    }

    /// Goes behind the first token where it was found to be the wanted one.
    pub fn pass(&mut self, found: bool) -> Result<(), ParseError>
        ensures { Passes found result self.old self.new }
    {
        if !found {
            return Err(ParseError::NoMatch);
        }
        self.advance();
        Ok(())
    }

    /// Goes behind a `)`, which is to stand at the front.
    pub fn pass_right_paren(&mut self) -> Result<(), ParseError>
        ensures { Passes (spec.is_right_paren (spec.front self.old)) result self.old self.new }
    {
        let found = self.is_right_paren();
        self.pass(found)
    }

    /// Goes behind a `]`, which is to stand at the front.
    pub fn pass_right_bracket(&mut self) -> Result<(), ParseError>
        ensures { Passes (spec.is_right_bracket (spec.front self.old)) result self.old self.new }
    {
        let found = self.is_right_bracket();
        self.pass(found)
    }

    /// Goes behind a `}`, which is to stand at the front.
    pub fn pass_right_brace(&mut self) -> Result<(), ParseError>
        ensures { Passes (spec.is_right_brace (spec.front self.old)) result self.old self.new }
    {
        let found = self.is_right_brace();
        self.pass(found)
    }

    /// Goes behind a `:`, which is to stand at the front.
    pub fn pass_colon(&mut self) -> Result<(), ParseError>
        ensures { Passes (spec.is_colon (spec.front self.old)) result self.old self.new }
    {
        let found = self.is_colon();
        self.pass(found)
    }

    /// Goes behind a `;`, which is to stand at the front.
    pub fn pass_semicolon(&mut self) -> Result<(), ParseError>
        ensures { Passes (spec.is_semicolon (spec.front self.old)) result self.old self.new }
    {
        let found = self.is_semicolon();
        self.pass(found)
    }
}
