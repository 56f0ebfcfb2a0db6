//! What a piece is: a word is reserved, or gets the place of its text among the names.
#![tactic(auto)]

ghost use Rattle.std.specs.Prelude.{◌≡◌, ℕ, ◌-◌, ◌^◌, ◌<◌, ◌++◌, List, IfOk, length, true};
ghost use Rattle.std.specs.List.{list_all};
ghost use Rattle.sc_tree.specs.Bytes.{is_word_byte};
ghost use Rattle.sc_tree.specs.Cut.{kind_of, word_kind};
ghost use Rattle.sc_tree.specs.Words as spelled;
ghost use Rattle.sc_lexer.specs.Answer.{Grow};
ghost use Rattle.sc_lexer.specs.Naming.{with_piece, with_word};
ghost use Rattle.sc_lexer.specs.Texts.{HasText};

use crate::tables::reserved;
use name_interner::Interner;
use sc_base::OutOfMemory;
use sc_tree::{Form, Kind};

/// The bytes of a word as a text.
#[tactic(auto, using(crate::proofs::WordProofs::word_is_text))]
fn text_of(word: &[u8]) -> &str
    requires { list_all is_word_byte word.now ≡ true }
    ensures { result.now ≡ word.now }
{
    match str::from_utf8(word) {
        Ok(text) => text,
        Err(_) => unreachable!(),
    }
}

/// What a word is. Its text goes behind the other names where it is not reserved and not there yet.
fn word_kind(names: &mut Interner, word: &[u8]) -> Result<Kind, OutOfMemory>
    requires room { length names.old < 2 ^ 32 - 1 }
    requires text { list_all is_word_byte word.now ≡ true }
    ensures kind { IfOk result (λ kind. (more : List (List ℕ)) → kind ≡ word_kind (names.new ++ more) word.now) }
    ensures named { IfOk result (λ _. names.new ≡ with_word (spelled.reserved word.now) names.old word.now) }
    ensures names { Grow 1 names.old names.new }
{
    if let Some(word) = reserved(word) {
        return Ok(Kind::Reserved(word));
    }
    let name = names.intern(text_of(word))?;
    Ok(Kind::Word(name))
}

/// What a piece of this text is, if it is a token.
pub(crate) fn kind_of(
    names: &mut Interner,
    form: Form,
    text: &[u8],
) -> Result<Option<Kind>, OutOfMemory>
    requires room { length names.old < 2 ^ 32 - 1 }
    requires text { HasText form text.now }
    ensures kind { IfOk result (λ kind. (more : List (List ℕ)) → kind ≡ kind_of (names.new ++ more) form text.now) }
    ensures named { IfOk result (λ _. names.new ≡ with_piece form names.old text.now) }
    ensures names { Grow 1 names.old names.new }
{
    match form {
        Form::Blank => Ok(None),
        Form::Word => Ok(Some(word_kind(names, text)?)),
        Form::Known(kind) => Ok(Some(kind)),
    }
}
