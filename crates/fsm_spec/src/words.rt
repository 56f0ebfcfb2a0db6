//! The lines of a file, the words of a line, and which bytes make a word.
#![tactic(auto)]

ghost use Rattle.std.specs.Prelude.{◌≡◌, ◌==◌, ◌<◌, [], ◌∷◌, ◌++◌, length, not, option_map, true, IfOk, MatchOption, bytes_eq};
ghost use Rattle.std.specs.List.{list_all};
ghost use Rattle.fsm_spec.specs.Words.{is_word, is_word_byte, lines, number_of, words};
ghost use Rattle.fsm_spec.specs.Steps.{words_left};

use crate::OutOfMemory;
use std::alloc::Global;
use std::marker::Model;

/// The longest word, in bytes.
const MAX_WORD: usize = 31;

/// One word, as a text. Contracts see its bytes.
#[derive(Debug, Drop)]
pub struct Word {
    text: String,
}

impl Model for Word {
    ghost use Rattle.std.specs.Prelude.{ℕ, List, string_bytes};

    ghost Value = { List ℕ };

    ghost view = { λ w. string_bytes w.text };
}

impl Word {
    /// The word of these bytes. They are ASCII, so nothing of them is replaced.
    #[tactic(auto, using(crate::proofs::WordProofs::word_is_text))]
    pub(crate) fn of(alloc: Global, bytes: &[u8]) -> Result<Word, OutOfMemory>
        requires { is_word bytes.now ≡ true }
        ensures { IfOk result (λ word. word ≡ bytes.now) }
    {
        let text = String::from_utf8_lossy(alloc, bytes)?;
        Ok(Word { text })
    }

    /// The word, lent as a text.
    pub fn as_str(&self) -> &str
        ensures { result.now ≡ self.now }
    {
        self.text.as_str()
    }

    /// Whether it has these bytes.
    pub(crate) fn is(&self, bytes: &[u8]) -> bool
        ensures { result ≡ bytes_eq self.now bytes.now }
    {
        self.text.as_bytes() == bytes
    }
}

#[tactic(auto, unfolding(crate::specs::Words::is_word_byte))]
fn is_word_byte(byte: u8) -> bool
    ensures { result ≡ is_word_byte byte }
{
    byte.is_ascii_alphanumeric() || byte == b'_'
}

fn are_word_bytes(bytes: &[u8]) -> bool
    ensures { result ≡ list_all is_word_byte bytes.now }
{
    bytes.iter().all(|byte| is_word_byte(*byte))
}

/// Whether the bytes are one to 31 letters, digits or `_`, and do not begin with a digit.
#[tactic(auto, unfolding(crate::specs::Words::is_word))]
pub(crate) fn is_word(bytes: &[u8]) -> bool
    ensures { result ≡ is_word bytes.now }
{
    1 <= bytes.len()
        && bytes.len() <= MAX_WORD
        && are_word_bytes(bytes)
        && !bytes[0].is_ascii_digit()
}

/// The number of the first of these words that has these bytes, counted from 0.
pub(crate) fn number_of(bytes: &[u8], words: &[Word]) -> Option<usize>
    ensures { result ≡ number_of bytes.now words.now }
{
    words.iter().position(|word| word.is(bytes))
}

/// The bytes before the first of some byte, and those behind it; `None` where it does not stand there.
pub(crate) fn cut(at: u8, bytes: &[u8]) -> (&[u8], Option<&[u8]>)
    ensures front { list_all (λ b. not (b == at)) result.0.now ≡ true }
    ensures whole { MatchOption result.1 (bytes.now ≡ result.0.now) (λ rest. bytes.now ≡ result.0.now ++ at ∷ rest.now) }
{
    for (i, byte) in bytes.iter().enumerate() {
        if *byte == at {
            return (&bytes[..i], Some(&bytes[i + 1..]));
        }
    }
    (bytes, None)
}

/// The first line of a file that is not empty, and the bytes behind its line feed.
#[tactic(auto, using(crate::proofs::WordProofs::lines_fed, crate::proofs::WordProofs::lines_last))]
fn first_line(bytes: &[u8]) -> (&[u8], &[u8])
    requires { 0 < length bytes.now }
    ensures { lines bytes.now ≡ result.0.now ∷ lines result.1.now }
{
    let (line, rest) = cut(b'\n', bytes);
    match rest {
        Some(rest) => (line, rest),
        None => (line, b""),
    }
}

/// The first word of a line, and the bytes behind its space, where it has one.
#[tactic(auto, using(crate::proofs::WordProofs::words_cut, crate::proofs::WordProofs::words_last))]
fn first_word(line: &[u8]) -> (&[u8], Option<&[u8]>)
    ensures { words line.now ≡ result.0.now ∷ words_left (option_map (λ x. x.now) result.1) }
{
    let (word, rest) = cut(b' ', line);
    match rest {
        Some(rest) => (word, Some(rest)),
        None => (word, None),
    }
}

/// The lines of a file that are still to be read. Contracts see their list.
#[derive(Drop)]
pub(crate) struct Lines<'a> {
    rest: &'a [u8],
}

impl<'a> Model for Lines<'a> {
    ghost use Rattle.std.specs.Prelude.{ℕ, List};
    ghost use Rattle.fsm_spec.specs.Words.{lines};

    ghost Value = { List (List ℕ) };

    ghost view = { λ l. lines l.rest.now };
}

impl<'a> Lines<'a> {
    /// The lines of these bytes.
    pub(crate) fn of(bytes: &'a [u8]) -> Lines<'a>
        ensures { result ≡ lines bytes.entry.now }
    {
        Lines { rest: bytes }
    }

    /// Takes the next line off.
    pub(crate) fn next(&mut self) -> Option<&'a [u8]>
        ensures { MatchOption result ((self.old ≡ []) × (self.new ≡ [])) (λ line. self.old ≡ line.now ∷ self.new) }
    {
        if self.rest.is_empty() {
            return None;
        }
        let (line, rest) = first_line(self.rest);
        self.rest = rest;
        Some(line)
    }
}

/// The words of a line that are still to be read: those of `rest`, or none. Contracts see their list.
#[derive(Drop)]
pub(crate) struct Words<'a> {
    rest: Option<&'a [u8]>,
}

impl<'a> Model for Words<'a> {
    ghost use Rattle.std.specs.Prelude.{ℕ, List, option_map};
    ghost use Rattle.fsm_spec.specs.Steps.{words_left};

    ghost Value = { List (List ℕ) };

    ghost view = { λ w. words_left (option_map (λ x. x.now) w.rest) };
}

impl<'a> Words<'a> {
    /// The words of this line.
    pub(crate) fn of(line: &'a [u8]) -> Words<'a>
        ensures { result ≡ words line.entry.now }
    {
        Words { rest: Some(line) }
    }

    /// Takes the next word off.
    pub(crate) fn next(&mut self) -> Option<&'a [u8]>
        ensures { MatchOption result ((self.old ≡ []) × (self.new ≡ [])) (λ word. self.old ≡ word.now ∷ self.new) }
    {
        let line = self.rest?;
        let (word, rest) = first_word(line);
        self.rest = rest;
        Some(word)
    }
}
