//! The lines of a text, and the words of a line. Nothing is copied.

ghost use Rattle.std.specs.Prelude.{◌≡◌, ◌∷◌, [], option_map, MatchOption};
ghost use Rattle.std.specs.List.{filter, slice_split};
ghost use Rattle.drat_text.specs.Parts.{has_bytes, lines, parts_left, separates, words};

use std::marker::Model;

/// What separates parts.
#[derive(Clone, Copy, Debug, PartialEq, Eq)]
pub(crate) enum Separator {
    /// A line feed separates lines.
    LineFeed,
    /// A byte of white space separates words.
    WhiteSpace,
}

impl Separator {
    /// Whether this byte separates parts.
    fn is(&self, byte: u8) -> bool
        ensures { result ≡ separates self.now byte }
    {
        match self {
            Separator::LineFeed => byte == b'\n',
            Separator::WhiteSpace => byte.is_ascii_whitespace(),
        }
    }
}

/// The bytes before the first that separates, and those behind it; `None` if none does.
fn cut(separator: Separator, bytes: &[u8]) -> (&[u8], Option<&[u8]>)
    ensures { slice_split (separates separator) bytes.now ≡ result.0.now ∷ parts_left separator (option_map (λ x. x.now) result.1) }
{
    for (i, byte) in bytes.iter().enumerate() {
        if separator.is(*byte) {
            return (&bytes[..i], Some(&bytes[i + 1..]));
        }
    }
    (bytes, None)
}

/// The parts that are still to be read: those of `rest`, or none. Contracts see their list.
#[derive(Drop)]
pub(crate) struct Parts<'a> {
    separator: Separator,
    rest: Option<&'a [u8]>,
}

impl<'a> Model for Parts<'a> {
    ghost use Rattle.std.specs.Prelude.{ℕ, List, option_map};
    ghost use Rattle.drat_text.specs.Parts.{parts_left};

    ghost Value = { List (List ℕ) };

    ghost view = { λ p. parts_left p.separator (option_map (λ x. x.now) p.rest) };
}

impl<'a> Parts<'a> {
    /// The lines of a text.
    pub(crate) fn lines(bytes: &'a [u8]) -> Parts<'a>
        ensures { result ≡ lines bytes.entry.now }
    {
        Parts {
            separator: Separator::LineFeed,
            rest: Some(bytes),
        }
    }

    /// What stands round the white space of a line: its words, and parts without bytes.
    pub(crate) fn words(line: &'a [u8]) -> Parts<'a>
        ensures { filter has_bytes result ≡ words line.entry.now }
    {
        Parts {
            separator: Separator::WhiteSpace,
            rest: Some(line),
        }
    }

    /// Takes the next part off.
    pub(crate) fn next(&mut self) -> Option<&'a [u8]>
        ensures { MatchOption result ((self.old ≡ []) × (self.new ≡ [])) (λ part. self.old ≡ part.now ∷ self.new) }
    {
        let bytes = self.rest?;
        let (part, rest) = cut(self.separator, bytes);
        self.rest = rest;
        Some(part)
    }

    /// Takes the next part off that has bytes, and those before it.
    pub(crate) fn next_word(&mut self) -> Option<&'a [u8]>
        ensures { MatchOption result (filter has_bytes self.old ≡ []) (λ word. filter has_bytes self.old ≡ word.now ∷ filter has_bytes self.new) }
    {
        while let Some(part) = self.next() {
            if !part.is_empty() {
                return Some(part);
            }
        }
        None
    }
}
