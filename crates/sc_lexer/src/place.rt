//! Lines and columns, counted while the bytes are passed.
#![tactic(auto)]

use crate::bytes::is_blank;
use sc_base::Pos;

/// A place in a file: its line and column, which count from 1, and whether only spaces and tabs
/// stand before it in its line.
#[derive(Clone, Copy, Debug)]
pub(crate) struct Place {
    pub(crate) line: u32,
    pub(crate) col: u32,
    pub(crate) is_fresh: bool,
}

impl Place {
    ghost use Rattle.std.specs.Prelude.{◌≡◌, ◌+◌, ◌^◌, ◌<◌, ◌≤◌, [], length};
    ghost use Rattle.sc_lexer.specs.Place.{passed, place_at, stepped};

    /// The place of the first byte.
    #[tactic(auto, unfolding(sc_tree::specs::Places::line_at, sc_tree::specs::Places::line_so_far))]
    pub(crate) fn start() -> Place
        ensures { result ≡ place_at [] }
    {
        Place {
            line: 1,
            col: 1,
            is_fresh: true,
        }
    }

    /// The place as a position in that file.
    pub(crate) fn pos(self, file: u32) -> Pos
        ensures { result ≡ record { file = file; line = self.line; col = self.col } }
    {
        Pos {
            file,
            line: self.line,
            col: self.col,
        }
    }

    #[tactic(auto, unfolding(crate::specs::Place::stepped))]
    fn step(self, byte: u8) -> Place
        requires line { self.line + 1 < 2 ^ 32 }
        requires col { self.col + 1 < 2 ^ 32 }
        ensures place { result ≡ stepped self byte }
        ensures line { result.line ≤ self.line + 1 }
        ensures col { result.col ≤ self.col + 1 }
    {
        if byte == b'\n' {
            Place {
                line: self.line + 1,
                col: 1,
                is_fresh: true,
            }
        } else {
            Place {
                line: self.line,
                col: self.col + 1,
                is_fresh: self.is_fresh && is_blank(byte),
            }
        }
    }

    /// The place behind a text that begins here.
    pub(crate) fn past(self, text: &[u8]) -> Place
        requires line { self.line + length text.now < 2 ^ 32 }
        requires col { self.col + length text.now < 2 ^ 32 }
        ensures { result ≡ passed self text.now }
    {
        let mut place = self;
        for byte in text {
            place = place.step(*byte);
        }
        place
    }
}
