//! The piece at the front of the bytes that are left: the longest form that begins there.
#![tactic(auto)]

ghost use Rattle.std.specs.Prelude.{◌≡◌, ◌^◌, ◌<◌, ◌≤◌, IfSome, length, take};
ghost use Rattle.sc_tree.specs.Pieces.{closed, line_len, number_piece, piece, plain_piece, word_len};
ghost use Rattle.sc_lexer.specs.Texts.{HasText};

use crate::bytes::{is_letter, rest_of_line, spaces, word_bytes};
use crate::literals::opened;
use crate::numbers::{number_kind, number_len};
use crate::tables::{opening, punctuator};
use sc_tree::{Form, Kind, Opening, Piece};

/// A line that begins with `#`, up to its line feed.
fn line_len(is_fresh: bool, bytes: &[u8]) -> usize
    ensures len { result ≡ line_len is_fresh bytes.now }
    ensures within { result ≤ length bytes.now }
{
    match bytes {
        [] => 0,
        [first, rest @ ..] => {
            if is_fresh && *first == b'#' {
                1 + rest_of_line(rest)
            } else {
                0
            }
        }
    }
}

fn word_len(bytes: &[u8]) -> usize
    ensures len { result ≡ word_len bytes.now }
    ensures within { result ≤ length bytes.now }
{
    match bytes {
        [] => 0,
        [first, rest @ ..] => {
            if is_letter(*first) {
                1 + word_bytes(rest)
            } else {
                0
            }
        }
    }
}

/// The number at the front, which has so many bytes.
fn number_piece(len: usize, bytes: &[u8]) -> Piece
    requires { len ≤ length bytes.now }
    ensures { result ≡ number_piece len bytes.now }
{
    let (text, _) = bytes.split_at(len);
    Piece {
        form: Form::Known(number_kind(text)),
        len,
    }
}

/// The longest form at the front that nothing opens. Of the forms only a number may begin as another
/// does, with a `.`, and then it is the longer one.
fn plain_piece(is_fresh: bool, bytes: &[u8]) -> Option<Piece>
    ensures piece { result ≡ plain_piece is_fresh bytes.now }
    ensures within { IfSome result (λ p. p.len ≤ length bytes.now) }
    ensures text { IfSome result (λ p. HasText p.form (take p.len bytes.now)) }
{
    let blank = spaces(bytes);
    if blank > 0 {
        return Some(Piece {
            form: Form::Blank,
            len: blank,
        });
    }
    let line = line_len(is_fresh, bytes);
    if line > 0 {
        return Some(Piece {
            form: Form::Blank,
            len: line,
        });
    }
    let word = word_len(bytes);
    if word > 0 {
        return Some(Piece {
            form: Form::Word,
            len: word,
        });
    }
    let number = number_len(bytes);
    if number > 0 {
        return Some(number_piece(number, bytes));
    }
    let (text, punct) = punctuator(bytes)?;
    Some(Piece {
        form: Form::Known(Kind::Punct(punct)),
        len: text.len(),
    })
}

/// The piece behind the bytes that open it, and with them.
#[tactic(auto, unfolding(sc_tree::specs::Pieces::closed))]
fn closed(len: usize, opening: Opening, bytes: &[u8]) -> Option<Piece>
    requires short { length bytes.now < 2 ^ 32 }
    requires within { len ≤ length bytes.now }
    ensures piece { result ≡ closed len opening bytes.now }
    ensures within { IfSome result (λ p. p.len ≤ length bytes.now) }
    ensures text { IfSome result (λ p. HasText p.form (take p.len bytes.now)) }
{
    let (_, rest) = bytes.split_at(len);
    let piece = opened(opening, rest)?;
    Some(Piece {
        form: piece.form,
        len: len + piece.len,
    })
}

/// The piece at the front.
#[tactic(auto, unfolding(sc_tree::specs::Pieces::piece))]
pub(crate) fn piece(is_fresh: bool, bytes: &[u8]) -> Option<Piece>
    requires { length bytes.now < 2 ^ 32 }
    ensures piece { result ≡ piece is_fresh bytes.now }
    ensures within { IfSome result (λ p. p.len ≤ length bytes.now) }
    ensures text { IfSome result (λ p. HasText p.form (take p.len bytes.now)) }
{
    match opening(bytes) {
        Some((text, opening)) => closed(text.len(), opening, bytes),
        None => plain_piece(is_fresh, bytes),
    }
}
