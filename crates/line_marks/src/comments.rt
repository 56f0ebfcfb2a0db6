//! Which lines begin inside of a comment.

ghost use Rattle.std.specs.Prelude.{◌≡◌, ◌≤◌, length};
ghost use Rattle.std.specs.List.{prefix_len};
ghost use Rattle.line_marks.specs.Comments as spec;

/// What a place of a line stands in.
#[derive(Clone, Copy)]
pub(crate) enum Inside {
    Code,
    /// Behind a `/` of code, which may open a comment.
    Slash,
    /// A string literal or a character constant, which this quote closes.
    Literal(u8),
    /// The same, behind a `\`.
    Escape(u8),
    /// A comment up to the end of the line.
    Rest,
    /// A comment that `*/` closes.
    Comment,
    /// The same, behind a `*`.
    Star,
}

pub(crate) fn is_blank(byte: u8) -> bool
    ensures { result ≡ spec.is_blank byte }
{
    byte == b' ' || byte == b'\t'
}

/// How many spaces and tabs stand at the front.
pub(crate) fn blanks(bytes: &[u8]) -> usize
    ensures len { result ≡ prefix_len spec.is_blank bytes.now }
    ensures within { result ≤ length bytes.now }
{
    bytes.iter().take_while(|byte| is_blank(**byte)).count()
}

fn opened(byte: u8) -> Inside
    ensures { result ≡ spec.opened byte }
{
    match byte {
        b'/' => Inside::Slash,
        b'"' | b'\'' => Inside::Literal(byte),
        _ => Inside::Code,
    }
}

#[tactic(auto, unfolding(crate::specs::Comments::stepped))]
fn stepped(inside: Inside, byte: u8) -> Inside
    ensures { result ≡ spec.stepped inside byte }
{
    match inside {
        Inside::Code => opened(byte),
        Inside::Slash => match byte {
            b'*' => Inside::Comment,
            b'/' => Inside::Rest,
            _ => opened(byte),
        },
        Inside::Literal(quote) => {
            if byte == quote {
                Inside::Code
            } else if byte == b'\\' {
                Inside::Escape(quote)
            } else {
                Inside::Literal(quote)
            }
        }
        Inside::Escape(quote) => Inside::Literal(quote),
        Inside::Rest => Inside::Rest,
        Inside::Comment => {
            if byte == b'*' {
                Inside::Star
            } else {
                Inside::Comment
            }
        }
        Inside::Star => match byte {
            b'/' => Inside::Code,
            b'*' => Inside::Star,
            _ => Inside::Comment,
        },
    }
}

/// Whether a comment is open behind a line.
fn is_open_behind(at: Inside, line: &[u8]) -> bool
    ensures { result ≡ spec.is_open_behind at line.now }
{
    let mut inside = at;
    for byte in line {
        inside = stepped(inside, *byte);
    }
    matches!(inside, Inside::Comment | Inside::Star)
}

/// Whether a `#` is the first byte of a line but for spaces and tabs.
fn is_hash_line(line: &[u8]) -> bool
    ensures { result ≡ spec.is_hash_line line.now }
{
    let (_, rest) = line.split_at(blanks(line));
    match rest {
        [] => false,
        [first, ..] => *first == b'#',
    }
}

/// Whether the next line begins inside of a comment.
#[tactic(auto, unfolding(crate::specs::Comments::comment_behind))]
pub(crate) fn comment_behind(within: bool, line: &[u8]) -> bool
    ensures { result ≡ spec.comment_behind within line.now }
{
    if within {
        is_open_behind(Inside::Comment, line)
    } else if is_hash_line(line) {
        false
    } else {
        is_open_behind(Inside::Code, line)
    }
}
