//! The tokens of small files: each kind of token with its edges, places, refusals and segments.

use name_interner::Interner;
use sc_base::NameId;
use sc_lexer::{LexAnswer, tokens};
use sc_tree::{IntToken, Kind, Punct, Reserved, StrToken, Token, Tokens};
use std::alloc::Global;

/// The tokens of a short file, over names that hold `x`.
fn lex(alloc: Global, text: &str) -> Result<Tokens, LexAnswer> {
    let mut names = Interner::new(alloc);
    names.intern("x")?;
    if text.len() > 1000 || names.len() > 1 {
        return Err(LexAnswer::OutOfMemory);
    }
    tokens(alloc, &mut names, 3, text.as_bytes())
}

fn is_only(list: &[Token], want: Kind) -> bool {
    match list {
        [token] => token.kind == want,
        _ => false,
    }
}

/// Whether that is the only token of a file.
fn only(alloc: Global, text: &str, want: Kind) -> bool {
    match lex(alloc, text) {
        Ok(found) => is_only(found.list.as_slice(), want),
        Err(_) => false,
    }
}

/// The line and column of a refusal, and whether it is a bracket's.
fn refusal(alloc: Global, text: &str) -> Option<(u32, u32, bool)> {
    match lex(alloc, text) {
        Err(LexAnswer::Lexical(pos)) => Some((pos.line, pos.col, false)),
        Err(LexAnswer::Unbalanced(pos)) => Some((pos.line, pos.col, true)),
        _ => None,
    }
}

fn int(value: Option<u64>, decimal: bool, unsigned: bool, longs: u8) -> Kind {
    Kind::Int(IntToken {
        value: value.unwrap_or(0),
        fits: value.is_some(),
        decimal,
        unsigned,
        longs,
    })
}

fn is_sum(list: &[Token]) -> bool {
    match list {
        [x, plus, _, end] => x.kind == Kind::Word(NameId { at: 0 })
            && plus.kind == Kind::Punct(Punct::Plus)
            && end.kind == Kind::Punct(Punct::Semicolon)
            && (end.pos.file, end.pos.line, end.pos.col) == (3, 1, 4),
        _ => false,
    }
}

#[test]
fn a_file_has_tokens_ends_and_places(rt: HostRuntime) {
    let found = lex(rt.alloc(), "x+1;");
    assert!(rt; matches!(&found, Ok(found) if found.file == 3 && is_sum(found.list.as_slice())));
    assert!(rt; matches!(&found, Ok(found) if found.ends.as_slice() == [4].as_slice()));
}

#[test]
fn integers_have_their_values_and_letters(rt: HostRuntime) {
    for (text, want) in [
        ("0", int(Some(0), false, false, 0)),
        ("017", int(Some(15), false, false, 0)),
        ("12uL", int(Some(12), true, true, 1)),
        ("0Xfllu", int(Some(15), false, true, 2)),
        ("1LL", int(Some(1), true, false, 2)),
        (
            "18446744073709551615",
            int(Some(18446744073709551615), true, false, 0),
        ),
        ("18446744073709551616", int(None, true, false, 0)),
        ("0x10000000000000000", int(None, false, false, 0)),
    ] {
        assert!(rt; only(rt.alloc(), text, want), "{text}");
    }
}

#[test]
fn what_is_no_constant_is_odd(rt: HostRuntime) {
    for text in [
        "1.5", ".5", "1e+5", "0xe+1", "0x", "08", "1lL", "1uu", "1_", "1..2", "''", "'ab'",
        "'\\q'", "'\\400'", "L'a'", "u'a'", "U'a'",
    ] {
        assert!(rt; only(rt.alloc(), text, Kind::Odd), "{text}");
    }
}

#[test]
fn characters_have_their_values(rt: HostRuntime) {
    for (text, want) in [
        ("'a'", 97),
        ("'\\n'", 10),
        ("'\\e'", 27),
        ("'\\''", 39),
        ("'\\\\'", 92),
        ("'\"'", 34),
        ("'\\0'", 0),
        ("'\\x41'", 65),
        ("'\\177'", 127),
        ("'\\200'", -128),
        ("'\\xff'", -1),
    ] {
        assert!(rt; only(rt.alloc(), text, Kind::Char(want)), "{text}");
    }
}

#[test]
fn strings_have_their_width_and_length(rt: HostRuntime) {
    for (text, wide, len) in [
        ("\"\"", false, 0),
        ("\"a'b\"", false, 3),
        ("\"\\\"\"", false, 1),
        ("\"\\x12345\"", false, 1),
        ("\"\\1234\"", false, 2),
        ("\"\\400\"", false, 1),
        ("u8\"a\"", false, 1),
        ("L\"a\"", true, 1),
        ("U\"\\n\"", true, 1),
    ] {
        let want = Kind::Str(StrToken { wide, len });
        assert!(rt; only(rt.alloc(), text, want), "{text}");
    }
}

#[test]
fn the_longest_word_or_punctuator_is_taken(rt: HostRuntime) {
    for (text, want) in [
        ("x", Kind::Word(NameId { at: 0 })),
        ("y", Kind::Word(NameId { at: 1 })),
        ("$a_1", Kind::Word(NameId { at: 1 })),
        ("L", Kind::Word(NameId { at: 1 })),
        ("u8", Kind::Word(NameId { at: 1 })),
        ("ints", Kind::Word(NameId { at: 1 })),
        ("int", Kind::Reserved(Reserved::Int)),
        ("__signed__", Kind::Reserved(Reserved::Signed)),
        ("__inline", Kind::Reserved(Reserved::Inline)),
        ("_Bool", Kind::Reserved(Reserved::Bool)),
        ("<<=", Kind::Punct(Punct::ShiftLeftAssign)),
        ("...", Kind::Punct(Punct::Ellipsis)),
        ("->", Kind::Punct(Punct::Arrow)),
        ("%=", Kind::Punct(Punct::PercentAssign)),
    ] {
        assert!(rt; only(rt.alloc(), text, want), "{text}");
    }
}

/// How many tokens and ends of segments a file has.
fn counts(alloc: Global, text: &str) -> Option<(usize, usize)> {
    match lex(alloc, text) {
        Ok(found) => Some((found.list.len(), found.ends.len())),
        Err(_) => None,
    }
}

#[test]
fn what_is_removed_is_no_token(rt: HostRuntime) {
    for (text, count, ends) in [
        ("", 0, 0),
        (" \t\u{b}\u{c}\r\n", 0, 0),
        ("/* ; */ // ;", 0, 0),
        ("#define x \\\n foo;", 2, 1),
        (" \t# a ' \" /*\nx", 1, 1),
        ("1$", 2, 1),
        ("..", 2, 1),
        ("a+++b", 4, 1),
        ("int x __attribute__[3];", 3, 1),
        ("int x __attribute__((a(b)));", 3, 1),
        ("int __attribute__ const((a));", 7, 1),
        ("const int volatile __restrict x __extension__;", 3, 1),
        ("_Alignas(8) int x;", 3, 1),
        ("int f(){a;}x;", 10, 2),
        ("struct s{int a;}x;", 9, 1),
        ("{a;}b;c", 7, 3),
        ("(;)[;]{;}", 9, 1),
    ] {
        assert!(rt; counts(rt.alloc(), text) == Some((count, ends)), "{text}");
    }
}

fn are_placed(list: &[Token]) -> bool {
    match list {
        [first, second] => (first.pos.file, first.pos.line, first.pos.col) == (3, 4, 3)
            && (second.pos.file, second.pos.line, second.pos.col) == (3, 6, 2),
        _ => false,
    }
}

#[test]
fn places_count_lines_and_columns(rt: HostRuntime) {
    let found = lex(rt.alloc(), "/*\n\n*/\n\t x\n#\n y");
    assert!(rt; matches!(&found, Ok(found) if are_placed(found.list.as_slice())));
}

#[test]
fn refusals_have_their_places(rt: HostRuntime) {
    for (text, line, col, is_bracket) in [
        ("int x # y;", 1, 7, false),
        ("int x=L\"a;", 1, 7, false),
        ("int x=u8'a;", 1, 9, false),
        ("char*p=\"\\q\";", 1, 8, false),
        ("\"\\x\"", 1, 1, false),
        ("\"a\nb\"", 1, 1, false),
        ("'a\n'", 1, 1, false),
        ("/*\n*/#if\n", 2, 3, false),
        ("x /* a", 1, 3, false),
        ("\"a", 1, 1, false),
        ("\"\\", 1, 1, false),
        ("u8\"", 1, 1, false),
        ("'", 1, 1, false),
        ("'\\'", 1, 1, false),
        ("U'a", 1, 1, false),
        ("\\", 1, 1, false),
        ("@", 1, 1, false),
        (")", 1, 1, true),
        ("([)]", 1, 3, true),
        ("(()\n(", 1, 1, true),
        ("()\n{(}", 2, 3, true),
        ("__attribute__((x);", 1, 14, true),
        (")@", 1, 2, false),
    ] {
        let found = refusal(rt.alloc(), text);
        assert!(rt; found == Some((line, col, is_bracket)), "{text}");
    }
}
