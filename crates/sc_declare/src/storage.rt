// Storage words (C11 6.7.1, 6.7.4).

ghost use Rattle.std.specs.Prelude.{◌≡◌};
ghost use Rattle.sc_declare.specs.Storage as spec;

use sc_tree::expr::Storage;

fn is_typedef(word: Storage) -> bool
    ensures { result ≡ spec.is_typedef word }
{
    matches!(word, Storage::Typedef)
}

fn is_extern(word: Storage) -> bool
    ensures { result ≡ spec.is_extern word }
{
    matches!(word, Storage::Extern)
}

fn is_static(word: Storage) -> bool
    ensures { result ≡ spec.is_static word }
{
    matches!(word, Storage::Static)
}

fn makes_local(word: Storage) -> bool
    ensures { result ≡ spec.makes_local word }
{
    matches!(word, Storage::Static | Storage::Inline)
}

/// Whether a declaration declares typedef names.
pub fn has_typedef(words: &[Storage]) -> bool
    ensures { result ≡ spec.has_typedef words.now }
{
    words.iter().any(|word| is_typedef(*word))
}

/// Whether a declaration has `extern`.
pub fn has_extern(words: &[Storage]) -> bool
    ensures { result ≡ spec.has_extern words.now }
{
    words.iter().any(|word| is_extern(*word))
}

/// Whether a declaration has `static`.
pub fn has_static(words: &[Storage]) -> bool
    ensures { result ≡ spec.has_static words.now }
{
    words.iter().any(|word| is_static(*word))
}

/// Whether a declaration at file scope makes a function local to its file: by `static`, or by `inline`.
pub fn has_local(words: &[Storage]) -> bool
    ensures { result ≡ spec.has_local words.now }
{
    words.iter().any(|word| makes_local(*word))
}
