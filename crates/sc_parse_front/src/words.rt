//! The words of types and what the pieces of specifiers make together (C11 6.7, 6.7.2).

ghost use Rattle.std.specs.Prelude.{◌≡◌};
ghost use Rattle.sc_tree.specs.TypeWords as words;
ghost use Rattle.sc_tree.specs.Specifiers as specifiers;
ghost use Rattle.sc_tree.specs.declared.grammar.Piece.TheVariants as piece;
ghost use Rattle.sc_parse_front.specs.Error.{Makes};

use crate::error::ParseError;
use sc_base::List;
use sc_tree::ctype::{CType, IntKind, OpaqueKind};
use sc_tree::expr::{Base, Specs, Storage};
use sc_tree::grammar::{
    BodyForm, Gathered, Length, MainWord, Piece, Sign, SoFar, Specified, TypeWord, TypeWords,
};
use std::alloc::Global;

fn no_words() -> TypeWords
    ensures { result ≡ words.no_words }
{
    TypeWords {
        main: None,
        sign: None,
        length: Length::Plain,
        int: false,
    }
}

fn with_main(so_far: TypeWords, main: MainWord) -> Option<TypeWords>
    ensures { result ≡ words.with_main so_far main so_far.main }
{
    match so_far.main {
        None => Some(TypeWords {
            main: Some(main),
            sign: so_far.sign,
            length: so_far.length,
            int: so_far.int,
        }),
        Some(_) => None,
    }
}

fn with_sign(so_far: TypeWords, sign: Sign) -> Option<TypeWords>
    ensures { result ≡ words.with_sign so_far sign so_far.sign }
{
    match so_far.sign {
        None => Some(TypeWords {
            main: so_far.main,
            sign: Some(sign),
            length: so_far.length,
            int: so_far.int,
        }),
        Some(_) => None,
    }
}

fn with_length(so_far: TypeWords, length: Length) -> TypeWords
    ensures main { result.main ≡ so_far.main }
    ensures sign { result.sign ≡ so_far.sign }
    ensures length { result.length ≡ length }
    ensures int { result.int ≡ so_far.int }
{
    TypeWords {
        main: so_far.main,
        sign: so_far.sign,
        length,
        int: so_far.int,
    }
}

fn with_short(so_far: TypeWords) -> Option<TypeWords>
    ensures { result ≡ words.with_short so_far so_far.length }
{
    match so_far.length {
        Length::Plain => Some(with_length(so_far, Length::Short)),
        _ => None,
    }
}

fn with_long(so_far: TypeWords) -> Option<TypeWords>
    ensures { result ≡ words.with_long so_far so_far.length }
{
    match so_far.length {
        Length::Plain => Some(with_length(so_far, Length::Long)),
        Length::Long => Some(with_length(so_far, Length::LongLong)),
        _ => None,
    }
}

fn with_int(so_far: TypeWords) -> Option<TypeWords>
    ensures { result ≡ words.with_int so_far so_far.int }
{
    if so_far.int {
        return None;
    }
    Some(TypeWords {
        main: so_far.main,
        sign: so_far.sign,
        length: so_far.length,
        int: true,
    })
}

/// One word more.
fn with_word(so_far: TypeWords, word: TypeWord) -> Option<TypeWords>
    ensures { result ≡ words.with_word so_far word }
{
    match word {
        TypeWord::Main(main) => with_main(so_far, main),
        TypeWord::Short => with_short(so_far),
        TypeWord::Long => with_long(so_far),
        TypeWord::Int => with_int(so_far),
        TypeWord::Signed => with_sign(so_far, Sign::Signed),
        TypeWord::Unsigned => with_sign(so_far, Sign::Unsigned),
    }
}

fn main_alone(main: MainWord, length: Length) -> Option<CType>
    ensures { result ≡ words.main_alone main length }
{
    match (main, length) {
        (MainWord::Void, Length::Plain) => Some(CType::Void),
        (MainWord::Bool, Length::Plain) => Some(CType::Bool),
        (MainWord::Char, Length::Plain) => Some(CType::Int(IntKind::Char)),
        (MainWord::Float, Length::Plain) => Some(CType::Opaque(OpaqueKind::Float)),
        (MainWord::Double, Length::Plain) => Some(CType::Opaque(OpaqueKind::Double)),
        (MainWord::Double, Length::Long) => Some(CType::Opaque(OpaqueKind::LongDouble)),
        (MainWord::VaList, Length::Plain) => Some(CType::Opaque(OpaqueKind::VaList)),
        _ => None,
    }
}

fn main_signed(main: MainWord, sign: Sign, length: Length) -> Option<CType>
    ensures { result ≡ words.main_signed main sign length }
{
    match (main, sign, length) {
        (MainWord::Char, Sign::Signed, Length::Plain) => Some(CType::Int(IntKind::SChar)),
        (MainWord::Char, Sign::Unsigned, Length::Plain) => Some(CType::Int(IntKind::UChar)),
        _ => None,
    }
}

fn signed_kind(length: Length) -> IntKind
    ensures { result ≡ words.signed_kind length }
{
    match length {
        Length::Plain => IntKind::Int,
        Length::Short => IntKind::Short,
        Length::Long => IntKind::Long,
        Length::LongLong => IntKind::LongLong,
    }
}

fn unsigned_kind(length: Length) -> IntKind
    ensures { result ≡ words.unsigned_kind length }
{
    match length {
        Length::Plain => IntKind::UInt,
        Length::Short => IntKind::UShort,
        Length::Long => IntKind::ULong,
        Length::LongLong => IntKind::ULongLong,
    }
}

fn without_main(sign: Option<Sign>, length: Length, int: bool) -> Option<CType>
    ensures { result ≡ words.without_main sign length int }
{
    match (sign, length, int) {
        (Some(Sign::Unsigned), _, _) => Some(CType::Int(unsigned_kind(length))),
        (Some(Sign::Signed), _, _) => Some(CType::Int(signed_kind(length))),
        (None, Length::Plain, false) => None,
        (None, _, _) => Some(CType::Int(signed_kind(length))),
    }
}

/// The type that the words name (C11 6.7.2, paragraph 2).
fn type_of(all: TypeWords) -> Option<CType>
    ensures { result ≡ words.type_of all }
{
    let Some(main) = all.main else {
        return without_main(all.sign, all.length, all.int);
    };
    if all.int {
        return None;
    }
    match all.sign {
        None => main_alone(main, all.length),
        Some(sign) => main_signed(main, sign, all.length),
    }
}

/// No piece yet. It takes no memory.
pub fn no_pieces(alloc: Global) -> Gathered
    ensures { result ≡ specifiers.no_pieces }
{
    Gathered {
        storage: List::new(alloc),
        so_far: SoFar::Untyped,
    }
}

fn with_storage(gathered: Gathered, word: Storage) -> Result<Gathered, ParseError>
    ensures { Makes (specifiers.with_piece gathered (piece.Storage word)) result }
{
    let Gathered {
        mut storage,
        so_far,
    } = gathered;
    storage.push(word)?;
    Ok(Gathered { storage, so_far })
}

fn typed_word(so_far: SoFar, word: TypeWord) -> Option<SoFar>
    ensures { result ≡ specifiers.typed so_far (piece.Word word) }
{
    let words = match so_far {
        SoFar::Untyped => with_word(no_words(), word),
        SoFar::Words(words) => with_word(words, word),
        SoFar::Typed(_, _) => None,
    };
    Some(SoFar::Words(words?))
}

fn typed_whole(so_far: SoFar, base: Base, form: BodyForm) -> Option<SoFar>
    ensures { result ≡ specifiers.typed so_far (piece.Whole base form) }
{
    match so_far {
        SoFar::Untyped => Some(SoFar::Typed(base, form)),
        _ => None,
    }
}

fn with_type(storage: List<Storage>, so_far: Option<SoFar>) -> Result<Gathered, ParseError>
    ensures { Makes (specifiers.gathered_as storage so_far) result }
{
    match so_far {
        Some(so_far) => Ok(Gathered { storage, so_far }),
        None => Err(ParseError::NoMatch),
    }
}

/// One piece more.
pub fn with_piece(gathered: Gathered, piece: Piece) -> Result<Gathered, ParseError>
    ensures { Makes (specifiers.with_piece gathered piece) result }
{
    match piece {
        Piece::Storage(word) => with_storage(gathered, word),
        Piece::Word(word) => with_type(gathered.storage, typed_word(gathered.so_far, word)),
        Piece::Whole(base, form) => {
            with_type(gathered.storage, typed_whole(gathered.so_far, base, form))
        }
    }
}

fn is_typedef(storage: &[Storage]) -> bool
    ensures { result ≡ specifiers.is_typedef storage.now }
{
    for word in storage {
        if matches!(word, Storage::Typedef) {
            return true;
        }
    }
    false
}

fn specified(storage: List<Storage>, base: Base, form: BodyForm) -> Specified
    ensures { result ≡ specifiers.specified storage base form }
{
    let typedef = is_typedef(storage.as_slice());
    Specified {
        specs: Specs { storage, base },
        form,
        typedef,
    }
}

/// The specifiers that the pieces make, which have a type always.
pub fn finished(gathered: Gathered) -> Result<Specified, ParseError>
    ensures { Makes (specifiers.finished gathered) result }
{
    let Gathered { storage, so_far } = gathered;
    match so_far {
        SoFar::Untyped => Err(ParseError::NoMatch),
        SoFar::Words(words) => match type_of(words) {
            Some(base) => Ok(specified(storage, Base::Words(base), BodyForm::NoBody)),
            None => Err(ParseError::NoMatch),
        },
        SoFar::Typed(base, form) => Ok(specified(storage, base, form)),
    }
}
