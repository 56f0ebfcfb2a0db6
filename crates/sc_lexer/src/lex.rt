//! The tokens and segments of a file.
#![tactic(auto)]

ghost use Rattle.std.specs.Prelude.{◌≡◌, ◌+◌, ◌-◌, ◌^◌, ◌<◌, IfOk, length};
ghost use Rattle.sc_tree.specs.Lexed.{lexed};
ghost use Rattle.sc_tree.specs.Segments.{Cuts};
ghost use Rattle.sc_lexer.specs.Answer.{Answers, Grow};
ghost use Rattle.sc_lexer.specs.Naming.{names_after};

use crate::answer::LexAnswer;
use crate::brackets::unbalanced;
use crate::removal::kept;
use crate::scan::scan;
use crate::segments::ends_of;
use name_interner::Interner;
use sc_tree::Tokens;
use std::alloc::Global;

/// The tokens of the file of that number and the ends of its segments, or the place where it has
/// none: first a place where nothing begins, then a bracket without its other half. The names of
/// words go behind those that are there, which stay, whatever the answer is; where there are tokens, they stand in the
/// order of the text. (C11 6.4.)
#[tactic(auto, using(crate::proofs::CutProofs::ends_cut), unfolding(sc_tree::specs::Lexed::lexed, crate::specs::Naming::names_after))]
pub fn tokens(
    alloc: Global,
    names: &mut Interner,
    file: u32,
    bytes: &[u8],
) -> Result<Tokens, LexAnswer>
    requires { length names.old + length bytes.now < 2 ^ 32 - 1 }
    ensures answer { Answers file result (lexed names.new file bytes.now) }
    ensures cut { IfOk result (λ t. Cuts 0 (length t.list) t.ends) }
    ensures names { Grow (length bytes.now) names.old names.new }
    ensures named { IfOk result (λ _. names.new ≡ names_after names.old bytes.now) }
{
    let all = scan(alloc, names, file, bytes)?;
    if let Some(place) = unbalanced(alloc, all.as_slice())? {
        return Err(LexAnswer::Unbalanced(place));
    }
    let list = kept(all);
    let ends = ends_of(alloc, list.as_slice())?;
    Ok(Tokens { file, list, ends })
}
