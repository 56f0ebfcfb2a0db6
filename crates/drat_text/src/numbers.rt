//! The words that are numbers, and those that are literals.

ghost use Rattle.std.specs.Prelude.{◌≡◌, ◌≤◌, ◌⊎◌, IfSome};
ghost use Rattle.drat_text.specs.Numbers.{greatest, literal, number, variable};

use sat_base::Lit;

/// The greatest number of variables, and of clauses.
const GREATEST: usize = 2_147_483_647;

/// The number that these bytes are, if they are one.
#[tactic(auto, unfolding(crate::specs::Numbers::number))]
pub(crate) fn number(word: &[u8]) -> Option<usize>
    ensures { result ≡ number word.now }
{
    if word.is_empty() {
        return None;
    }
    let mut value: usize = 0;
    for digit in word {
        if !digit.is_ascii_digit() {
            return None;
        }
        value = 10 * value + (*digit - b'0') as usize;
        if value > GREATEST {
            return None;
        }
    }
    Some(value)
}

/// The variable of this number, counted from 0 inside.
fn variable(vars: usize, word: &[u8]) -> Option<usize>
    ensures { result ≡ variable vars word.now }
{
    let number = number(word)?;
    if 1 <= number && number <= vars {
        Some(number - 1)
    } else {
        None
    }
}

/// The literal that these bytes are, if they are one with a variable below `vars`.
#[tactic(auto, unfolding(crate::specs::Numbers::literal))]
pub(crate) fn literal(vars: usize, word: &[u8]) -> Option<Lit>
    ensures { result ≡ literal vars word.now }
{
    match word {
        [] => None,
        [b'-', digits @ ..] => {
            let var = variable(vars, digits)?;
            Some(Lit { var, neg: true })
        }
        digits => {
            let var = variable(vars, digits)?;
            Some(Lit { var, neg: false })
        }
    }
}
