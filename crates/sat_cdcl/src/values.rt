// The exact test of a model: whether the values of all variables satisfy every given clause and
// make the assumed literals true.

ghost use Rattle.std.specs.Prelude.{◌≡◌, true, false, MatchOption};
ghost use Rattle.sat_base.specs.Logic.{at, lit_true, some_true, each_true, all_true};

use sat_base::Lit;
use sat_clauses::Clauses;

/// The value of a literal.
#[tactic(auto, unfolding(sat_base::specs::Logic::at, sat_base::specs::Logic::lit_true))]
fn lit_value(values: &[bool], lit: Lit) -> bool
    ensures { result ≡ lit_true (at values.now) lit }
{
    let value = values.get(lit.var).copied().unwrap_or(false);
    if lit.neg { !value } else { value }
}

/// Whether the values satisfy a clause.
fn meets(values: &[bool], clause: &[Lit]) -> bool
    ensures { result ≡ some_true (at values.now) clause.now }
{
    clause.iter().any(|lit| lit_value(values, *lit))
}

/// Whether they make each of these literals true.
pub fn meets_each(values: &[bool], lits: &[Lit]) -> bool
    ensures { result ≡ each_true (at values.now) lits.now }
{
    lits.iter().all(|lit| lit_value(values, *lit))
}

/// The number of a given clause that they do not satisfy, if there is one.
pub fn unmet(values: &[bool], clauses: &Clauses) -> Option<usize>
    ensures { MatchOption result (all_true (at values.now) clauses.now.given ≡ true)
        (λ _. all_true (at values.now) clauses.now.given ≡ false) }
{
    for i in 0..clauses.count() {
        let clause = match clauses.given(i) {
            None => return None,
            Some(clause) => clause,
        };
        if !meets(values, clause) {
            return Some(i);
        }
    }
    None
}
