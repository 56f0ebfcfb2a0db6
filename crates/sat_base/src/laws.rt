// What certificates show, as laws: functions that do nothing and whose clauses are proved.

ghost use Rattle.std.specs.Prelude.{◌≡◌, ℕ, Bool, List, true, false};
ghost use Rattle.sat_base.specs.declared.literal.Lit.{Lit};
ghost use Rattle.sat_base.specs.declared.certificate.Step.{Step};
ghost use Rattle.sat_base.specs.Logic.{lit_true, some_true, each_true, all_true};
ghost use Rattle.sat_base.specs.Certificates.{Forced, IsRup, IsCertificate};

/// An assignment that satisfies the clauses and the assumed literals makes each literal true that
/// these force.
pub fn forced_literals_are_true()
    ensures { (clauses : List (List Lit)) (given : List Lit) (l : Lit) (f : ℕ → Bool)
        → Forced clauses given l → all_true f clauses ≡ true → each_true f given ≡ true → lit_true f l ≡ true }
{}

/// An assignment that satisfies the clauses satisfies each RUP clause of them.
pub fn rup_clauses_hold()
    ensures { (clauses : List (List Lit)) (c : List Lit) (f : ℕ → Bool)
        → IsRup clauses c → all_true f clauses ≡ true → some_true f c ≡ true }
{}

/// No assignment satisfies clauses that have a certificate.
pub fn certificates_refute()
    ensures { (clauses : List (List Lit)) (steps : List Step) (f : ℕ → Bool)
        → IsCertificate clauses steps → all_true f clauses ≡ false }
{}
