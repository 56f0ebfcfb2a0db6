//! What the answers show, as laws: functions that do nothing and whose clauses are proved.

ghost use Rattle.std.specs.Prelude.{◌≡◌, ℕ, Bool, List, true, false};
ghost use Rattle.sat_base.specs.declared.literal.Lit.{Lit};
ghost use Rattle.sat_base.specs.declared.certificate.Step.{Step};
ghost use Rattle.sat_base.specs.Logic.{all_true};
ghost use Rattle.sat_base.specs.Certificates.{IsCertificate};
ghost use Rattle.rup_check.specs.declared.check.Checked.TheVariants.{Yes, No};
ghost use Rattle.rup_check.specs.Checked.{IsRefusal, IsChecked};

use sat_base::laws::certificates_refute;

/// After a yes no assignment satisfies the clauses.
pub fn accepted_clauses_have_no_model()
    ensures { (clauses : List (List Lit)) (steps : List Step) (f : ℕ → Bool)
        → IsChecked clauses steps Yes → all_true f clauses ≡ false }
{
    certificates_refute();
}

/// After a no the steps are no certificate, whichever of several equal clauses a step takes out.
pub fn refused_steps_are_no_certificate()
    ensures { (clauses : List (List Lit)) (steps : List Step) (k : ℕ)
        → IsChecked clauses steps (No k) → IsCertificate clauses steps → ⊥ }
{}

/// The number of a no is determined.
pub fn one_answer()
    ensures { (clauses : List (List Lit)) (steps : List Step) (k j : ℕ)
        → IsRefusal clauses steps k → IsRefusal clauses steps j → k ≡ j }
{}
