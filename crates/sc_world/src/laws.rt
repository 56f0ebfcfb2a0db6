// What holds of every search over choices. Each law is the clause of a function that does nothing.

ghost use Rattle.std.specs.Prelude.{◌≡◌, ◌↔◌, ℕ, Bool, true, List, Option, Some, None, length};
ghost use Rattle.sc_world.specs.Choices.{first_choice, IsLeast, HasNone};

/// The first choice that passes is the least list of its length that passes, and there is none exactly if no
/// list passes. So a row stands exactly if the run of some choice has it, and a shown choice is the least one
/// that shows what it is shown for.
pub fn the_first_choice()
    ensures least { (n : ℕ) (test : List Bool → Bool) (c : List Bool) → first_choice n test ≡ Some c → IsLeast n test c }
    ensures none { (n : ℕ) (test : List Bool → Bool) → first_choice n test ≡ None → HasNone n test }
    ensures some { (n : ℕ) (test : List Bool → Bool) (d : List Bool) → length d ≡ n → test d ≡ true
        → (c : List Bool) × (first_choice n test ≡ Some c) }
{}
