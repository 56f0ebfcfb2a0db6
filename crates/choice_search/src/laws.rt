// All lists of choices, one after the other.

ghost use Rattle.std.specs.Prelude.{◌≡◌, ◌<◌, ℕ, Bool, true, false, List, [], None, Some, replicate};
ghost use Rattle.sc_world.specs.Choices.{first_choice};
ghost use Rattle.choice_search.specs.Behind.{behind, first_at_or_behind, left};

/// From list to list all are tried: the first list that passes a test, at or behind the one of which no bit is set, is
/// the first one of all; a list that passes is the first at or behind itself; one that does not is passed over. And
/// the lists come to an end.
pub fn every_list_is_tried()
    ensures start { (n : ℕ) (test : List Bool → Bool)
        → first_at_or_behind [] (replicate n false) test ≡ first_choice n test }
    ensures found { (bs : List Bool) (test : List Bool → Bool) → test bs ≡ true
        → first_at_or_behind [] bs test ≡ Some bs }
    ensures next { (bs cs : List Bool) (test : List Bool → Bool) → test bs ≡ false → behind bs ≡ Some cs
        → first_at_or_behind [] bs test ≡ first_at_or_behind [] cs test }
    ensures last { (bs : List Bool) (test : List Bool → Bool) → test bs ≡ false → behind bs ≡ None
        → first_at_or_behind [] bs test ≡ None }
    ensures fewer { (bs cs : List Bool) → behind bs ≡ Some cs → left cs < left bs }
{}
