// What holds of the spelling of choices. A law is the clause of a function that does nothing but cite others.

ghost use Rattle.std.specs.Prelude.{◌≡◌, Bool, List, Some, length};
ghost use Rattle.report_text.specs.Shown.{choice_text};
ghost use Rattle.choice_texts.specs.Choices.{choice_spelled};

use sc_world::the_first_choice;

/// Two choices of one length that are spelled alike are the same. So what is printed of a choice is read as that choice.
pub fn no_two_are_spelled_alike()
    ensures same { (one other : List Bool) → length one ≡ length other → choice_text one ≡ choice_text other → one ≡ other }
    ensures printed { (choice : List Bool) → choice_spelled (length choice) (choice_text choice) ≡ Some choice }
{
    the_first_choice();
}
