// From one list of choices to the one behind it.

ghost use Rattle.std.specs.Prelude.{◌≡◌, false, true, None, Some, length};
ghost use Rattle.choice_search.specs.Behind.{behind};

/// Makes a list of choices the one behind it, and answers whether there is one; behind the last one stands the first
/// one again.
pub fn step(choice: &mut [bool]) -> bool
    ensures length { length choice.new ≡ length choice.old }
    ensures some { result ≡ true → behind choice.old ≡ Some choice.new }
    ensures none { result ≡ false → behind choice.old ≡ None }
{
    let mut at = choice.len();
    while at > 0 {
        at -= 1;
        if choice[at] {
            choice[at] = false;
        } else {
            choice[at] = true;
            return true;
        }
    }
    false
}
