// A queue that contracts see as the list of its items.

ghost use Rattle.std.specs.Prelude.{◌≡◌, ◌∷◌, [], length};
ghost use Rattle.std.specs.Option.{MatchOption, option_copied};
ghost use Rattle.sc_fill.specs.Filling.{first_of};

use sc_base::List;
use std::collections::VecDeque;
use std::marker::Model;

/// Items that are taken from the front.
#[derive(Drop)]
pub struct Queue<T> {
    queue: VecDeque<T>,
}

impl<T> Model for Queue<T> {
    ghost use Rattle.std.specs.Prelude.{List as Items};
    ghost use Rattle.std.specs.Coded.{coded_list};

    ghost Value = { Items T };

    ghost coded = { coded_list T.code };

    ghost view = { λ q. q.queue.items };
}

impl<T> Queue<T> {
    /// The items of a list, in their order. It takes no memory.
    pub fn new(items: List<T>) -> Queue<T>
        ensures { result ≡ items }
    {
        Queue {
            queue: VecDeque::from_vec(items.into_vec()),
        }
    }

    /// The number of items.
    pub fn len(&self) -> usize
        ensures { result ≡ length self.now }
    {
        self.queue.len()
    }

    /// The item in front.
    pub fn first(&self) -> Option<&T>
        ensures { option_copied result ≡ first_of self.now }
    {
        self.queue.front()
    }

    /// Takes the item in front.
    pub fn pop(&mut self) -> Option<T>
        ensures { MatchOption result ((self.old ≡ []) × (self.new ≡ [])) (λ e. self.old ≡ e ∷ self.new) }
    {
        self.queue.pop_front()
    }
}
