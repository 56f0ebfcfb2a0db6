// Sums and products of room. What no machine counts, no machine has memory for.

ghost use Rattle.std.specs.Prelude.{◌≡◌, ◌+◌, ◌*◌, IfOk};
ghost use Rattle.run_room.specs.Room as spec;

use sc_base::OutOfMemory;

pub fn plus(a: usize, b: usize) -> Result<usize, OutOfMemory>
    ensures { IfOk result (λ n. n ≡ a + b) }
{
    a.checked_add(b).ok_or(OutOfMemory)
}

fn times(a: usize, b: usize) -> Result<usize, OutOfMemory>
    ensures { IfOk result (λ n. n ≡ a * b) }
{
    a.checked_mul(b).ok_or(OutOfMemory)
}

/// The room of a loop that needs so much for a test and for a body.
#[tactic(auto, unfolding(crate::specs::Room::loop_room))]
pub fn loop_room(depth: usize, test: usize, body: usize) -> Result<usize, OutOfMemory>
    ensures { IfOk result (λ n. n ≡ spec.loop_room depth test body) }
{
    let tests = times(plus(depth, 1)?, test)?;
    let bodies = times(depth, body)?;
    plus(tests, bodies)
}
