// Rows that are sought.

ghost use Rattle.std.specs.Prelude.{◌≡◌};

use bit_net::Gate;
use gate_rows::{Outcome, Side, Sought};

/// The row with these entry bits, that result, and those states before and after.
pub fn sought_row<'x>(
    given: &'x [Gate],
    before: Side<'x>,
    outcome: Outcome,
    after: Side<'x>,
) -> Sought<'x>
    ensures given { result.given.now ≡ given.now }
    ensures before { result.before ≡ before.entry }
    ensures outcome { result.result ≡ outcome }
    ensures after { result.after ≡ after.entry }
{
    Sought {
        given,
        before,
        result: outcome,
        after,
    }
}
