//! The value of a gate at a choice.

ghost use Rattle.std.specs.Prelude.{◌≡◌, length};
ghost use Rattle.bit_net.specs.Circuit.{input_count};

use bit_net::{Gate, Net};

/// The value of a gate of a net of at most 1,024 gates, where the inputs have the values of `choice`; none of a gate of a
/// larger net.
pub fn value(net: &Net, choice: &[bool], gate: Gate) -> Option<bool>
    requires { length choice.now ≡ input_count net.now }
{
    let mut room = [false; 1024];
    let gates = net.len();
    if gates > 1024 || gate.at >= gates {
        return None;
    }
    net.values_into(choice, &mut room[..gates]);
    Some(room[gate.at])
}

/// Whether these gates have these values, where the inputs have the values of `choice`.
pub fn are_values(net: &Net, choice: &[bool], wanted: &[(Gate, bool)]) -> bool
    requires { length choice.now ≡ input_count net.now }
{
    for &(gate, want) in wanted {
        if value(net, choice, gate) != Some(want) {
            return false;
        }
    }
    true
}

/// Whether a gate has that value.
pub fn is_value(net: &Net, choice: &[bool], gate: Gate, want: bool) -> bool
    requires { length choice.now ≡ input_count net.now }
{
    value(net, choice, gate) == Some(want)
}
