// Bits and numbers of a choice.

ghost use Rattle.std.specs.Prelude.{◌≡◌, ◌+◌, ◌*◌, ◌<◌, ◌≤◌, ◌^◌};
ghost use Rattle.sc_world.specs.World as spec;

/// The bit with that number; false past the end.
pub fn bit_at(choice: &[bool], at: usize) -> bool
    ensures { result ≡ spec.bit_at choice.now at }
{
    match choice.get(at) {
        None => false,
        Some(bit) => *bit,
    }
}

// A number with one more binary digit.
#[tactic(auto, using(crate::proofs::Digits::digit_steps))]
fn with_digit(number: u64, bit: bool, digits: u32) -> u64
    requires digits { digits < 64 }
    requires number { number < 2 ^ digits }
    ensures value { result ≡ 2 * number + spec.digit bit }
    ensures bound { result < 2 ^ (digits + 1) }
{
    if bit { 2 * number + 1 } else { 2 * number }
}

/// The number that so many bits from that one on spell, the high bit first.
pub fn number_at(choice: &[bool], at: u32, width: u32) -> u64
    requires { width ≤ 64 }
    ensures value { result ≡ spec.number_at choice.now at width }
    ensures bound { result < 2 ^ width }
{
    let mut number = 0;
    for k in 0..width {
        number = with_digit(number, bit_at(choice, at as usize + k as usize), k);
    }
    number
}
