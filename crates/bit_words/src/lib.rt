//! Words of gates, and arithmetic on them: for every choice the number of a result is the one that C's rules give for the numbers
//! of the operands.
//!
//! A word is a list of gates, high bit first, of 1 to 64 bits. `specs/Number.antt` says which number a word spells, unsigned and
//! signed, and what each call makes of numbers. After `OutOfMemory` the net may have more gates; earlier gates keep their values.
#![tactic(auto)]

ghost use Rattle.std.specs.Prelude.{◌≡◌, ℕ, ◌+◌, ◌*◌, ◌/◌, ◌%◌, ◌^◌, ◌<◌, ◌≤◌, if◌then◌else◌, length, IfOk};
ghost use Rattle.std.specs.Prelude.{nat_eq, nat_lt, int_lt, bit_and, bit_or, bit_xor};
ghost use Rattle.bit_net.specs.Runs.{Grown, Gives};
ghost use Rattle.bit_words.specs.Number.{bit, number, top, signed, wrapped, difference, quotient, remainder};
ghost use Rattle.bit_words.specs.Number.{signed_quotient, signed_remainder, moved_down, converted};
ghost use Rattle.bit_words.specs.Spells.{Spells};

mod adding;
mod bits;
mod converting;
mod dividing;
mod making;
mod multiplying;
mod shifting;

use bit_net::{Gate, Net, OutOfMemory};
use bits::Bitwise;
use shifting::Direction;

/// A word: its bits, the high one first.
#[derive(Drop)]
pub struct Word {
    pub bits: Vec<Gate>,
}

impl Word {
    /// The same word once more.
    pub fn try_clone(&self, net: &Net) -> Result<Word, OutOfMemory>
        ensures { IfOk result (λ r. r.bits.items ≡ self.now.bits.items) }
    {
        let bits = Vec::from_slice(net.alloc(), &self.bits)?;
        Ok(Word { bits })
    }
}

/// The word of `width` bits that is 1 where the gate holds and 0 elsewhere. It makes no gate.
pub fn of_gate(net: &Net, gate: Gate, width: usize) -> Result<Word, OutOfMemory>
    requires some { 0 < width }
    requires gate { gate.at < length net.now }
    ensures { IfOk result (λ r. Spells net.now r.bits.items width (λ v. bit (v gate.at))) }
{
    let bits = making::gate_word(net, gate, width)?;
    Ok(Word { bits })
}

/// The word of the low `width` bits of a number, for every choice (C11 6.3.1.3). It makes no gate.
pub fn constant(net: &Net, n: u64, width: usize) -> Result<Word, OutOfMemory>
    ensures { IfOk result (λ r. Spells net.now r.bits.items width (λ v. n % 2 ^ width)) }
{
    let bits = making::number_word(net, n, width)?;
    Ok(Word { bits })
}

/// Holds where the number of the word is 0, as what compares equal to 0 in a condition (C11 6.8.4.1).
pub fn is_zero(net: &mut Net, a: &Word) -> Result<Gate, OutOfMemory>
    requires { top a.now.bits.items ≤ length net.old }
    ensures grown { Grown net.old net.new }
    ensures ok { IfOk result (λ r. Gives net.new r.at (λ choice v. nat_eq (number v a.now.bits.items) 0)) }
{
    bits::zero(net, &a.bits)
}

/// The word `a` where `c` holds, else the word `b`, which has its width.
pub fn select(net: &mut Net, c: Gate, a: &Word, b: &Word) -> Result<Word, OutOfMemory>
    requires same { length a.now.bits.items ≡ length b.now.bits.items }
    requires c { c.at < length net.old }
    requires a { top a.now.bits.items ≤ length net.old }
    requires b { top b.now.bits.items ≤ length net.old }
    ensures grown { Grown net.old net.new }
    ensures ok { IfOk result (λ r. Spells net.new r.bits.items (length a.now.bits.items)
        (λ v. if v c.at then number v a.now.bits.items else number v b.now.bits.items)) }
{
    let bits = bits::select(net, c, &a.bits, &b.bits)?;
    Ok(Word { bits })
}

/// The sum of two words of one width, modulo 2 to the width (C11 6.2.5, 6.5.6).
pub fn add(net: &mut Net, a: &Word, b: &Word) -> Result<Word, OutOfMemory>
    requires same { length a.now.bits.items ≡ length b.now.bits.items }
    requires a { top a.now.bits.items ≤ length net.old }
    requires b { top b.now.bits.items ≤ length net.old }
    ensures grown { Grown net.old net.new }
    ensures ok { IfOk result (λ r. Spells net.new r.bits.items (length a.now.bits.items)
        (λ v. (number v a.now.bits.items + number v b.now.bits.items) % 2 ^ length a.now.bits.items)) }
{
    let none = net.constant(false);
    let sum = adding::sum_of(net, &a.bits, &b.bits, none)?;
    Ok(Word { bits: sum.bits })
}

/// The difference of two words of one width, modulo 2 to the width (C11 6.5.6).
pub fn sub(net: &mut Net, a: &Word, b: &Word) -> Result<Word, OutOfMemory>
    requires same { length a.now.bits.items ≡ length b.now.bits.items }
    requires a { top a.now.bits.items ≤ length net.old }
    requires b { top b.now.bits.items ≤ length net.old }
    ensures grown { Grown net.old net.new }
    ensures ok { IfOk result (λ r. Spells net.new r.bits.items (length a.now.bits.items)
        (λ v. difference (length a.now.bits.items) (number v a.now.bits.items) (number v b.now.bits.items))) }
{
    let difference = adding::difference_of(net, &a.bits, &b.bits)?;
    Ok(Word {
        bits: difference.bits,
    })
}

/// The product of two words of one width, modulo 2 to the width (C11 6.5.5).
pub fn mul(net: &mut Net, a: &Word, b: &Word) -> Result<Word, OutOfMemory>
    requires same { length a.now.bits.items ≡ length b.now.bits.items }
    requires a { top a.now.bits.items ≤ length net.old }
    requires b { top b.now.bits.items ≤ length net.old }
    ensures grown { Grown net.old net.new }
    ensures ok { IfOk result (λ r. Spells net.new r.bits.items (length a.now.bits.items)
        (λ v. (number v a.now.bits.items * number v b.now.bits.items) % 2 ^ length a.now.bits.items)) }
{
    let bits = multiplying::product(net, &a.bits, &b.bits)?;
    Ok(Word { bits })
}

/// The bitwise and of two words (C11 6.5.10).
pub fn and_words(net: &mut Net, a: &Word, b: &Word) -> Result<Word, OutOfMemory>
    requires same { length a.now.bits.items ≡ length b.now.bits.items }
    requires a { top a.now.bits.items ≤ length net.old }
    requires b { top b.now.bits.items ≤ length net.old }
    ensures grown { Grown net.old net.new }
    ensures ok { IfOk result (λ r. Spells net.new r.bits.items (length a.now.bits.items)
        (λ v. bit_and (number v a.now.bits.items) (number v b.now.bits.items))) }
{
    let bits = bits::combine(net, Bitwise::And, &a.bits, &b.bits)?;
    Ok(Word { bits })
}

/// The bitwise inclusive or of two words (C11 6.5.12).
pub fn or_words(net: &mut Net, a: &Word, b: &Word) -> Result<Word, OutOfMemory>
    requires same { length a.now.bits.items ≡ length b.now.bits.items }
    requires a { top a.now.bits.items ≤ length net.old }
    requires b { top b.now.bits.items ≤ length net.old }
    ensures grown { Grown net.old net.new }
    ensures ok { IfOk result (λ r. Spells net.new r.bits.items (length a.now.bits.items)
        (λ v. bit_or (number v a.now.bits.items) (number v b.now.bits.items))) }
{
    let bits = bits::combine(net, Bitwise::Or, &a.bits, &b.bits)?;
    Ok(Word { bits })
}

/// The bitwise exclusive or of two words (C11 6.5.11).
pub fn xor_words(net: &mut Net, a: &Word, b: &Word) -> Result<Word, OutOfMemory>
    requires same { length a.now.bits.items ≡ length b.now.bits.items }
    requires a { top a.now.bits.items ≤ length net.old }
    requires b { top b.now.bits.items ≤ length net.old }
    ensures grown { Grown net.old net.new }
    ensures ok { IfOk result (λ r. Spells net.new r.bits.items (length a.now.bits.items)
        (λ v. bit_xor (number v a.now.bits.items) (number v b.now.bits.items))) }
{
    let bits = bits::combine(net, Bitwise::Xor, &a.bits, &b.bits)?;
    Ok(Word { bits })
}

/// The quotient of two unsigned words (C11 6.5.5); 0 for a zero divisor.
pub fn div_u(net: &mut Net, a: &Word, b: &Word) -> Result<Word, OutOfMemory>
    requires same { length a.now.bits.items ≡ length b.now.bits.items }
    requires a { top a.now.bits.items ≤ length net.old }
    requires b { top b.now.bits.items ≤ length net.old }
    ensures grown { Grown net.old net.new }
    ensures ok { IfOk result (λ r. Spells net.new r.bits.items (length a.now.bits.items)
        (λ v. quotient (number v a.now.bits.items) (number v b.now.bits.items))) }
{
    let division = dividing::divide(net, &a.bits, &b.bits)?;
    Ok(Word {
        bits: division.quotient,
    })
}

/// The quotient of two signed words, rounded toward zero (C11 6.5.5); 0 for a zero divisor, and the least number divided by -1
/// wraps to itself.
pub fn div_s(net: &mut Net, a: &Word, b: &Word) -> Result<Word, OutOfMemory>
    requires some { 0 < length a.now.bits.items }
    requires same { length a.now.bits.items ≡ length b.now.bits.items }
    requires a { top a.now.bits.items ≤ length net.old }
    requires b { top b.now.bits.items ≤ length net.old }
    ensures grown { Grown net.old net.new }
    ensures ok { IfOk result (λ r. Spells net.new r.bits.items (length a.now.bits.items)
        (λ v. signed_quotient (length a.now.bits.items) (number v a.now.bits.items) (number v b.now.bits.items))) }
{
    let bits = dividing::quotient_signed(net, &a.bits, &b.bits)?;
    Ok(Word { bits })
}

/// The remainder of two unsigned words; the dividend for a zero divisor.
pub fn rem_u(net: &mut Net, a: &Word, b: &Word) -> Result<Word, OutOfMemory>
    requires same { length a.now.bits.items ≡ length b.now.bits.items }
    requires a { top a.now.bits.items ≤ length net.old }
    requires b { top b.now.bits.items ≤ length net.old }
    ensures grown { Grown net.old net.new }
    ensures ok { IfOk result (λ r. Spells net.new r.bits.items (length a.now.bits.items)
        (λ v. remainder (number v a.now.bits.items) (number v b.now.bits.items))) }
{
    let division = dividing::divide(net, &a.bits, &b.bits)?;
    Ok(Word {
        bits: division.rest,
    })
}

/// The remainder of two signed words, with the sign of the dividend (C11 6.5.5); the dividend for a zero divisor.
pub fn rem_s(net: &mut Net, a: &Word, b: &Word) -> Result<Word, OutOfMemory>
    requires some { 0 < length a.now.bits.items }
    requires same { length a.now.bits.items ≡ length b.now.bits.items }
    requires a { top a.now.bits.items ≤ length net.old }
    requires b { top b.now.bits.items ≤ length net.old }
    ensures grown { Grown net.old net.new }
    ensures ok { IfOk result (λ r. Spells net.new r.bits.items (length a.now.bits.items)
        (λ v. signed_remainder (length a.now.bits.items) (number v a.now.bits.items) (number v b.now.bits.items))) }
{
    let bits = dividing::remainder_signed(net, &a.bits, &b.bits)?;
    Ok(Word { bits })
}

/// The word moved to higher places by the number of `b` (C11 6.5.7); a count that is not below the width gives 0.
pub fn shl(net: &mut Net, a: &Word, b: &Word) -> Result<Word, OutOfMemory>
    requires small { length a.now.bits.items ≤ 64 }
    requires same { length a.now.bits.items ≡ length b.now.bits.items }
    requires a { top a.now.bits.items ≤ length net.old }
    requires b { top b.now.bits.items ≤ length net.old }
    ensures grown { Grown net.old net.new }
    ensures ok { IfOk result (λ r. Spells net.new r.bits.items (length a.now.bits.items)
        (λ v. (number v a.now.bits.items * 2 ^ number v b.now.bits.items) % 2 ^ length a.now.bits.items)) }
{
    let bits = shifting::shift(net, Direction::Up, &a.bits, &b.bits)?;
    Ok(Word { bits })
}

/// The unsigned word moved to lower places by the number of `b` (C11 6.5.7); a count that is not below the width gives 0.
pub fn shr_u(net: &mut Net, a: &Word, b: &Word) -> Result<Word, OutOfMemory>
    requires small { length a.now.bits.items ≤ 64 }
    requires same { length a.now.bits.items ≡ length b.now.bits.items }
    requires a { top a.now.bits.items ≤ length net.old }
    requires b { top b.now.bits.items ≤ length net.old }
    ensures grown { Grown net.old net.new }
    ensures ok { IfOk result (λ r. Spells net.new r.bits.items (length a.now.bits.items)
        (λ v. number v a.now.bits.items / 2 ^ number v b.now.bits.items)) }
{
    let bits = shifting::shift(net, Direction::Down, &a.bits, &b.bits)?;
    Ok(Word { bits })
}

/// The signed word moved to lower places by the number of `b`, with copies of the sign bit above it (C11 6.5.7); a count that is
/// not below the width leaves copies of the sign bit alone.
pub fn shr_s(net: &mut Net, a: &Word, b: &Word) -> Result<Word, OutOfMemory>
    requires some { 0 < length a.now.bits.items }
    requires small { length a.now.bits.items ≤ 64 }
    requires same { length a.now.bits.items ≡ length b.now.bits.items }
    requires a { top a.now.bits.items ≤ length net.old }
    requires b { top b.now.bits.items ≤ length net.old }
    ensures grown { Grown net.old net.new }
    ensures ok { IfOk result (λ r. Spells net.new r.bits.items (length a.now.bits.items)
        (λ v. wrapped (length a.now.bits.items) (moved_down (signed (length a.now.bits.items) (number v a.now.bits.items)) (number v b.now.bits.items)))) }
{
    let bits = shifting::shift_signed(net, &a.bits, &b.bits)?;
    Ok(Word { bits })
}

/// Holds where the unsigned number of `a` is below that of `b` (C11 6.5.8).
pub fn less_u(net: &mut Net, a: &Word, b: &Word) -> Result<Gate, OutOfMemory>
    requires same { length a.now.bits.items ≡ length b.now.bits.items }
    requires a { top a.now.bits.items ≤ length net.old }
    requires b { top b.now.bits.items ≤ length net.old }
    ensures grown { Grown net.old net.new }
    ensures ok { IfOk result (λ r. Gives net.new r.at (λ choice v. nat_lt (number v a.now.bits.items) (number v b.now.bits.items))) }
{
    bits::less(net, &a.bits, &b.bits)
}

/// Holds where the signed number of `a` is below that of `b` (C11 6.5.8).
pub fn less_s(net: &mut Net, a: &Word, b: &Word) -> Result<Gate, OutOfMemory>
    requires some { 0 < length a.now.bits.items }
    requires same { length a.now.bits.items ≡ length b.now.bits.items }
    requires a { top a.now.bits.items ≤ length net.old }
    requires b { top b.now.bits.items ≤ length net.old }
    ensures grown { Grown net.old net.new }
    ensures ok { IfOk result (λ r. Gives net.new r.at
        (λ choice v. int_lt (signed (length a.now.bits.items) (number v a.now.bits.items)) (signed (length a.now.bits.items) (number v b.now.bits.items)))) }
{
    bits::less_signed(net, &a.bits, &b.bits)
}

/// Holds where the two words are equal (C11 6.5.9).
pub fn equal(net: &mut Net, a: &Word, b: &Word) -> Result<Gate, OutOfMemory>
    requires same { length a.now.bits.items ≡ length b.now.bits.items }
    requires a { top a.now.bits.items ≤ length net.old }
    requires b { top b.now.bits.items ≤ length net.old }
    ensures grown { Grown net.old net.new }
    ensures ok { IfOk result (λ r. Gives net.new r.at (λ choice v. nat_eq (number v a.now.bits.items) (number v b.now.bits.items))) }
{
    bits::equal(net, &a.bits, &b.bits)
}

/// Holds where the bits spell this number: a constant of a state, of a case, of a row. A number that does not fit is never spelt.
pub fn is_number(net: &mut Net, bits: &[Gate], n: u64) -> Result<Gate, OutOfMemory>
    requires { top bits.now ≤ length net.old }
    ensures grown { Grown net.old net.new }
    ensures ok { IfOk result (λ r. Gives net.new r.at (λ choice v. nat_eq (number v bits.now) n)) }
{
    making::is_number(net, bits, n)
}

/// The word of `width` bits that a conversion makes of `a` (C11 6.3.1.3): its low bits, or copies of its sign bit above it where it is
/// signed, or zeros. It makes no gate.
pub fn convert(net: &mut Net, a: &Word, signed: bool, width: usize) -> Result<Word, OutOfMemory>
    requires some { 0 < length a.now.bits.items }
    requires a { top a.now.bits.items ≤ length net.old }
    ensures grown { net.new ≡ net.old }
    ensures ok { IfOk result (λ r. Spells net.new r.bits.items width
        (λ v. converted signed (length a.now.bits.items) width (number v a.now.bits.items))) }
{
    let bits = converting::converted_to(net, &a.bits, signed, width)?;
    Ok(Word { bits })
}
