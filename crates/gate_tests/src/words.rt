//! Every operation at widths 1 to 4 over all operands, beside Rust's own arithmetic; the worked numbers of 8 bits; and what a caller's
//! proof looks like after ten calls on one net.
ghost use Rattle.std.specs.Prelude.{◌≡◌, ◌+◌, ◌<◌, ◌≤◌, length, IfOk};
ghost use Rattle.bit_net.specs.Circuit.{input_count};
ghost use Rattle.bit_net.specs.Runs.{Grown, Gives};
ghost use Rattle.bit_words.specs.Number.{top};

use crate::values::is_value;
use bit_net::{Gate, Net, OutOfMemory};
use bit_words::{
    Word, add, and_words, constant, convert, div_s, div_u, equal, is_zero, less_s, less_u, mul,
    of_gate, or_words, rem_s, rem_u, select, shl, shr_s, shr_u, sub, xor_words,
};
use std::alloc::Global;

/// The calls on words, and four conversions.
#[derive(Clone, Copy)]
enum Operation {
    Add,
    Sub,
    Mul,
    And,
    Or,
    Xor,
    DivU,
    DivS,
    RemU,
    RemS,
    Shl,
    ShrU,
    ShrS,
    LessU,
    LessS,
    Equal,
    WidenU,
    WidenS,
    NarrowU,
    NarrowS,
}

/// Each operation, and its name.
const OPERATIONS: &[(Operation, &str)] = &[
    (Operation::Add, "Add"),
    (Operation::Sub, "Sub"),
    (Operation::Mul, "Mul"),
    (Operation::And, "And"),
    (Operation::Or, "Or"),
    (Operation::Xor, "Xor"),
    (Operation::DivU, "DivU"),
    (Operation::DivS, "DivS"),
    (Operation::RemU, "RemU"),
    (Operation::RemS, "RemS"),
    (Operation::Shl, "Shl"),
    (Operation::ShrU, "ShrU"),
    (Operation::ShrS, "ShrS"),
    (Operation::LessU, "LessU"),
    (Operation::LessS, "LessS"),
    (Operation::Equal, "Equal"),
    (Operation::WidenU, "WidenU"),
    (Operation::WidenS, "WidenS"),
    (Operation::NarrowU, "NarrowU"),
    (Operation::NarrowS, "NarrowS"),
];

/// The word of the inputs from `from` on, as far as `end`.
#[tactic(auto, using(bit_words::proofs::NumberLemmas::bound_laws))]
fn input_word(net: &Net, from: usize, end: usize) -> Result<Word, OutOfMemory>
    requires order { from ≤ end }
    requires inputs { end ≤ input_count net.now }
    ensures wide { IfOk result (λ r. from + length r.bits.items ≡ end) }
    ensures below { IfOk result (λ r. top r.bits.items ≤ length net.now) }
{
    let mut bits = Vec::new(net.alloc());
    for k in from..end {
        let gate = net.input(k);
        bits.push(gate)?;
    }
    Ok(Word { bits })
}

/// A word of one bit.
#[tactic(auto, using(bit_words::proofs::NumberLemmas::bound_laws))]
fn bit_word(net: &Net, gate: Gate) -> Result<Word, OutOfMemory>
    requires { gate.at < length net.now }
    ensures { IfOk result (λ r. top r.bits.items ≤ length net.now) }
{
    Ok(Word {
        bits: vec![in net.alloc(); gate]?,
    })
}

fn comparison(net: &mut Net, operation: Operation, a: &Word, b: &Word) -> Result<Word, OutOfMemory>
    requires some { 0 < length a.now.bits.items }
    requires same { length a.now.bits.items ≡ length b.now.bits.items }
    requires a { top a.now.bits.items ≤ length net.old }
    requires b { top b.now.bits.items ≤ length net.old }
    ensures grown { Grown net.old net.new }
    ensures below { IfOk result (λ r. top r.bits.items ≤ length net.new) }
{
    let gate = match operation {
        Operation::LessU => less_u(net, a, b)?,
        Operation::LessS => less_s(net, a, b)?,
        _ => equal(net, a, b)?,
    };
    bit_word(net, gate)
}

fn conversion(net: &mut Net, operation: Operation, a: &Word) -> Result<Word, OutOfMemory>
    requires some { 0 < length a.now.bits.items }
    requires a { top a.now.bits.items ≤ length net.old }
    ensures same { net.new ≡ net.old }
    ensures below { IfOk result (λ r. top r.bits.items ≤ length net.new) }
{
    match operation {
        Operation::WidenU => convert(net, a, false, 16),
        Operation::WidenS => convert(net, a, true, 16),
        Operation::NarrowU => convert(net, a, false, 1),
        _ => convert(net, a, true, 1),
    }
}

fn apply(net: &mut Net, operation: Operation, a: &Word, b: &Word) -> Result<Word, OutOfMemory>
    requires some { 0 < length a.now.bits.items }
    requires small { length a.now.bits.items ≤ 64 }
    requires same { length a.now.bits.items ≡ length b.now.bits.items }
    requires a { top a.now.bits.items ≤ length net.old }
    requires b { top b.now.bits.items ≤ length net.old }
    ensures grown { Grown net.old net.new }
    ensures below { IfOk result (λ r. top r.bits.items ≤ length net.new) }
{
    match operation {
        Operation::Add => add(net, a, b),
        Operation::Sub => sub(net, a, b),
        Operation::Mul => mul(net, a, b),
        Operation::And => and_words(net, a, b),
        Operation::Or => or_words(net, a, b),
        Operation::Xor => xor_words(net, a, b),
        Operation::DivU => div_u(net, a, b),
        Operation::DivS => div_s(net, a, b),
        Operation::RemU => rem_u(net, a, b),
        Operation::RemS => rem_s(net, a, b),
        Operation::Shl => shl(net, a, b),
        Operation::ShrU => shr_u(net, a, b),
        Operation::ShrS => shr_s(net, a, b),
        Operation::LessU | Operation::LessS | Operation::Equal => comparison(net, operation, a, b),
        _ => conversion(net, operation, a),
    }
}

/// The unsigned number of a word, where the inputs have the bits of the choice.
#[tactic(auto, using(bit_words::proofs::NumberLemmas::bound_laws))]
fn number_at(net: &Net, choice: &[bool], word: &Word) -> Result<i64, OutOfMemory>
    requires inputs { length choice.now ≡ input_count net.now }
    requires word { top word.now.bits.items ≤ length net.now }
{
    let mut room = vec![in net.alloc(); false; net.len()]?;
    net.values_into(choice, &mut room);
    let mut number = 0i64;
    for i in 0..word.bits.len() {
        let gate = word.bits[i];
        number = number
            .wrapping_mul(2)
            .wrapping_add(i64::from(room[gate.at]));
    }
    Ok(number)
}

/// What an operation makes of the two words that the bits of the choice spell, the first half and the second.
fn computed(
    alloc: Global,
    operation: Operation,
    width: usize,
    choice: &[bool],
) -> Result<i64, OutOfMemory>
    requires some { 0 < width }
    requires small { width ≤ 64 }
    requires choice { length choice.now ≡ width + width }
{
    let mut net = Net::new(alloc, choice.len())?;
    let a = input_word(&net, 0, width)?;
    let b = input_word(&net, width, choice.len())?;
    let word = apply(&mut net, operation, &a, &b)?;
    number_at(&net, choice, &word)
}

/// The bits of a number, the high one first.
fn spell(mut number: u32, choice: &mut [bool]) {
    let bits = choice.len();
    for k in 0..bits {
        choice[bits - 1 - k] = number % 2 == 1;
        number /= 2;
    }
}

/// What is left of a number modulo `all`.
fn wrap(number: i64, all: i64) -> i64 {
    number.checked_rem_euclid(all).unwrap_or(0)
}

/// The signed number that the unsigned one spells, of `all` numbers.
fn signed_of(number: i64, all: i64) -> i64 {
    if number.wrapping_mul(2) < all {
        number
    } else {
        number.wrapping_sub(all)
    }
}

/// What Rust's own arithmetic makes of two numbers of a width that has `all` numbers.
fn expected(operation: Operation, all: i64, a: i64, b: i64) -> i64 {
    let x = signed_of(a, all);
    let y = signed_of(b, all);
    let count = u32::try_from(b).unwrap_or(0);
    match operation {
        Operation::Add => wrap(a.wrapping_add(b), all),
        Operation::Sub => wrap(a.wrapping_sub(b), all),
        Operation::Mul => wrap(a.wrapping_mul(b), all),
        Operation::And => a & b,
        Operation::Or => a | b,
        Operation::Xor => a ^ b,
        Operation::DivU => a.checked_div(b).unwrap_or(0),
        Operation::DivS => wrap(x.checked_div(y).unwrap_or(0), all),
        Operation::RemU => a.checked_rem(b).unwrap_or(a),
        Operation::RemS => wrap(x.checked_rem(y).unwrap_or(x), all),
        Operation::Shl => wrap(a.wrapping_shl(count), all),
        Operation::ShrU => a.wrapping_shr(count),
        Operation::ShrS => wrap(x.wrapping_shr(count), all),
        Operation::LessU => i64::from(a < b),
        Operation::LessS => i64::from(x < y),
        Operation::Equal => i64::from(a == b),
        Operation::WidenU => a,
        Operation::WidenS => wrap(x, 65536),
        Operation::NarrowU => wrap(a, 2),
        Operation::NarrowS => wrap(x, 2),
    }
}

/// What an operation makes of two numbers of a width.
fn trial(
    alloc: Global,
    operation: Operation,
    width: usize,
    a: u32,
    b: u32,
) -> Result<i64, OutOfMemory>
    requires some { 0 < width }
    requires small { width ≤ 8 }
{
    let mut choice = [false; 16];
    let end = width + width;
    spell(a, &mut choice[..width]);
    spell(b, &mut choice[width..end]);
    computed(alloc, operation, width, &choice[..end])
}

/// Whether an operation makes of all pairs of numbers below `all` what Rust's own arithmetic makes of them.
fn holds_over_all(alloc: Global, operation: Operation, width: usize, all: u32) -> bool
    requires some { 0 < width }
    requires small { width ≤ 8 }
{
    for a in 0..all {
        for b in 0..all {
            let wanted = expected(operation, i64::from(all), i64::from(a), i64::from(b));
            if trial(alloc, operation, width, a, b) != Ok(wanted) {
                return false;
            }
        }
    }
    true
}

#[test]
fn operations_over_all_operands(rt: HostRuntime) {
    for &(operation, name) in OPERATIONS {
        let holds = holds_over_all(rt.alloc(), operation, 1, 2)
            && holds_over_all(rt.alloc(), operation, 2, 4)
            && holds_over_all(rt.alloc(), operation, 3, 8)
            && holds_over_all(rt.alloc(), operation, 4, 16);
        assert!(rt; holds, "{name}");
    }
}

/// An operation, two operands of 8 bits, and what it makes of them.
const WORKED: &[(Operation, u32, u32, i64)] = &[
    (Operation::Add, 255, 1, 0),
    (Operation::Sub, 3, 5, 254),
    (Operation::Mul, 16, 17, 16),
    (Operation::DivS, 249, 2, 253),
    (Operation::RemS, 249, 2, 255),
    (Operation::DivU, 200, 7, 28),
    (Operation::RemU, 200, 7, 4),
    (Operation::Shl, 1, 7, 128),
    (Operation::ShrU, 128, 7, 1),
    (Operation::ShrS, 128, 7, 255),
    (Operation::And, 12, 10, 8),
    (Operation::Or, 12, 10, 14),
    (Operation::Xor, 12, 10, 6),
    (Operation::LessU, 255, 1, 0),
    (Operation::LessS, 255, 1, 1),
    (Operation::Equal, 5, 5, 1),
    (Operation::WidenS, 255, 0, 65535),
    (Operation::DivU, 200, 0, 0),
    (Operation::RemS, 249, 0, 249),
    (Operation::DivS, 128, 255, 128),
    (Operation::ShrS, 128, 8, 255),
];

#[test]
fn worked_numbers(rt: HostRuntime) {
    for &(operation, a, b, wanted) in WORKED {
        let found = trial(rt.alloc(), operation, 8, a, b);
        assert!(rt; found == Ok(wanted), "{wanted} of {a} and {b}");
    }
}

/// Ten calls on one net in a row: their clauses speak of one `v`, so a proof takes each run back by one `grown` a call, and joins the
/// ten equations (`proofs/words/ten_calls`).
fn ten_calls(net: &mut Net, a: Gate, b: Gate) -> Result<Gate, OutOfMemory>
    requires a { a.at < length net.old }
    requires b { b.at < length net.old }
    ensures grown { Grown net.old net.new }
    ensures ok { IfOk result (λ r. Gives net.new r.at (λ choice v. v a.at)) }
{
    let g1 = net.xor(a, b)?;
    let g2 = net.xor(g1, b)?;
    let g3 = net.xor(g2, b)?;
    let g4 = net.xor(g3, b)?;
    let g5 = net.xor(g4, b)?;
    let g6 = net.xor(g5, b)?;
    let g7 = net.xor(g6, b)?;
    let g8 = net.xor(g7, b)?;
    let g9 = net.xor(g8, b)?;
    let g10 = net.xor(g9, b)?;
    Ok(g10)
}

fn is_same(alloc: Global) -> Result<bool, OutOfMemory> {
    let mut net = Net::new(alloc, 2)?;
    let a = net.input(0);
    let b = net.input(1);
    let same = ten_calls(&mut net, a, b)?;
    Ok(is_value(&net, &[true, true], same, true))
}

#[test]
fn ten_calls_on_one_net(rt: HostRuntime) {
    assert!(rt; is_same(rt.alloc()) == Ok(true));
}

/// The word of a gate, of a number and of a choice; a word once more; and whether a word is zero.
fn are_words(alloc: Global) -> Result<bool, OutOfMemory> {
    let mut net = Net::new(alloc, 1)?;
    let input = net.input(0);
    let yes = net.constant(true);
    let no = net.constant(false);
    let bit = of_gate(&net, input, 3)?;
    let zero = is_zero(&mut net, &bit)?;
    let opposite = net.not(input)?;
    let five = constant(&net, 13, 3)?;
    let again = five.try_clone(&net)?;
    let same = select(&mut net, input, &five, &again)?;
    Ok(
        bit.bits.as_slice() == [no, no, input].as_slice()
            && zero == opposite
            && five.bits.as_slice() == [yes, no, yes].as_slice()
            && same.bits.as_slice() == five.bits.as_slice(),
    )
}

#[test]
fn words_of_gates_and_numbers(rt: HostRuntime) {
    assert!(rt; are_words(rt.alloc()) == Ok(true));
}
