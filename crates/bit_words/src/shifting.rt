//! Shifts by a word: the bits of the count move the word by 1, 2, 4, .. places, as long as that is less than its width; where a
//! higher bit of the count holds, nothing of the word is left.
ghost use Rattle.std.specs.Prelude.{◌≡◌, ℕ, ◌+◌, ◌<◌, ◌≤◌, ◌++◌, length, IfOk};
ghost use Rattle.bit_net.specs.Runs.{Grown};
ghost use Rattle.bit_words.specs.Number.{number, top, signed, wrapped, moved_down};
ghost use Rattle.bit_words.specs.Parts.{moved, IsShiftStep};
ghost use Rattle.bit_words.specs.Spells.{Spells};

use crate::bits::{self, Bitwise};
use bit_net::{Gate, Net, OutOfMemory};
use std::alloc::{AllocError, Global};

/// Where the bits of a word go: to higher places, or to lower ones.
#[derive(Clone, Copy)]
pub enum Direction {
    Up,
    Down,
}

/// A word that is shifted by the bits of the count so far. It is zero where `beyond` holds.
#[derive(Drop)]
struct Shifted {
    word: Vec<Gate>,
    beyond: Gate,
}

/// The high bits and behind them the low ones.
fn joined(alloc: Global, high: &[Gate], low: &[Gate]) -> Result<Vec<Gate>, AllocError>
    ensures { IfOk result (λ r. r.items ≡ high.now ++ low.now) }
{
    let mut bits = Vec::from_slice(alloc, high)?;
    bits.extend_from_slice(low)?;
    Ok(bits)
}

/// The word moved by a number of places, zeros in the places that become free.
fn moved_by(
    net: &Net,
    direction: Direction,
    a: &[Gate],
    by: usize,
) -> Result<Vec<Gate>, OutOfMemory>
    requires by { by ≤ length a.now }
    requires a { top a.now ≤ length net.now }
    ensures { IfOk result (λ r. Spells net.now r.items (length a.now) (λ v. moved direction (length a.now) (number v a.now) by)) }
{
    let none = bits::repeated(net, net.constant(false), by)?;
    match direction {
        Direction::Up => {
            let bits = joined(net.alloc(), &a[by..], &none)?;
            Ok(bits)
        }
        Direction::Down => {
            let bits = joined(net.alloc(), &none, &a[..a.len() - by])?;
            Ok(bits)
        }
    }
}

/// The word moved by `by` places where `bit` holds.
#[tactic(auto, using(crate::proofs::NumberLemmas::bound_laws))]
fn shift_once(
    net: &mut Net,
    direction: Direction,
    shifted: Shifted,
    by: usize,
    bit: Gate,
) -> Result<Shifted, OutOfMemory>
    requires word { top shifted.word.items ≤ length net.old }
    requires beyond { shifted.beyond.at < length net.old }
    requires bit { bit.at < length net.old }
    ensures grown { Grown net.old net.new }
    ensures ok { IfOk result (λ r. IsShiftStep net.new r.word.items r.beyond.at direction shifted.word.items shifted.beyond.at by bit.at) }
{
    if by < shifted.word.len() {
        let moved = moved_by(net, direction, &shifted.word, by)?;
        let word = bits::select(net, bit, &moved, &shifted.word)?;
        Ok(Shifted {
            word,
            beyond: shifted.beyond,
        })
    } else {
        let beyond = bits::apply(net, Bitwise::Or, shifted.beyond, bit)?;
        Ok(Shifted {
            word: shifted.word,
            beyond,
        })
    }
}

/// The word moved by as many places as the count says; a count that is not below the width leaves zero.
#[tactic(auto, using(crate::proofs::NumberLemmas::bound_laws))]
pub fn shift(
    net: &mut Net,
    direction: Direction,
    a: &[Gate],
    count: &[Gate],
) -> Result<Vec<Gate>, OutOfMemory>
    requires small { length count.now ≤ 64 }
    requires a { top a.now ≤ length net.old }
    requires count { top count.now ≤ length net.old }
    ensures grown { Grown net.old net.new }
    ensures ok { IfOk result (λ r. Spells net.new r.items (length a.now) (λ v. moved direction (length a.now) (number v a.now) (number v count.now))) }
{
    let no = net.constant(false);
    let none = bits::repeated(net, no, a.len())?;
    let mut shifted = Shifted {
        word: Vec::from_slice(net.alloc(), a)?,
        beyond: no,
    };
    for j in 0..count.len() {
        let bit = count[count.len() - 1 - j];
        let next = shift_once(net, direction, shifted, 1 << j, bit)?;
        shifted = next;
    }
    bits::select(net, shifted.beyond, &none, &shifted.word)
}

/// The signed word moved to lower places, with copies of its sign bit in the places that become free.
#[tactic(auto, using(crate::proofs::NumberLemmas::bound_laws))]
pub fn shift_signed(net: &mut Net, a: &[Gate], count: &[Gate]) -> Result<Vec<Gate>, OutOfMemory>
    requires some { 0 < length a.now }
    requires small { length count.now ≤ 64 }
    requires a { top a.now ≤ length net.old }
    requires count { top count.now ≤ length net.old }
    ensures grown { Grown net.old net.new }
    ensures ok { IfOk result (λ r. Spells net.new r.items (length a.now)
        (λ v. wrapped (length a.now) (moved_down (signed (length a.now) (number v a.now)) (number v count.now)))) }
{
    let from_zero = bits::flipped(net, a, a[0])?;
    let shifted = shift(net, Direction::Down, &from_zero, count)?;
    bits::flipped(net, &shifted, a[0])
}
