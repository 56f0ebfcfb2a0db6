// The choices that are tried before the solver: 64 at once, as a word for each bit of a choice. Their bits are drawn as if by chance, but
// what has more than one bit is 0 in about half of the choices, since that is where runs differ. No answer depends on them.

ghost use Rattle.std.specs.Prelude.{◌≡◌, ◌<◌, length, IfOk};
ghost use Rattle.layout_base.specs.Seen.{layout_of};

use layout_base::Places;
use sc_base::OutOfMemory;
use std::alloc::Global;

/// Words one after the other, by a shift register (xorshift64).
#[derive(Drop)]
struct Words {
    word: u64,
}

impl Words {
    fn draw(&mut self) -> u64 {
        let mut word = self.word;
        word ^= word << 13;
        word ^= word >> 7;
        word ^= word << 17;
        self.word = word;
        word
    }
}

/// Marks the first bit of something.
fn mark(firsts: &mut [bool], bit: u32) {
    if let Some(first) = firsts.get_mut(bit as usize) {
        *first = true;
    }
}

/// For each bit of a choice whether something begins with it: the cell of a location, its state at entry, a call, or what a call says.
#[tactic(auto, unfolding(layout_base::specs::Seen::layout_of))]
fn first_bits(alloc: Global, places: &Places) -> Result<Vec<bool>, OutOfMemory>
    ensures { IfOk result (λ firsts. length firsts.items ≡ (layout_of places.now).bits) }
{
    let mut firsts = vec![in alloc; false; places.bits as usize]?;
    for location in &places.locations {
        if let Some(bit) = location.bit {
            mark(firsts.as_mut_slice(), bit);
        }
        if let Some(bit) = location.state {
            mark(firsts.as_mut_slice(), bit);
        }
    }
    for call in &places.occurrences {
        mark(firsts.as_mut_slice(), call.bit);
    }
    for spot in &places.spots {
        mark(firsts.as_mut_slice(), spot.bit);
    }
    Ok(firsts)
}

/// Whether what begins with bit `at` has this bit alone.
fn is_alone(firsts: &[bool], at: usize) -> bool
    requires { at < length firsts.now }
{
    match firsts.get(at + 1) {
        Some(first) => *first,
        None => true,
    }
}

/// A word for each bit of a choice.
pub fn first_lanes(alloc: Global, places: &Places) -> Result<Vec<u64>, OutOfMemory>
    ensures { IfOk result (λ lanes. length lanes.items ≡ (layout_of places.now).bits) }
{
    let firsts = first_bits(alloc, places)?;
    let mut words = Words {
        word: 0x9e37_79b9_7f4a_7c15,
    };
    let mut lanes = Vec::new(alloc);
    let mut shown = u64::MAX;
    for at in 0..firsts.len() {
        if firsts[at] {
            shown = if is_alone(firsts.as_slice(), at) {
                u64::MAX
            } else {
                words.draw()
            };
        }
        lanes.push(words.draw() & shown)?;
    }
    Ok(lanes)
}
