//! Products, from the high bit of the second factor down: the product so far is doubled, and the first factor added where the next
//! bit holds. It grows by a bit in each turn, so only half of a square of full adders is made.
ghost use Rattle.std.specs.Prelude.{◌≡◌, ℕ, ◌*◌, ◌%◌, ◌^◌, ◌≤◌, length, IfOk};
ghost use Rattle.bit_net.specs.Runs.{Grown};
ghost use Rattle.bit_words.specs.Number.{number, top};
ghost use Rattle.bit_words.specs.Spells.{Spells};

use crate::adding;
use bit_net::{Gate, Net, OutOfMemory};

/// The low half of the product of two words of one width.
#[tactic(auto, using(crate::proofs::NumberLemmas::bound_laws))]
pub fn product(net: &mut Net, a: &[Gate], b: &[Gate]) -> Result<Vec<Gate>, OutOfMemory>
    requires same { length a.now ≡ length b.now }
    requires a { top a.now ≤ length net.old }
    requires b { top b.now ≤ length net.old }
    ensures grown { Grown net.old net.new }
    ensures ok { IfOk result (λ r. Spells net.new r.items (length a.now) (λ v. (number v a.now * number v b.now) % 2 ^ length a.now)) }
{
    let no = net.constant(false);
    let mut product = Vec::new(net.alloc());
    for i in 0..a.len() {
        product.push(no)?;
        let low = &a[a.len() - 1 - i..];
        let next = adding::add_where(net, &product, low, b[i])?;
        product = next;
    }
    Ok(product)
}
