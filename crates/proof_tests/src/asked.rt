//! A small net, asked about gates that hold for some choices and for none. Each of the 64 known choices has no bit set, so the solver is
//! asked too.
ghost use Rattle.std.specs.Prelude.{◌≡◌, ◌<◌, length, IfOk};
ghost use Rattle.bit_net.specs.Circuit.{input_count};
ghost use Rattle.bit_net.specs.Runs.{Grown};
ghost use Rattle.gate_questions.specs.Ready.{IsReady};

use bit_net::{Gate, Net};
use gate_questions::{OutOfMemory, Questions, what_may_be_asked_stays};
use sat_base::Plain;
use std::alloc::Global;

/// Gates of three inputs.
#[derive(Clone, Copy)]
struct Gates {
    first_two: Gate,
    not_first: Gate,
    just_one: Gate,
}

/// Makes the gates.
fn gates_in(net: &mut Net) -> Result<Gates, OutOfMemory>
    requires { input_count net.old ≡ 3 }
    ensures grown { Grown net.old net.new }
    ensures first_two { IfOk result (λ g. g.first_two.at < length net.new) }
    ensures not_first { IfOk result (λ g. g.not_first.at < length net.new) }
    ensures just_one { IfOk result (λ g. g.just_one.at < length net.new) }
{
    let first = net.input(0);
    let second = net.input(1);
    let first_two = net.and(first, second)?;
    let not_first = net.not(first)?;
    let just_one = net.xor(first, second)?;
    Ok(Gates {
        first_two,
        not_first,
        just_one,
    })
}

/// Whether the bits are those of the first choice that has just one of the first two bits.
fn are_first(bits: Option<Vec<bool>>) -> bool {
    match bits {
        Some(bits) => bits.as_slice() == [false, true, false].as_slice(),
        None => false,
    }
}

/// Asks whether the first two bits can be set, whether they can without the first one, and for the first choice that has just one of
/// them: twice, since an answer does not depend on what was asked before.
fn are_answered(
    net: &Net,
    questions: &mut Questions<Plain>,
    gates: Gates,
) -> Result<bool, OutOfMemory>
    requires ready { IsReady net.now questions.old }
    requires first_two { gates.first_two.at < length net.now }
    requires not_first { gates.not_first.at < length net.now }
    requires just_one { gates.just_one.at < length net.now }
    ensures ready { IsReady net.now questions.new }
{
    let holds = questions.some(net, &[gates.first_two])?;
    let never = questions.some(net, &[gates.first_two, gates.not_first])?;
    let first = questions.first(net, &[gates.just_one])?;
    Ok(holds && !never && are_first(first))
}

/// Whether all is answered as it should be, over a net that grows.
fn all_is_answered(alloc: Global) -> Result<bool, OutOfMemory> {
    what_may_be_asked_stays();
    let mut net = Net::new(alloc, 3)?;
    let lanes = vec![in alloc; 0; 3]?;
    let mut questions = Questions::new(alloc, Plain::new(alloc), lanes);
    let gates = gates_in(&mut net)?;
    let once = are_answered(&net, &mut questions, gates)?;
    let again = are_answered(&net, &mut questions, gates)?;
    Ok(once && again)
}

#[test]
fn questions_have_their_answers(rt: HostRuntime) {
    assert!(rt; matches!(all_is_answered(rt.alloc()), Ok(true)));
}
