//! Nets of a generator: the first choice for which two gates hold, by gates and the learning solver, beside trying all choices in order.
ghost use Rattle.std.specs.Prelude.{◌≡◌, ◌<◌, length};
ghost use Rattle.bit_net.specs.Circuit.{input_count};
ghost use Rattle.bit_net.specs.Runs.{Grown};
ghost use Rattle.gate_questions.specs.Ready.{IsReady};

use bit_net::{Gate, Net};
use choice_search::step;
use gate_questions::{OutOfMemory, Questions};
use sat_cdcl::Cdcl;
use std::alloc::Global;

/// So many nets are asked about.
const NETS: u32 = 300;

/// The number of inputs of a net, and that of its choices.
const INPUTS: usize = 8;

const CHOICES: u32 = 256;

/// So many gates are made of gates that are there; some are there already.
const DRAWN: u32 = 40;

/// So many questions are asked about one net, with one solver.
const ASKED: u32 = 3;

/// Numbers in a fixed order without a pattern.
#[derive(Drop)]
struct Numbers {
    state: u64,
}

impl Numbers {
    /// The next number below a bound, or 0 where that is 0.
    fn below(&mut self, bound: usize) -> usize {
        self.state = self
            .state
            .wrapping_mul(6364136223846793005)
            .wrapping_add(1442695040888963407);
        let number = (self.state >> 33) as usize;
        if bound == 0 { 0 } else { number % bound }
    }
}

/// One of the gates.
fn any_gate(numbers: &mut Numbers, net: &Net) -> Gate
    ensures { result.at < length net.now }
{
    let at = numbers.below(net.len());
    if at < net.len() {
        Gate { at }
    } else {
        net.constant(false)
    }
}

/// Makes a gate of others.
fn draw(numbers: &mut Numbers, net: &mut Net) -> Result<(), OutOfMemory>
    ensures { Grown net.old net.new }
{
    let a = any_gate(numbers, net);
    let b = any_gate(numbers, net);
    let c = any_gate(numbers, net);
    match numbers.below(5) {
        0 => net.and(a, b)?,
        1 => net.or(a, b)?,
        2 => net.xor(a, b)?,
        3 => net.not(a)?,
        _ => net.mux(a, b, c)?,
    };
    Ok(())
}

/// Makes gates of others, one after the other.
fn draw_all(numbers: &mut Numbers, net: &mut Net) -> Result<(), OutOfMemory>
    ensures { Grown net.old net.new }
{
    for _gate in 0..DRAWN {
        draw(numbers, net)?;
    }
    Ok(())
}

/// Whether all these gates hold for a choice.
fn hold(alloc: Global, net: &Net, gates: &[Gate], choice: &[bool]) -> Result<bool, OutOfMemory>
    requires inputs { length choice.now ≡ input_count net.now }
{
    let mut values = vec![in alloc; false; net.len()]?;
    net.values_into(choice, &mut values);
    for gate in gates {
        if values.get(gate.at).copied() != Some(true) {
            return Ok(false);
        }
    }
    Ok(true)
}

/// The first choice for which all these gates hold, by trying all in order.
fn first_tried(alloc: Global, net: &Net, gates: &[Gate]) -> Result<Option<Vec<bool>>, OutOfMemory>
    requires inputs { input_count net.now ≡ 8 }
{
    let mut choice = vec![in alloc; false; INPUTS]?;
    for _choice in 0..CHOICES {
        if hold(alloc, net, gates, choice.as_slice())? {
            return Ok(Some(choice));
        }
        step(&mut choice);
    }
    Ok(None)
}

/// Whether both are the same choice, or neither is there.
fn are_same(found: &Option<Vec<bool>>, tried: &Option<Vec<bool>>) -> bool {
    match (found, tried) {
        (Some(found), Some(tried)) => found.as_slice() == tried.as_slice(),
        (None, None) => true,
        _ => false,
    }
}

/// Asks about two of the gates: whether there is a choice for which both hold; none where an answer is not the right one.
fn asked(
    alloc: Global,
    numbers: &mut Numbers,
    net: &Net,
    questions: &mut Questions<Cdcl>,
) -> Result<Option<bool>, OutOfMemory>
    requires inputs { input_count net.now ≡ 8 }
    requires ready { IsReady net.now questions.old }
    ensures ready { IsReady net.now questions.new }
{
    let gates = [any_gate(numbers, net), any_gate(numbers, net)];
    let found = questions.first(net, &gates)?;
    let holds = questions.some(net, &gates)?;
    let tried = first_tried(alloc, net, &gates)?;
    if are_same(&found, &tried) && holds == tried.is_some() {
        Ok(Some(holds))
    } else {
        Ok(None)
    }
}

/// Asks several times about one net: for how many questions there is a choice; none where an answer is not the right one.
fn asked_often(
    alloc: Global,
    numbers: &mut Numbers,
    net: &Net,
    questions: &mut Questions<Cdcl>,
) -> Result<Option<u32>, OutOfMemory>
    requires inputs { input_count net.now ≡ 8 }
    requires ready { IsReady net.now questions.old }
{
    let mut count = 0u32;
    for _question in 0..ASKED {
        match asked(alloc, numbers, net, questions)? {
            Some(holds) => count = count.saturating_add(u32::from(holds)),
            None => return Ok(None),
        }
    }
    Ok(Some(count))
}

/// The same about a net of the generator.
fn asked_about_one(alloc: Global, numbers: &mut Numbers) -> Result<Option<u32>, OutOfMemory> {
    let mut net = Net::new(alloc, INPUTS)?;
    draw_all(numbers, &mut net)?;
    let lanes = vec![in alloc; 0; INPUTS]?;
    let mut questions = Questions::new(alloc, Cdcl::new(alloc), lanes);
    asked_often(alloc, numbers, &net, &mut questions)
}

/// For how many of all questions there is a choice; none where an answer is not the right one.
fn asked_about_all(alloc: Global) -> Result<Option<u32>, OutOfMemory> {
    let mut numbers = Numbers { state: 1 };
    let mut count = 0u32;
    for _net in 0..NETS {
        match asked_about_one(alloc, &mut numbers)? {
            Some(more) => count = count.saturating_add(more),
            None => return Ok(None),
        }
    }
    Ok(Some(count))
}

#[test]
fn first_choices_are_those_that_trying_gives(rt: HostRuntime) {
    assert!(rt; matches!(asked_about_all(rt.alloc()), Ok(Some(_))));
}
