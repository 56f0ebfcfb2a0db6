// A graph as text: for each node a letter, and where it goes on.

use sc_base::OutOfMemory;
use sc_flow::{Flow, Node, Want};
use std::alloc::Global;
use sum_rows::What;

// An event: the condition of an `if` holds or not, that of a loop holds or not, `goto`, `return`, the end of the body.
fn event(what: &What) -> char {
    match what {
        What::If(holds) => { if *holds { '+' } else { '-' } }
        What::Loop(holds) => { if *holds { '>' } else { '<' } }
        What::Goto(_) => 'g',
        What::Return => 'r',
        What::End => '}',
        What::Call(_) | What::Switch(_) | What::Bad(_) => '!',
    }
}

// The letter of a node, and one or two numbers: where it goes on, and of a call its turn.
fn told(node: &Node) -> (char, Option<u32>, Option<u32>) {
    match node {
        Node::Keep {
            want: Want::Value,
            next,
            ..
        } => ('k', Some(*next), None),
        Node::Keep {
            want: Want::Place,
            next,
            ..
        } => ('p', Some(*next), None),
        Node::KeepCells { next, .. } => ('c', Some(*next), None),
        Node::Call { calling, next, .. } => ('f', Some(*next), Some(calling.turn)),
        Node::Update { next, .. } => ('u', Some(*next), None),
        Node::Set { next, .. } => ('s', Some(*next), None),
        Node::Fill { next, .. } => ('i', Some(*next), None),
        Node::Branch { hit, miss, .. } => ('b', Some(*hit), Some(*miss)),
        Node::Choose { hit, miss, .. } => ('e', Some(*hit), Some(*miss)),
        Node::Mark {
            event: what,
            next,
            ..
        } => (event(what), Some(*next), None),
        Node::MarkSwitch { next, .. } => ('w', Some(*next), None),
        Node::Exit { from: None } => ('x', None, None),
        Node::Exit { from: Some(_) } => ('v', None, None),
        Node::SetAside { .. } => ('a', None, None),
    }
}

fn word(alloc: Global, node: &Node) -> Result<String, OutOfMemory> {
    let text = match told(node) {
        (letter, Some(a), Some(b)) => format!(in alloc; "{letter}{a},{b} ")?,
        (letter, Some(a), None) => format!(in alloc; "{letter}{a} ")?,
        (letter, _, _) => format!(in alloc; "{letter} ")?,
    };
    Ok(text)
}

/// The graph, a word for each node.
pub fn text_of(alloc: Global, flow: &Flow) -> Result<String, OutOfMemory> {
    let mut text = String::new(alloc);
    for node in flow.nodes.as_slice() {
        let word = word(alloc, node)?;
        text.push_str(word.as_str())?;
    }
    Ok(text)
}
