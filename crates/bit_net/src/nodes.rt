//! Gates, the nodes behind them, and the net that holds the nodes.
ghost use Rattle.std.specs.Prelude.{◌≡◌, ℕ, ◌+◌, ◌<◌, ◌≤◌, Bool, true, false, not, ◌&&◌, ◌||◌, if◌then◌else◌, List, [], ◌∷◌, ◌++◌, length, take, slice_get, IfOk, OnOk, OnErr, IfSome, IsTrue, Some, ◌↔◌};
ghost use Rattle.bit_net.specs.Value.{bit_at, xor, table, values};
ghost use Rattle.bit_net.specs.Circuit.{first_nodes, input_count, ReadsBelow, IsCircuit};
ghost use Rattle.bit_net.specs.Runs.{Grown, Gives, Always, AreAsBoth};

use crate::OutOfMemory;
use std::alloc::Global;
use std::collections::HashMap;
use std::marker::Model;

/// A gate of a net: the place of its node.
#[derive(Clone, Copy, Debug, PartialEq, Eq, Hash)]
pub struct Gate {
    pub at: usize,
}

/// What a gate computes, from the gates of earlier nodes.
#[derive(Clone, Copy, Debug, PartialEq, Eq, Hash)]
pub enum Node {
    Constant(bool),

    /// The bit of the choice with this number.
    Input(usize),
    Not(Gate),
    And(Gate, Gate),
    Or(Gate, Gate),
    Xor(Gate, Gate),

    /// The second gate where the first holds, else the third.
    Mux(Gate, Gate, Gate),
}

/// A net of gates. A clause sees it as the list of its nodes.
#[derive(Drop)]
pub struct Net {
    alloc: Global,
    nodes: Vec<Node>,

    /// Where a node with that key was last put. It is a hint: a place is used only where the very node still stands there.
    places: HashMap<u64, usize>,
}

impl Model for Net {
    ghost use Rattle.std.specs.Prelude.{List};
    ghost use Rattle.bit_net.specs.declared.nodes.Node.{Node as Nodes};
    ghost use Rattle.bit_net.specs.Circuit.{IsCircuit};

    ghost Value = { List Nodes };

    ghost view = { λ n. n.nodes.items };

    ghost invariant = { λ n. IsCircuit n.nodes.items };
}

impl Net {
    /// A net of the two constants and of `inputs` inputs.
    pub fn new(alloc: Global, inputs: usize) -> Result<Net, OutOfMemory>
        ensures nodes { IfOk result (λ net. net ≡ first_nodes inputs) }
        ensures count { IfOk result (λ net. input_count net ≡ inputs) }
        ensures len { IfOk result (λ net. length net ≡ 2 + inputs) }
    {
        let mut nodes = Vec::new(alloc);
        let mut places = HashMap::new(alloc);
        put(&mut nodes, &mut places, Node::Constant(false))?;
        put(&mut nodes, &mut places, Node::Constant(true))?;
        for k in 0..inputs {
            put(&mut nodes, &mut places, Node::Input(k))?;
        }
        Ok(Net {
            alloc,
            nodes,
            places,
        })
    }

    /// The allocator that the net was made with.
    pub fn alloc(&self) -> Global {
        self.alloc
    }

    /// The number of gates.
    pub fn len(&self) -> usize
        ensures { result ≡ length self.now }
    {
        self.nodes.len()
    }

    /// Every net has the constants, and so it is never empty.
    pub fn is_empty(&self) -> bool
        ensures { IsTrue result ↔ (length self.now ≡ 0) }
    {
        self.nodes.is_empty()
    }

    /// What a gate computes.
    pub fn node(&self, gate: Gate) -> Node
        requires { gate.at < length self.now }
        ensures { slice_get self.now gate.at ≡ Some result }
    {
        self.nodes[gate.at]
    }

    /// Tells a caller's proof what holds of every net.
    pub fn sound(&self)
        ensures { IsCircuit self.now }
    {
        let _nodes = &self.nodes;
    }

    /// The gate of an input: the bit of the choice with this number.
    pub fn input(&self, k: usize) -> Gate
        requires { k < input_count self.now }
        ensures { Gives self.now result.at (λ choice v. choice k) }
    {
        let _gates = self.len();
        self.sound();
        Gate { at: 2 + k }
    }

    /// The gate of a constant.
    pub fn constant(&self, b: bool) -> Gate
        ensures { Gives self.now result.at (λ choice v. b) }
    {
        self.sound();
        if b { Gate { at: 1 } } else { Gate { at: 0 } }
    }

    /// Holds where both gates hold.
    pub fn and(&mut self, a: Gate, b: Gate) -> Result<Gate, OutOfMemory>
        requires a { a.at < length self.old }
        requires b { b.at < length self.old }
        ensures grown { Grown self.old self.new }
        ensures ok { IfOk result (λ r. Gives self.new r.at (λ choice v. v a.at && v b.at)) }
        ensures front { take (length self.old) self.new ≡ self.old }
        ensures err { OnErr result (self.new ≡ self.old) }
    {
        if let Some(gate) = self.folded_and(a, b) {
            return Ok(gate);
        }
        if let Some((one, other)) = self.shared(a, b) {
            return self.both(one, other);
        }
        if let Some((one, other)) = self.shared(b, a) {
            return self.both(one, other);
        }
        self.both(a, b)
    }

    /// The gate of two operands, the earlier one first.
    fn both(&mut self, a: Gate, b: Gate) -> Result<Gate, OutOfMemory>
        requires a { a.at < length self.old }
        requires b { b.at < length self.old }
        ensures grown { Grown self.old self.new }
        ensures ok { IfOk result (λ r. Gives self.new r.at (λ choice v. v a.at && v b.at)) }
        ensures front { take (length self.old) self.new ≡ self.old }
        ensures err { OnErr result (self.new ≡ self.old) }
    {
        if a.at < b.at {
            self.gate_of(Node::And(a, b))
        } else {
            self.gate_of(Node::And(b, a))
        }
    }

    /// Where `b` holds where two gates do, and `a` with one of them has a gate already: that gate, and the other one.
    fn shared(&self, a: Gate, b: Gate) -> Option<(Gate, Gate)>
        requires a { a.at < length self.now }
        requires b { b.at < length self.now }
        ensures { IfSome result (λ pair. AreAsBoth self.now a.at b.at pair.0.at pair.1.at) }
    {
        self.sound();
        match self.node(b) {
            Node::And(x, y) => {
                if let Some(one) = self.gate_of_both(a, x) {
                    return Some((one, y));
                }
                if let Some(one) = self.gate_of_both(a, y) {
                    return Some((one, x));
                }
                None
            }
            _ => None,
        }
    }

    /// The gate that holds where both gates do, if there is one already.
    fn gate_of_both(&self, a: Gate, b: Gate) -> Option<Gate>
        ensures { IfSome result (λ r. Gives self.now r.at (λ choice v. v a.at && v b.at)) }
    {
        self.sound();
        if a.at < b.at {
            if let Some(gate) = self.gate_with(Node::And(a, b)) {
                return Some(gate);
            }
        } else {
            if let Some(gate) = self.gate_with(Node::And(b, a)) {
                return Some(gate);
            }
        }
        None
    }

    /// Holds where at least one of the gates holds.
    pub fn or(&mut self, a: Gate, b: Gate) -> Result<Gate, OutOfMemory>
        requires a { a.at < length self.old }
        requires b { b.at < length self.old }
        ensures grown { Grown self.old self.new }
        ensures ok { IfOk result (λ r. Gives self.new r.at (λ choice v. v a.at || v b.at)) }
        ensures err { OnErr result (self.new ≡ self.old) }
    {
        match self.folded_or(a, b) {
            Some(gate) => Ok(gate),
            None if a.at < b.at => self.gate_of(Node::Or(a, b)),
            None => self.gate_of(Node::Or(b, a)),
        }
    }

    /// Holds where just one of the gates holds.
    pub fn xor(&mut self, a: Gate, b: Gate) -> Result<Gate, OutOfMemory>
        requires a { a.at < length self.old }
        requires b { b.at < length self.old }
        ensures grown { Grown self.old self.new }
        ensures ok { IfOk result (λ r. Gives self.new r.at (λ choice v. xor (v a.at) (v b.at))) }
        ensures err { OnErr result (self.new ≡ self.old) }
    {
        if self.known(a) == Some(true) {
            return self.not(b);
        }
        if self.known(b) == Some(true) {
            return self.not(a);
        }
        match self.folded_xor(a, b) {
            Some(gate) => Ok(gate),
            None if a.at < b.at => self.gate_of(Node::Xor(a, b)),
            None => self.gate_of(Node::Xor(b, a)),
        }
    }

    /// Holds where the gate does not.
    pub fn not(&mut self, a: Gate) -> Result<Gate, OutOfMemory>
        requires { a.at < length self.old }
        ensures grown { Grown self.old self.new }
        ensures ok { IfOk result (λ r. Gives self.new r.at (λ choice v. not (v a.at))) }
        ensures front { take (length self.old) self.new ≡ self.old }
        ensures err { OnErr result (self.new ≡ self.old) }
    {
        match self.known_opposite(a) {
            Some(opposite) => Ok(opposite),
            None => self.gate_of(Node::Not(a)),
        }
    }

    /// Has the value of `a` where `c` holds, else that of `b`.
    pub fn mux(&mut self, c: Gate, a: Gate, b: Gate) -> Result<Gate, OutOfMemory>
        requires c { c.at < length self.old }
        requires a { a.at < length self.old }
        requires b { b.at < length self.old }
        ensures grown { Grown self.old self.new }
        ensures ok { IfOk result (λ r. Gives self.new r.at (λ choice v. if v c.at then v a.at else v b.at)) }
        ensures err { OnErr result (self.new ≡ self.old) }
    {
        if let Some(gate) = self.folded_mux(c, a, b) {
            return Ok(gate);
        }
        match self.known_opposite(c) {
            Some(opposite) => self.chosen(opposite, b, a),
            None => self.chosen(c, a, b),
        }
    }

    /// Writes the value of each gate, where the inputs have the values of `choice`.
    pub fn values_into(&self, choice: &[bool], room: &mut [bool])
        requires inputs { length choice.now ≡ input_count self.now }
        requires gates { length room.old ≡ length self.now }
        ensures { room.new ≡ values (bit_at choice.now) self.now }
    {
        let nodes = self.nodes.as_slice();
        for g in 0..nodes.len() {
            room[g] = value_of(&nodes[g], choice, &room[..g]);
        }
    }

    /// The gate of a node, which is added where no gate has it yet.
    fn gate_of(&mut self, node: Node) -> Result<Gate, OutOfMemory>
        requires { ReadsBelow (length self.old) 0 node }
        ensures grown { Grown self.old self.new }
        ensures ok { IfOk result (λ r. Gives self.new r.at (λ choice v. table choice v node)) }
        ensures front { take (length self.old) self.new ≡ self.old }
        ensures err { OnErr result (self.new ≡ self.old) }
    {
        if let Some(gate) = self.gate_with(node) {
            return Ok(gate);
        }
        let at = self.nodes.len();
        put(&mut self.nodes, &mut self.places, node)?;
        Ok(Gate { at })
    }

    /// The gate that this node has already, where it is found.
    fn gate_with(&self, node: Node) -> Option<Gate>
        ensures { IfSome result (λ r. slice_get self.now r.at ≡ Some node) }
    {
        let at = *self.places.get(&key_of(&node))?;
        if at < self.nodes.len() && self.nodes[at] == node {
            return Some(Gate { at });
        }
        None
    }

    /// The constant that the gate is, where it is one.
    fn known(&self, gate: Gate) -> Option<bool>
        requires { gate.at < length self.now }
        ensures { IfSome result (λ b. Always self.now (λ choice v. v gate.at ≡ b)) }
    {
        self.sound();
        match self.node(gate) {
            Node::Constant(b) => Some(b),
            _ => None,
        }
    }

    /// An earlier gate that holds just where this one does not, if the gate itself shows one.
    fn known_opposite(&self, gate: Gate) -> Option<Gate>
        requires { gate.at < length self.now }
        ensures { IfSome result (λ r. Gives self.now r.at (λ choice v. not (v gate.at))) }
    {
        self.sound();
        match self.node(gate) {
            Node::Constant(b) => Some(self.constant(!b)),
            Node::Not(inner) => Some(inner),
            _ => None,
        }
    }

    /// Has the value of `a` where `c` holds, else that of `b`: by a gate of two operands where one shows that it suffices.
    fn chosen(&mut self, c: Gate, a: Gate, b: Gate) -> Result<Gate, OutOfMemory>
        requires c { c.at < length self.old }
        requires a { a.at < length self.old }
        requires b { b.at < length self.old }
        ensures grown { Grown self.old self.new }
        ensures ok { IfOk result (λ r. Gives self.new r.at (λ choice v. if v c.at then v a.at else v b.at)) }
        ensures err { OnErr result (self.new ≡ self.old) }
    {
        if self.implies(c, a) {
            return self.or(c, b);
        }
        if self.implies(b, c) {
            return self.and(c, a);
        }
        if self.excludes(c, a) {
            return self.and_inverse(c, b);
        }
        if self.covers(c, b) {
            return self.or_inverse(c, a);
        }
        if self.are_opposite(a, b) {
            return self.xor(c, b);
        }
        if let Some(other) = self.other_operand(a, b) {
            return self.turned(b, c, other);
        }
        if let Some(other) = self.other_operand(b, a) {
            return self.turned_beside(a, c, other);
        }
        self.gate_of(Node::Mux(c, a, b))
    }

    /// Has the value of `b`, and the opposite where both other gates hold.
    fn turned(&mut self, b: Gate, c: Gate, other: Gate) -> Result<Gate, OutOfMemory>
        requires b { b.at < length self.old }
        requires c { c.at < length self.old }
        requires other { other.at < length self.old }
        ensures grown { Grown self.old self.new }
        ensures ok { IfOk result (λ r. Gives self.new r.at (λ choice v. xor (v b.at) (v c.at && v other.at))) }
        ensures err { OnErr result (self.new ≡ self.old) }
    {
        self.sound();
        let gates = self.len();
        let both = self.and(c, other)?;
        let made = self.xor(b, both);
        self.or_back(gates, made)
    }

    /// Has the value of `a`, and the opposite where `c` does not hold and `other` does.
    fn turned_beside(&mut self, a: Gate, c: Gate, other: Gate) -> Result<Gate, OutOfMemory>
        requires a { a.at < length self.old }
        requires c { c.at < length self.old }
        requires other { other.at < length self.old }
        ensures grown { Grown self.old self.new }
        ensures ok { IfOk result (λ r. Gives self.new r.at (λ choice v. xor (v a.at) (not (v c.at) && v other.at))) }
        ensures err { OnErr result (self.new ≡ self.old) }
    {
        self.sound();
        let gates = self.len();
        let both = self.and_inverse(c, other)?;
        let made = self.xor(a, both);
        self.or_back(gates, made)
    }

    /// Holds where `c` does not and `b` does. Where `c` is made by `xor` of `b` and another gate, that is where both of these hold.
    fn and_inverse(&mut self, c: Gate, b: Gate) -> Result<Gate, OutOfMemory>
        requires c { c.at < length self.old }
        requires b { b.at < length self.old }
        ensures grown { Grown self.old self.new }
        ensures ok { IfOk result (λ r. Gives self.new r.at (λ choice v. not (v c.at) && v b.at)) }
        ensures front { take (length self.old) self.new ≡ self.old }
        ensures err { OnErr result (self.new ≡ self.old) }
    {
        if let Some(other) = self.other_operand(c, b) {
            return self.and(b, other);
        }
        self.sound();
        let gates = self.len();
        let inverse = self.not(c)?;
        let made = self.and(inverse, b);
        self.or_back(gates, made)
    }

    /// Holds where `c` does not or `a` does.
    fn or_inverse(&mut self, c: Gate, a: Gate) -> Result<Gate, OutOfMemory>
        requires c { c.at < length self.old }
        requires a { a.at < length self.old }
        ensures grown { Grown self.old self.new }
        ensures ok { IfOk result (λ r. Gives self.new r.at (λ choice v. not (v c.at) || v a.at)) }
        ensures err { OnErr result (self.new ≡ self.old) }
    {
        self.sound();
        let gates = self.len();
        let inverse = self.not(c)?;
        let made = self.or(inverse, a);
        self.or_back(gates, made)
    }

    /// What was made, or after a refusal the net as it was when it had this number of gates.
    fn or_back(
        &mut self,
        gates: usize,
        made: Result<Gate, OutOfMemory>,
    ) -> Result<Gate, OutOfMemory>
        requires { OnErr made (IsCircuit (take gates self.old)) }
        ensures made { result ≡ made }
        ensures ok { OnOk result (self.new ≡ self.old) }
        ensures err { OnErr result (self.new ≡ take gates self.old) }
    {
        if made.is_err() {
            self.nodes.truncate(gates);
        }
        made
    }

    /// A gate that is there already and holds where both gates hold, as far as the operands show one.
    fn folded_and(&self, a: Gate, b: Gate) -> Option<Gate>
        requires a { a.at < length self.now }
        requires b { b.at < length self.now }
        ensures { IfSome result (λ r. Gives self.now r.at (λ choice v. v a.at && v b.at)) }
    {
        if self.implies(a, b) {
            return Some(a);
        }
        if self.implies(b, a) {
            return Some(b);
        }
        if self.excludes(a, b) {
            return Some(self.constant(false));
        }
        None
    }

    /// A gate that is there already and holds where at least one of the gates holds, as far as the operands show one.
    fn folded_or(&self, a: Gate, b: Gate) -> Option<Gate>
        requires a { a.at < length self.now }
        requires b { b.at < length self.now }
        ensures { IfSome result (λ r. Gives self.now r.at (λ choice v. v a.at || v b.at)) }
    {
        if self.implies(a, b) {
            return Some(b);
        }
        if self.implies(b, a) {
            return Some(a);
        }
        if self.covers(a, b) {
            return Some(self.constant(true));
        }
        None
    }

    /// A gate that is there already and holds where just one of the gates holds, as far as the operands show one.
    fn folded_xor(&self, a: Gate, b: Gate) -> Option<Gate>
        requires a { a.at < length self.now }
        requires b { b.at < length self.now }
        ensures { IfSome result (λ r. Gives self.now r.at (λ choice v. xor (v a.at) (v b.at))) }
    {
        match (self.known(a), self.known(b)) {
            (Some(false), _) => Some(b),
            (_, Some(false)) => Some(a),
            _ if a.at == b.at => Some(self.constant(false)),
            _ if self.are_opposite(a, b) => Some(self.constant(true)),
            _ => self.difference_within(a, b),
        }
    }

    /// The other operand, where one of the gates is made of the other by `xor`.
    fn difference_within(&self, a: Gate, b: Gate) -> Option<Gate>
        requires a { a.at < length self.now }
        requires b { b.at < length self.now }
        ensures { IfSome result (λ r. Gives self.now r.at (λ choice v. xor (v a.at) (v b.at))) }
    {
        match self.other_operand(a, b) {
            Some(other) => Some(other),
            None => self.other_operand(b, a),
        }
    }

    /// The operand of the gate `whole` beside `part`, where it is made of these two by `xor`.
    fn other_operand(&self, whole: Gate, part: Gate) -> Option<Gate>
        requires { whole.at < length self.now }
        ensures { IfSome result (λ r. Gives self.now r.at (λ choice v. xor (v whole.at) (v part.at))) }
    {
        self.sound();
        match self.node(whole) {
            Node::Xor(x, y) if x.at == part.at => Some(y),
            Node::Xor(x, y) if y.at == part.at => Some(x),
            _ => None,
        }
    }

    /// A gate that is there already and has the value of `a` where `c` holds, else that of `b`, as far as the operands show one.
    fn folded_mux(&self, c: Gate, a: Gate, b: Gate) -> Option<Gate>
        requires a { a.at < length self.now }
        requires b { b.at < length self.now }
        requires c { c.at < length self.now }
        ensures { IfSome result (λ r. Gives self.now r.at (λ choice v. if v c.at then v a.at else v b.at)) }
    {
        match self.known(c) {
            Some(true) => Some(a),
            Some(false) => Some(b),
            None if a.at == b.at => Some(a),
            None => None,
        }
    }
}

/// The key by which a node is looked for: in nets of up to a million gates each node has one of its own. Of two nodes with one key the
/// later one is found.
fn key_of(node: &Node) -> u64 {
    match *node {
        Node::Constant(b) => key(0, b as usize, 0, 0),
        Node::Input(k) => key(1, k, 0, 0),
        Node::Not(a) => key(2, a.at, 0, 0),
        Node::And(a, b) => key(3, a.at, b.at, 0),
        Node::Or(a, b) => key(4, a.at, b.at, 0),
        Node::Xor(a, b) => key(5, a.at, b.at, 0),
        Node::Mux(c, a, b) => key(6, c.at, a.at, b.at),
    }
}

/// A kind and three numbers in one word.
fn key(kind: u64, first: usize, second: usize, third: usize) -> u64 {
    kind ^ ((first as u64) << 3) ^ ((second as u64) << 23) ^ ((third as u64) << 43)
}

/// Adds a node behind the others, and notes its place.
fn put(
    nodes: &mut Vec<Node>,
    places: &mut HashMap<u64, usize>,
    node: Node,
) -> Result<(), OutOfMemory>
    ensures ok { OnOk result (nodes.new.items ≡ nodes.old.items ++ node ∷ []) }
    ensures err { OnErr result (nodes.new.items ≡ nodes.old.items) }
{
    places.insert(key_of(&node), nodes.len())?;
    nodes.push(node)?;
    Ok(())
}

/// The value of a node, from the values of the gates before it.
#[tactic(auto, unfolding(crate::specs::Value::bit_at))]
fn value_of(node: &Node, choice: &[bool], seen: &[bool]) -> bool
    requires { ReadsBelow (length seen.now) (length choice.now) node.now }
    ensures { result ≡ table (bit_at choice.now) (bit_at seen.now) node.now }
{
    match *node {
        Node::Constant(b) => b,
        Node::Input(k) => choice[k],
        Node::Not(a) => !seen[a.at],
        Node::And(a, b) => seen[a.at] && seen[b.at],
        Node::Or(a, b) => seen[a.at] || seen[b.at],
        Node::Xor(a, b) => seen[a.at] != seen[b.at],
        Node::Mux(c, a, b) => if seen[c.at] { seen[a.at] } else { seen[b.at] },
    }
}
