// The nodes of stored conditions.
ghost use Rattle.std.specs.Prelude.{◌≡◌, ◌<◌, ◌≤◌, [], length, take, IfOk, IsTrue, vec_capacity};
ghost use Rattle.sets.specs.Counting.{bit};
ghost use Rattle.conditions.specs.Nodes.{At, Means, is_below, Ordered, Last};

use crate::{LONGEST, MOST_NODES};
use sets::word::holds;
use std::alloc::{AllocError, Global};

// A part of a stored condition; its operands stand at places below its own.
#[derive(Clone, Copy)]
pub(crate) enum Node {
    Constant(bool),
    Variable(u8),
    Not(u16),
    And(u16, u16),
    Or(u16, u16),
}

// With room for all the nodes that may stay, and for those of one text more.
#[derive(Drop)]
pub(crate) struct Nodes {
    all: Vec<Node>,
    ghost ordered: { Ordered all.items },
    ghost reserved: { 2112 ≤ vec_capacity all },
}

impl Nodes {
    pub(crate) fn new(heap: Global) -> Result<Nodes, AllocError>
        ensures { IfOk result (λ nodes. nodes.all.items ≡ []) }
    {
        let all = Vec::with_capacity(heap, MOST_NODES + LONGEST)?;
        Ok(Nodes { all })
    }

    pub(crate) fn count(&self) -> usize
        ensures { result ≡ length self.now.all.items }
    {
        self.all.len()
    }

    // Stores a node, and says where.
    pub(crate) fn add(&mut self, node: Node) -> u16
        requires room { length self.old.all.items < 2112 }
        requires below { IsTrue (is_below (length self.old.all.items) node) }
        ensures { Last self.old.all.items self.new.all.items node result }
    {
        let place = self.all.len() as u16;
        self.all.push_reserved(node);
        place
    }

    // Takes away all but the first `count`.
    pub(crate) fn cut(&mut self, count: usize)
        ensures { self.new.all.items ≡ take count self.old.all.items }
    {
        self.all.truncate(count);
    }

    // What the node at a place comes to.
    pub(crate) fn value(&self, at: u16, opcode: u16) -> bool
        requires { at < length self.now.all.items }
        ensures { Means self.now.all.items opcode at result }
    {
        match self.node(at) {
            Node::Constant(value) => value,
            Node::Variable(k) => is_on(k, opcode),
            Node::Not(a) => !self.value(a, opcode),
            Node::And(a, b) => self.value(a, opcode) && self.value(b, opcode),
            Node::Or(a, b) => self.value(a, opcode) || self.value(b, opcode),
        }
    }

    fn node(&self, at: u16) -> Node
        requires { at < length self.now.all.items }
        ensures stands { At self.now.all.items at result }
        ensures below { IsTrue (is_below at result) }
    {
        self.all[usize::from(at)]
    }
}

fn is_on(variable: u8, opcode: u16) -> bool
    requires { variable < 8 }
    ensures { result ≡ bit opcode variable }
{
    holds(u32::from(opcode), variable)
}
