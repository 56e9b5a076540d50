// The conditions of a procedure, stored one after another.
ghost use Rattle.std.specs.Prelude.{◌≡◌, ◌<◌, ◌≤◌, Bool, false, [], length, IfOk, IfErr, OnErr};
ghost use Rattle.conditions.specs.Nodes.{Means, Grows};
ghost use Rattle.conditions.specs.Verdicts.{Stored, Refused};

use crate::LONGEST;
use crate::nodes::Nodes;
use crate::source::Source;
use crate::variables::Variables;
use cpog::refusal::Refusal;
use std::alloc::{AllocError, Global};

#[derive(Drop)]
pub struct Conditions {
    nodes: Nodes,
    ghost few: { length nodes.all.items ≤ 2048 },
}

impl Conditions {
    ghost use Rattle.conditions.specs.Shown.{letters_of, nodes_of};

    pub fn new(heap: Global) -> Result<Conditions, AllocError>
        ensures { IfOk result (λ c. nodes_of c ≡ []) }
    {
        let nodes = Nodes::new(heap)?;
        Ok(Conditions { nodes })
    }

    // Says where the root stands. Refuses what is no condition, then what is too deep, then too large.
    pub fn store(&mut self, variables: &Variables, text: &[u8]) -> Result<u16, Refusal>
        ensures ok { IfOk result
            (Stored (letters_of variables.now) text.now (nodes_of self.old) (nodes_of self.new)) }
        ensures grows { Grows (nodes_of self.old) (nodes_of self.new) }
        ensures err { IfErr result (Refused (letters_of variables.now) text.now (nodes_of self.old)) }
        ensures kept { OnErr result (nodes_of self.new ≡ nodes_of self.old) }
    {
        if text.len() > LONGEST {
            return Err(Refusal::NotACondition);
        }
        let before = self.nodes.count();
        let source = Source { variables, text };
        match source.whole(&mut self.nodes) {
            Ok(root) => Ok(root),
            Err(refusal) => {
                self.nodes.cut(before);
                Err(refusal)
            }
        }
    }

    // What the condition with its root at a place comes to; no where nothing is stored.
    pub fn value(&self, root: u16, opcode: u16) -> bool
        ensures means { root < length (nodes_of self.now) → Means (nodes_of self.now) opcode root result }
        ensures only { (x : Bool) → Means (nodes_of self.now) opcode root x → result ≡ x }
        ensures absent { length (nodes_of self.now) ≤ root → result ≡ false }
    {
        usize::from(root) < self.nodes.count() && self.nodes.value(root, opcode)
    }
}
