// Reading a condition's text.
ghost use Rattle.std.specs.Prelude.{◌≡◌, ◌<◌, ◌≤◌, ◌==◌, max, length, IsTrue, MatchOption, MatchResult, slice_index};
ghost use Rattle.conditions.specs.Grammar.{conditions, terms, factors};
ghost use Rattle.conditions.specs.Nodes.{is_below, Grows};
ghost use Rattle.conditions.specs.Reading.{Asked, Covers, Reading, IsAtom, IsNoAtom, Closed, sign_of, node_of};
ghost use Rattle.conditions.specs.Shown.{letters_of};
ghost use Rattle.conditions.specs.Verdicts.{Exceeds, Judged};

use crate::nodes::{Node, Nodes};
use crate::variables::Variables;
use crate::{DEEPEST, MOST_NODES};
use cpog::refusal::Refusal;

// A condition's text, and the letters of its variables.
#[derive(Clone, Copy)]
pub(crate) struct Source<'v, 't> {
    pub(crate) variables: &'v Variables,
    pub(crate) text: &'t [u8],
    ghost short: { length text.now ≤ 64 },
}

impl Source<'_, '_> {
    // The whole text, within the limits.
    pub(crate) fn whole(self, nodes: &mut Nodes) -> Result<u16, Refusal>
        requires { length nodes.old.all.items ≤ 2048 }
        ensures judged { Judged (letters_of self.entry.variables.now) self.entry.text.now
            nodes.old.all.items nodes.new.all.items result }
        ensures grows { Grows nodes.old.all.items nodes.new.all.items }
    {
        let read = self.condition(0, nodes)?;
        if read.next < self.text.len() {
            return Err(Refusal::NotACondition);
        }
        check_limits(read.depth, nodes.count())?;
        Ok(read.root)
    }

    #[cycle(condition_factor_term)]
    fn condition(self, at: usize, nodes: &mut Nodes) -> Result<Read, Refusal>
        requires { Asked self.text.now at nodes.old.all.items }
        ensures reads { Reading conditions (letters_of self.entry.variables.now) self.entry.text.now at
            nodes.old.all.items nodes.new.all.items result }
        ensures grows { Grows nodes.old.all.items nodes.new.all.items }
    {
        let left = self.term(at, nodes)?;
        if !self.follows(left.next, Operator::Or.sign()) {
            return Ok(left);
        }
        let right = self.condition(left.next + 1, nodes)?;
        Ok(join(Operator::Or, left, right, nodes))
    }

    #[cycle(condition_factor_term)]
    fn term(self, at: usize, nodes: &mut Nodes) -> Result<Read, Refusal>
        requires { Asked self.text.now at nodes.old.all.items }
        ensures reads { Reading terms (letters_of self.entry.variables.now) self.entry.text.now at
            nodes.old.all.items nodes.new.all.items result }
        ensures grows { Grows nodes.old.all.items nodes.new.all.items }
    {
        let left = self.factor(at, nodes)?;
        if !self.follows(left.next, Operator::And.sign()) {
            return Ok(left);
        }
        let right = self.term(left.next + 1, nodes)?;
        Ok(join(Operator::And, left, right, nodes))
    }

    #[cycle(condition_factor_term)]
    fn factor(self, at: usize, nodes: &mut Nodes) -> Result<Read, Refusal>
        requires { Asked self.text.now at nodes.old.all.items }
        ensures reads { Reading factors (letters_of self.entry.variables.now) self.entry.text.now at
            nodes.old.all.items nodes.new.all.items result }
        ensures grows { Grows nodes.old.all.items nodes.new.all.items }
    {
        if at >= self.text.len() {
            return Err(Refusal::NotACondition);
        }
        match char::from(self.text[at]) {
            '!' => {
                let inner = self.factor(at + 1, nodes)?;
                Ok(keep(Node::Not(inner.root), inner.next, inner.depth + 1, nodes))
            }
            '(' => {
                let inner = self.condition(at + 1, nodes)?;
                self.close(inner)
            }
            _ => match self.atom(at) {
                Some(node) => Ok(keep(node, at + 1, 0, nodes)),
                None => Err(Refusal::NotACondition),
            },
        }
    }

    // What stands between brackets, once its closing bracket is read too.
    fn close(self, inner: Read) -> Result<Read, Refusal>
        requires next { inner.next ≤ 64 }
        requires depth { inner.depth ≤ 64 }
        ensures { Closed self.entry.text.now inner result }
    {
        if !self.follows(inner.next, ')') {
            return Err(Refusal::NotACondition);
        }
        Ok(Read {
            root: inner.root,
            next: inner.next + 1,
            depth: inner.depth + 1,
        })
    }

    // The node of a constant or a letter.
    fn atom(self, at: usize) -> Option<Node>
        requires { at < length self.text.now }
        ensures { MatchOption result
            (IsNoAtom (letters_of self.entry.variables.now) (slice_index self.entry.text.now at))
            (IsAtom (letters_of self.entry.variables.now) (slice_index self.entry.text.now at)) }
    {
        match char::from(self.text[at]) {
            '0' => Some(Node::Constant(false)),
            '1' => Some(Node::Constant(true)),
            _ => self.variables.place(self.text[at]).map(Node::Variable),
        }
    }

    // Whether `mark` stands at a place.
    fn follows(self, at: usize, mark: char) -> bool
        requires { 0 < mark }
        ensures { result ≡ (slice_index self.entry.text.now at == mark) }
    {
        self.text
            .get(at)
            .is_some_and(|byte| char::from(*byte) == mark)
    }
}

// Ok within the limits; the depth is asked first.
fn check_limits(depth: usize, nodes: usize) -> Result<(), Refusal>
    ensures { MatchResult result (λ _. (depth ≤ 12) × (nodes ≤ 2048)) (Exceeds depth nodes) }
{
    if depth > DEEPEST {
        return Err(Refusal::TooDeep);
    }
    if nodes > MOST_NODES {
        return Err(Refusal::TooManyNodes);
    }
    Ok(())
}

// What one call read: the place of its node, where the text goes on, and how deep it nests.
#[derive(Clone, Copy)]
struct Read {
    root: u16,
    next: usize,
    depth: usize,
}

#[derive(Clone, Copy)]
enum Operator {
    And,
    Or,
}

impl Operator {
    fn sign(self) -> char
        ensures { result ≡ sign_of self }
    {
        match self {
            Operator::And => '&',
            Operator::Or => '|',
        }
    }

    fn node(self, left: u16, right: u16) -> Node
        ensures { result ≡ node_of self left right }
    {
        match self {
            Operator::And => Node::And(left, right),
            Operator::Or => Node::Or(left, right),
        }
    }
}

// Two parts as one, with the operator between them.
fn join(operator: Operator, left: Read, right: Read, nodes: &mut Nodes) -> Read
    requires room { length nodes.old.all.items < 2112 }
    requires left_stored { left.root < length nodes.old.all.items }
    requires right_stored { right.root < length nodes.old.all.items }
    ensures { Covers nodes.old.all.items nodes.new.all.items (node_of operator left.root right.root)
        right.next (max left.depth right.depth) result }
{
    let node = operator.node(left.root, right.root);
    let depth = left.depth.max(right.depth);
    keep(node, right.next, depth, nodes)
}

// Stores the node of a part.
fn keep(node: Node, next: usize, depth: usize, nodes: &mut Nodes) -> Read
    requires room { length nodes.old.all.items < 2112 }
    requires below { IsTrue (is_below (length nodes.old.all.items) node) }
    ensures { Covers nodes.old.all.items nodes.new.all.items node next depth result }
{
    let root = nodes.add(node);
    Read { root, next, depth }
}
