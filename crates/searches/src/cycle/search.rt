// The search for a cycle: from an event that precedes itself, back along the arcs among such events.
ghost use Rattle.std.specs.Prelude.{IsTrue, ◌≡◌, ℕ, ◌<◌, ◌≤◌, Bool, true, false, reverse, length, MatchOption};
ghost use Rattle.sets.specs.Members.{member};
ghost use Rattle.sets.specs.Rows.{related};
ghost use Rattle.cpog.specs.Graphs.{counted};
ghost use Rattle.searches.specs.Cycles.{IsCycle, Found, nth, round};
ghost use Rattle.searches.specs.Walks.{Fed};

use crate::cycle::Cycle;
use arrayvec::ArrayVec;
use cpog::graph::Graph;
use cpog::projection::counted_arcs;
use sets::events::Events;
use sets::relation::Relation;

// A cycle of counted arcs at `opcode`, if there is one. Which of several is not said.
pub fn find_cycle<G: Graph>(graph: &G, opcode: u16) -> Option<Cycle>
    ensures { Found (counted (G.meaning graph.now) opcode) result }
{
    let arcs = counted_arcs(graph, opcode);
    cycle_of(&arcs)
}

// A cycle of a relation: of every one that has just its pairs.
fn cycle_of(arcs: &Relation) -> Option<Cycle>
    ensures { (steps : ℕ → ℕ → Bool) → ((e f : ℕ) → related arcs.now e f ≡ steps e f) → Found steps result }
{
    let mut chains = *arcs;
    chains.close();
    let around = chains.selves();
    let start = around.lowest()?;
    let walker = Walker {
        arcs,
        around,
        start,
    };
    Some(walker.cycle())
}

// Walks against the arcs from `start`, among events that each have an arc from one of them.
#[derive(Clone, Copy)]
struct Walker<'a> {
    arcs: &'a Relation,
    around: Events,
    start: u8,
    ghost inside: { IsTrue (member around start) },
    ghost fed: { Fed (related arcs.now) (member around) },
}

impl Walker<'_> {
    // Walks until an event of the walk has an arc to the last: from there on it is a cycle, backwards.
    fn cycle(&self) -> Cycle
        ensures { IsCycle (related self.now.arcs.now) (round result) }
    {
        let mut walk: ArrayVec<u8, 32> = ArrayVec::new();
        let mut event = self.start;
        loop {
            walk.push(event);
            if let Some(from) = self.turn(&walk, event) {
                return backwards(&walk[from..]);
            }
            event = self.before(event);
        }
    }

    // The first place of the walk whose event has an arc to `event`.
    fn turn(&self, walk: &[u8], event: u8) -> Option<usize>
        ensures { MatchOption result
            ((k : ℕ) → k < length walk.now → related self.now.arcs.now (nth walk.now k) event ≡ false)
            (λ k. (k < length walk.now) × IsTrue (related self.now.arcs.now (nth walk.now k) event)) }
    {
        walk.iter()
            .position(|earlier| self.arcs.has(*earlier, event))
    }

    // The lowest of the events walked among that has an arc to `event`, which is one of them.
    fn before(&self, event: u8) -> u8
        requires { IsTrue (member self.now.around event) }
        ensures inside { IsTrue (member self.now.around result) }
        ensures step { IsTrue (related self.now.arcs.now result event) }
    {
        self.arcs.row(event).common(self.around).lowest().unwrap()
    }
}

// The cycle that shows these events, the last first.
fn backwards(walk: &[u8]) -> Cycle
    requires { length walk.now ≤ 32 }
    ensures { round result ≡ reverse walk.now }
{
    let mut events = [0u8; 32];
    let len = walk.len();
    events[..len].copy_from_slice(walk);
    events[..len].reverse();
    Cycle { events, len }
}
