// What can come of a run at one opcode.
ghost use Rattle.std.specs.Prelude.{◌≡◌, None};
ghost use Rattle.cpog.specs.Projections.{seen};
ghost use Rattle.searches.specs.Clashes.{first_clash};
ghost use Rattle.questions.specs.Outcomes.{outcome_at, end_result, Comes};

use cpog::action::Action;
use cpog::graph::Graph;
use cpog::projection::Projection;
use searches::clash::first_clash;

// Why there is no end result, or not just one.
#[derive(Clone, Copy, PartialEq, Eq, Debug)]
pub enum Flaw {
    // None: events wait for themselves.
    Cycle,
    // It may depend on the order of the steps: the first two events that clash.
    Clash(u8, u8),
}

// None where the opcode is not allowed, and Ok where there is one end result, whatever the order
// of the steps. A cycle comes before a clash.
pub fn outcome_at<G: Graph>(graph: &G, actions: &[Action], opcode: u16) -> Option<Result<(), Flaw>>
    ensures value { result ≡ outcome_at (G.meaning graph.now) actions.now opcode }
    ensures law { Comes (G.meaning graph.now) actions.now opcode result }
{
    // With few variables most opcodes are not allowed: no place is made for those.
    if !graph.allow(opcode) {
        return None;
    }
    let mut place = Projection::new();
    match place.project(graph, opcode) {
        Ok(()) => Some(no_clash(&place, actions)),
        Err(_) => Some(Err(Flaw::Cycle)),
    }
}

fn no_clash(place: &Projection, actions: &[Action]) -> Result<(), Flaw>
    ensures { result ≡ end_result None (first_clash (seen place.now) actions.now) }
{
    match first_clash(place, actions) {
        Some((lower, higher)) => Err(Flaw::Clash(lower, higher)),
        None => Ok(()),
    }
}
