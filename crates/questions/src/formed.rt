// Whether a graph is well-formed.
ghost use Rattle.std.specs.Prelude.{◌≡◌};
ghost use Rattle.questions.specs.Formed.{formed_at, formed, Formed};

use crate::OPCODES;
use cpog::graph::Graph;
use cpog::projection::Projection;
use cpog::refusal::Refusal;

// Ok exactly if no allowed opcode has a cycle, and else the least that has one.
pub fn well_formed<G: Graph>(graph: &G) -> Result<(), u16>
    ensures value { result ≡ formed (G.meaning graph.now) }
    ensures law { Formed (G.meaning graph.now) result }
{
    (0..OPCODES).try_for_each(
        |opcode| -> Result<(), u16>
            ensures { result ≡ formed_at (G.meaning graph.entry.now) opcode }
        {
            // As in `outcome_at`, no place is made where the opcode is not allowed.
            if !graph.allow(opcode) {
                return Ok(());
            }
            let mut place = Projection::new();
            match place.project(graph, opcode) {
                Err(Refusal::Cycle(_)) => Err(opcode),
                _ => Ok(()),
            }
        },
    )
}
