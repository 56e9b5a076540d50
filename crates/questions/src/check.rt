// What can come of a procedure, over all its opcodes.
ghost use Rattle.std.specs.Prelude.{◌≡◌, ◌≤◌, ◌++◌, length, drop, IfOk, OnErr};
ghost use Rattle.std.specs.Result.{result_err};
ghost use Rattle.sets.specs.Counting.{tally};
ghost use Rattle.questions.specs.Checks.{unasked, judged_at, verdict, Verdicts, Shown, Tells};

use crate::OPCODES;
use crate::outcome::{Flaw, outcome_at};
use cpog::action::{Action, actions_fit};
use cpog::graph::Graph;
use cpog::refusal::Refusal;
use searches::cycle::find_cycle;

// An allowed opcode with a flaw.
#[derive(Clone, Copy, PartialEq, Eq, Debug)]
pub struct Unsound {
    pub opcode: u16,
    pub flaw: Flaw,
}

#[derive(Clone, Copy, PartialEq, Eq, Debug)]
pub struct Checked {
    // How many opcodes are allowed.
    pub allowed: u16,
    // Ok if every allowed opcode has one result, and else the least with a flaw.
    pub verdict: Result<(), Unsound>,
    // How many events stand at the start of the buffer.
    pub shown: usize,
}

// Counts the allowed opcodes, and finds the least of them with a cycle or a clash. The events of a
// cycle, or the two that clash first, come to the start of the buffer; the rest of it stays.
// Refuses actions that cannot be carried out, then a buffer of under 32 bytes, and then leaves
// the buffer as it was.
pub fn check<G: Graph>(graph: &G, actions: &[Action], buffer: &mut [u8]) -> Result<Checked, Refusal>
    ensures answer { result_err result ≡ unasked (G.meaning graph.now) actions.now (length buffer.old) }
    ensures ok { IfOk result (Tells (G.meaning graph.now) actions.now buffer.old buffer.new) }
    ensures err { OnErr result (buffer.new ≡ buffer.old) }
{
    if !actions_fit(actions, graph.events()) {
        return Err(Refusal::BadActions);
    }
    if buffer.len() < 32 {
        return Err(Refusal::ShortBuffer);
    }
    let (verdict, shown) = judge(graph, actions, buffer);
    Ok(Checked {
        allowed: count_allowed(graph),
        verdict,
        shown,
    })
}

fn count_allowed<G: Graph>(graph: &G) -> u16
    ensures { result ≡ tally (G.meaning graph.now).allow 256 }
{
    (0..OPCODES).filter(|opcode| graph.allow(*opcode)).count() as u16
}

// Brings what the verdict is about to the start of the buffer, and says of how many events.
fn judge<G: Graph>(graph: &G, actions: &[Action], buffer: &mut [u8]) -> (Result<(), Unsound>, usize)
    requires { 32 ≤ length buffer.old }
    ensures value { result.0 ≡ verdict (G.meaning graph.now) actions.now }
    ensures law { Verdicts (G.meaning graph.now) actions.now result.0 }
    ensures shows { Shown (G.meaning graph.now) buffer.old buffer.new result.1 result.0 }
{
    let verdict = verdict_of(graph, actions);
    let shown = match verdict {
        Ok(()) => 0,
        Err(unsound) => match unsound.flaw {
            Flaw::Cycle => {
                let cycle = find_cycle(graph, unsound.opcode).unwrap();
                write_start(buffer, cycle.as_slice())
            }
            Flaw::Clash(lower, higher) => write_start(buffer, &[lower, higher]),
        },
    };
    (verdict, shown)
}

// The least opcode with a flaw, if there is one.
fn verdict_of<G: Graph>(graph: &G, actions: &[Action]) -> Result<(), Unsound>
    ensures value { result ≡ verdict (G.meaning graph.now) actions.now }
    ensures law { Verdicts (G.meaning graph.now) actions.now result }
{
    (0..OPCODES).try_for_each(|opcode| judge_at(graph, actions, opcode))
}

// The flaw of one opcode, if it is allowed and has one.
fn judge_at<G: Graph>(graph: &G, actions: &[Action], opcode: u16) -> Result<(), Unsound>
    ensures { result ≡ judged_at (G.meaning graph.now) actions.now opcode }
{
    match outcome_at(graph, actions, opcode) {
        Some(Err(flaw)) => Err(Unsound { opcode, flaw }),
        _ => Ok(()),
    }
}

// Writes `events` to the start of the buffer, and says how many they are.
fn write_start(buffer: &mut [u8], events: &[u8]) -> usize
    requires { length events.now ≤ length buffer.old }
    ensures count { result ≡ length events.now }
    ensures after { buffer.new ≡ events.now ++ drop (length events.now) buffer.old }
{
    let count = events.len();
    buffer[..count].copy_from_slice(events);
    count
}
