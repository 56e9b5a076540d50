// Prints the records of two sample procedures: what can come of each at every opcode.
#![tactic(auto)]

ghost use Rattle.std.specs.Prelude.{[], if◌then◌else◌, codes, nat_eq};

use anyhow::anyhow;
use cpog::action::Action;
use graphs::table::Table;
use report::names::Names;
use report::record::record;

// Three steps over one switch x: b is there when x is on, c waits for a and for b. The condition
// table has allow, has of each event, then arc of each pair of events.
const DEMO: [u8; 13] = [3, 3, 2, 3, 0, 0, 3, 0, 0, 3, 0, 0, 0];

// The same, but c does not wait for b.
const DEMO_WITHOUT_WAIT: [u8; 13] = [3, 3, 2, 3, 0, 0, 3, 0, 0, 0, 0, 0, 0];

#[derive(Clone, Copy)]
struct SampleNames;

impl Names for SampleNames {
    ghost naming = { λ _. record {
      title = codes "demo";
      letters = codes "x";
      name = λ e. (if nat_eq e 0 then codes "a" else (if nat_eq e 1 then codes "b" else (if nat_eq e 2 then codes "c" else [])));
    } };

    fn title(&self) -> &[u8] {
        b"demo"
    }

    fn letters(&self) -> &[u8] {
        b"x"
    }

    fn name(&self, event: u8) -> &[u8] {
        match event {
            0 => b"a",
            1 => b"b",
            2 => b"c",
            _ => b"",
        }
    }
}

fn action(code: u8, left: u8, right: u8, out: u8) -> Action {
    Action {
        code,
        left,
        right,
        out,
    }
}

fn sample_actions() -> [Action; 32] {
    let mut actions = [Action::ZERO; 32];
    actions[0] = action(2, 0, 1, 2);
    actions[1] = action(3, 0, 1, 3);
    actions[2] = action(5, 2, 3, 0);
    actions
}

fn print_record(rt: &(impl AllocGlobal + Print), conditions: &[u8]) -> anyhow::Result<()> {
    let heap = rt.alloc();
    let mut table = Table::new(heap);
    table
        .fill(3, 1, Vec::from_slice(heap, conditions)?)
        .map_err(|_| anyhow!("the sample's table does not fit"))?;
    let written = record(heap, &table, &SampleNames, &sample_actions());
    let text = written.map_err(|_| anyhow!("no record of the sample"))?;
    rt.write_all(&text)?;
    Ok(())
}

fn main(rt: HostRuntime) -> anyhow::Result<()> {
    print_record(&rt, &DEMO)?;
    print_record(&rt, &DEMO_WITHOUT_WAIT)
}
