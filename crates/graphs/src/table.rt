// A graph as a table of conditions.
ghost use Rattle.std.specs.Prelude.{◌≡◌, ◌≤◌};
ghost use Rattle.graphs.specs.Tables.{width};

mod answers;
mod filling;

// The conditions stand one after the other: allow, has of each event, then arc of each pair of
// events. Each has a bit for each opcode, and takes at least a byte.
#[derive(Drop)]
pub struct Table {
    events: u8,
    variables: u8,
    bytes: Vec<u8>,
    ghost few_events: { events ≤ 32 },
    ghost few_variables: { variables ≤ 8 },
}

impl Table {
    // How many bytes a condition takes.
    fn width(variables: u8) -> usize
        requires { variables ≤ 8 }
        ensures { result ≡ width variables }
    {
        ((1usize << variables) / 8).max(1)
    }
}
