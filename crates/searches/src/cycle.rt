// A cycle of counted arcs.
ghost use Rattle.std.specs.Prelude.{◌≡◌, ◌≤◌, length};

mod search;

pub use search::find_cycle;

// One or more different events, each with a counted arc to the next and the last to the first.
#[derive(Clone, Copy)]
pub struct Cycle {
    events: [u8; 32],
    len: usize,
    ghost short: { len ≤ 32 },
}

impl Cycle {
    ghost use Rattle.searches.specs.Cycles.{round};

    // The events, in the order of the arcs.
    pub fn as_slice(&self) -> &[u8]
        ensures value { result.now ≡ round self.now }
        ensures few { length result.now ≤ 32 }
    {
        &self.events[..self.len]
    }
}
