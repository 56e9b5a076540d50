// What an event does: an operation code, the two registers that it reads, and the one that it writes.
ghost use Rattle.std.specs.Prelude.{◌≡◌, ℕ, ◌<◌, ◌↔◌, IsTrue};
ghost use Rattle.sets.specs.Counting.{every};
ghost use Rattle.cpog.specs.Actions.{act, named, usable, Usable};

// A register is a number below 32. Larger ones can be written down, and are refused where an
// action would be carried out.
#[derive(Clone, Copy, PartialEq, Eq, Debug)]
pub struct Action {
    pub code: u8,
    pub left: u8,
    pub right: u8,
    pub out: u8,
}

impl Action {
    // Code 0 on registers 0 and 0 to 0: what stands where no action is given.
    pub const ZERO: Action = Action {
        code: 0,
        left: 0,
        right: 0,
        out: 0,
    };

    // Whether each of the three registers is below 32.
    fn names_registers(self) -> bool
        ensures { result ≡ named self }
    {
        self.left < 32 && self.right < 32 && self.out < 32
    }
}

// The action of `event`: that of its place, and `Action::ZERO` past the end.
pub fn action_of(actions: &[Action], event: u8) -> Action
    ensures { result ≡ act actions.now event }
{
    actions
        .get(usize::from(event))
        .copied()
        .unwrap_or(Action::ZERO)
}

// Whether there are 32 actions or more, and those of the first `events` name only registers below 32.
pub fn actions_fit(actions: &[Action], events: u8) -> bool
    ensures value { result ≡ usable events actions.now }
    ensures law { IsTrue result ↔ Usable events actions.now }
{
    actions.len() >= 32 && all_named(actions, events)
}

// Whether the actions of the first `events` events name only registers below 32.
fn all_named(actions: &[Action], events: u8) -> bool
    ensures value { result ≡ every (λ e. named (act actions.now e)) events }
    ensures law { IsTrue result ↔ ((e : ℕ) → e < events → IsTrue (named (act actions.now e))) }
{
    (0..events).all(|event| action_of(actions, event).names_registers())
}
