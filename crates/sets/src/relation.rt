// A relation between events: for each event the set of those that are related to it.
ghost use Rattle.std.specs.Prelude.{◌≡◌, ℕ, ◌<◌, ◌≤◌, false, ◌&&◌, if◌then◌else◌, nat_eq, nat_lt};
ghost use Rattle.sets.specs.Members.{member};
ghost use Rattle.sets.specs.Chains.{Closure, closed, through};
ghost use Rattle.sets.specs.Rows.{related, replaced, row};

use crate::events::Events;

#[derive(Clone, Copy)]
pub struct Relation {
    rows: [Events; 32],
}

impl Relation {
    pub fn none() -> Relation
        ensures { (e f : ℕ) → related result e f ≡ false }
    {
        Relation::alike(Events::none())
    }

    // To each event the events of `row` are related.
    fn alike(row: Events) -> Relation
        ensures { (e f : ℕ) → related result e f ≡ (nat_lt f 32 && member row e) }
    {
        Relation { rows: [row; 32] }
    }

    // The events that are related to `event`.
    pub fn row(&self, event: u8) -> Events
        ensures { (e : ℕ) → member result e ≡ related self.now e event }
    {
        self.rows
            .get(usize::from(event))
            .copied()
            .unwrap_or(Events::none())
    }

    pub fn has(&self, first: u8, second: u8) -> bool
        ensures { result ≡ related self.now first second }
    {
        self.row(second).has(first)
    }

    // Makes `row` the events that are related to `event`. Numbers from 32 on are no events.
    pub fn put(&mut self, event: u8, row: Events)
        ensures { (e f : ℕ) → related self.new e f ≡ replaced (related self.old) event (member row) e f }
    {
        if event < 32 {
            write(&mut self.rows, event, row);
        }
    }

    // The events that are related to themselves.
    pub fn selves(&self) -> Events
        ensures { (e : ℕ) → member result e ≡ related self.now e e }
    {
        self.selves_below(32)
    }

    fn selves_below(&self, end: u8) -> Events
        ensures { (e : ℕ) → member result e ≡ (nat_lt e end && related self.now e e) }
    {
        Events::from_fn_below(end, |event| self.has(event, event))
    }

    // Makes this relation that of its chains, of one or more steps.
    pub fn close(&mut self)
        ensures value { (e f : ℕ) → related self.new e f ≡ closed (related self.old) 32 e f }
        ensures chains { Closure (related self.old) (related self.new) }
    {
        self.close_below(32)
    }

    // Warshall's closure, for chains whose inner events are below `end`: once an event was passed
    // through, no later turn adds a pair that would have to pass through it again.
    fn close_below(&mut self, end: u8)
        ensures value { (e f : ℕ) → related self.new e f ≡ closed (related self.old) end e f }
        ensures chains { 32 ≤ end → Closure (related self.old) (related self.new) }
    {
        for by in 0..end {
            self.pass(by);
        }
    }

    // Adds each pair that has `by` between.
    fn pass(&mut self, by: u8)
        ensures { (e f : ℕ) → related self.new e f ≡ through (related self.old) by e f }
    {
        let source = self.row(by);
        for row in self.rows.iter_mut() {
            if row.has(by) {
                *row = row.union(source);
            }
        }
    }
}

fn write(rows: &mut [Events; 32], event: u8, new: Events)
    requires { event < 32 }
    ensures { (f : ℕ) → row rows.new f ≡ (if nat_eq f event then new else row rows.old f) }
{
    rows[usize::from(event)] = new;
}
