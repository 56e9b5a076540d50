// What a graph has at an opcode: its present events, its counted arcs, and their order.
ghost use Rattle.std.specs.Prelude.{◌≡◌, ℕ, ◌≤◌, false, ◌&&◌, IsTrue, OnOk, OnErr};
ghost use Rattle.std.specs.Result.{result_err};
ghost use Rattle.sets.specs.Counting.{tally};
ghost use Rattle.sets.specs.Members.{member};
ghost use Rattle.sets.specs.Rows.{related};
ghost use Rattle.cpog.specs.Graphs.{counted, order_at, Projects};
ghost use Rattle.cpog.specs.Projections.{seen, on_cycle, no_order};

use crate::graph::Graph;
use crate::refusal::Refusal;
use sets::events::Events;
use sets::relation::Relation;

// A place for one order: the present events, and for each event those that precede it.
#[derive(Clone, Copy)]
pub struct Projection {
    present: Events,
    before: Relation,
}

impl Projection {
    // No event is present.
    pub fn new() -> Projection
        ensures { ((e : ℕ) → (seen result).present e ≡ false) × ((e f : ℕ) → (seen result).precedes e f ≡ false) }
    {
        Projection {
            present: Events::none(),
            before: Relation::none(),
        }
    }

    pub fn is_present(&self, event: u8) -> bool
        ensures { result ≡ (seen self.now).present event }
    {
        self.present.has(event)
    }

    // Whether a chain of one or more counted arcs leads from `first` to `second`.
    pub fn precedes(&self, first: u8, second: u8) -> bool
        ensures { result ≡ (seen self.now).precedes first second }
    {
        self.before.has(first, second)
    }

    // How many events are present.
    pub fn count(&self) -> u8
        ensures { result ≡ tally (seen self.now).present 32 }
    {
        self.present.count()
    }

    // Takes the order of `graph` at `opcode`. Refuses if the opcode is not allowed, then if events
    // precede themselves; the place is then as it was.
    pub fn project<G: Graph>(&mut self, graph: &G, opcode: u16) -> Result<(), Refusal>
        ensures answer { result_err result ≡ no_order (G.meaning graph.now) opcode }
        ensures ok { OnOk result (seen self.new ≡ order_at (G.meaning graph.now) opcode) }
        ensures err { OnErr result (self.new ≡ self.old) }
        ensures law { IsTrue ((G.meaning graph.now).allow opcode) → Projects (G.meaning graph.now) opcode (order_at (G.meaning graph.now) opcode) }
    {
        if !graph.allow(opcode) {
            return Err(Refusal::NotAllowed);
        }
        let drawn = Projection::draw(graph, opcode);
        match drawn.on_cycle() {
            Some(event) => Err(Refusal::Cycle(event)),
            None => {
                *self = drawn;
                Ok(())
            }
        }
    }

    // The present events and the chains, whether or not the opcode is allowed.
    fn draw<G: Graph>(graph: &G, opcode: u16) -> Projection
        ensures value { seen result ≡ order_at (G.meaning graph.now) opcode }
        ensures law { Projects (G.meaning graph.now) opcode (seen result) }
    {
        let scene = Scene::new(graph, opcode);
        let mut before = scene.arcs();
        before.close();
        Projection {
            present: scene.present,
            before,
        }
    }

    // The lowest event that precedes itself.
    fn on_cycle(&self) -> Option<u8>
        ensures { result ≡ on_cycle (seen self.now) }
    {
        self.before.selves().lowest()
    }
}

// The events that are there at `opcode`.
pub fn present<G: Graph>(graph: &G, opcode: u16) -> Events
    ensures { (e : ℕ) → member result e ≡ (G.meaning graph.now).has e opcode }
{
    present_below(graph, graph.events(), opcode)
}

// Those below `end`, which are all if every event is.
fn present_below<G: Graph>(graph: &G, end: u8, opcode: u16) -> Events
    ensures { (G.meaning graph.now).events ≤ end → (e : ℕ) → member result e ≡ (G.meaning graph.now).has e opcode }
{
    Events::from_fn_below(end, |event| graph.has(event, opcode))
}

// The arcs that count: those that are there between present events.
pub fn counted_arcs<G: Graph>(graph: &G, opcode: u16) -> Relation
    ensures { (e f : ℕ) → related result e f ≡ counted (G.meaning graph.now) opcode e f }
{
    Scene::new(graph, opcode).arcs()
}

// A graph at an opcode, with the events that are there.
#[derive(Drop)]
struct Scene<'a, G: Graph> {
    graph: &'a G,
    opcode: u16,
    present: Events,
    ghost present_there: { (e : ℕ) → member present e ≡ (G.meaning graph.now).has e opcode },
}

impl<'a, G: Graph> Scene<'a, G> {
    fn new(graph: &'a G, opcode: u16) -> Scene<'a, G>
        ensures graph { result.graph.now ≡ graph.now }
        ensures opcode { result.opcode ≡ opcode }
    {
        Scene {
            graph,
            opcode,
            present: present(graph, opcode),
        }
    }

    // The arcs that count.
    fn arcs(&self) -> Relation
        ensures { (e f : ℕ) → related result e f ≡ counted (G.meaning self.now.graph.now) self.now.opcode e f }
    {
        let mut arcs = Relation::none();
        for to in 0..self.graph.events() {
            if self.present.has(to) {
                arcs.put(to, self.arcs_to(to));
            }
        }
        arcs
    }

    // The present events that have an arc to `to`.
    fn arcs_to(&self, to: u8) -> Events
        ensures { (e : ℕ) → member result e ≡ (member self.now.present e && (G.meaning self.now.graph.now).arc e to self.now.opcode) }
    {
        Events::from_fn_below(self.graph.events(), |from| self.leads(from, to))
    }

    // Whether `from` is present and has an arc to `to`: an absent event's conditions are not asked.
    fn leads(&self, from: u8, to: u8) -> bool
        ensures { result ≡ (member self.now.present from && (G.meaning self.now.graph.now).arc from to self.now.opcode) }
    {
        self.present.has(from) && self.graph.arc(from, to, self.opcode)
    }
}
