// The record of a procedure: its heading, a line for each allowed opcode, and the verdict.
ghost use Rattle.std.specs.Prelude.{◌≡◌, [], ◌++◌, IfSome, OnOk, MatchResult};
ghost use Rattle.sets.specs.Counting.{tally};
ghost use Rattle.questions.specs.Outcomes.{outcome_at};
ghost use Rattle.report.specs.Naming.{spelled};
ghost use Rattle.report.specs.Records.{line, heading, opening, ending, line_with, LineOf, Lines, Adds, Whole, Failed};

use crate::failure::Failure;
use crate::names::Names;
use cpog::action::Action;
use cpog::graph::Graph;
use cpog::projection::present;
use questions::OPCODES;
use questions::check::{Unsound, check};
use questions::outcome::{Flaw, outcome_at};
use searches::cycle::find_cycle;
use std::alloc::{AllocError, Global};
use std::fmt::Display;
use std::marker::Model;

// Fails if the check of the graph and its actions is refused, or for want of memory.
pub fn record<G: Graph, N: Names>(
    heap: Global,
    graph: &G,
    names: &N,
    actions: &[Action],
) -> Result<Vec<u8>, Failure>
    ensures { MatchResult result
        (λ text. Whole (N.naming names.now) (G.meaning graph.now) actions.now text.items)
        (λ why. Failed (G.meaning graph.now) actions.now why) }
{
    let mut buffer = [0u8; 32];
    let checked = check(graph, actions, &mut buffer)?;
    let subject = Subject {
        graph,
        names,
        actions,
    };
    let mut page = Page::new(heap);
    subject.put_heading(&mut page, checked.allowed)?;
    subject.put_opcodes(&mut page)?;
    put_verdict(&mut page, checked.verdict)?;
    Ok(page.into_text())
}

// What a record is about.
#[derive(Drop)]
struct Subject<'a, G, N> {
    graph: &'a G,
    names: &'a N,
    actions: &'a [Action],
}

impl<G: Graph, N: Names> Subject<'_, G, N> {
    fn put_heading(&self, page: &mut Page, allowed: u16) -> Result<(), AllocError>
        ensures { OnOk result (page.new ≡ page.old
            ++ heading (N.naming self.now.names.now) (G.meaning self.now.graph.now).events allowed) }
    {
        page.put_line(b"proc=", self.names.title())?;
        writeln!(page, "events={}", self.graph.events())?;
        page.put_line(b"vars=", self.names.letters())?;
        writeln!(page, "allowed={allowed}")
    }

    // A line for each allowed opcode, in rising order.
    fn put_opcodes(&self, page: &mut Page) -> Result<(), AllocError>
        ensures { OnOk result (Adds
            (Lines (N.naming self.now.names.now) (G.meaning self.now.graph.now) self.now.actions.now 256)
            page.old page.new) }
    {
        for opcode in 0..OPCODES {
            self.put_opcode(page, opcode)?;
        }
        Ok(())
    }

    // The line of an opcode, if it is allowed.
    fn put_opcode(&self, page: &mut Page, opcode: u16) -> Result<(), AllocError>
        ensures { OnOk result (Adds
            (LineOf (N.naming self.now.names.now) (G.meaning self.now.graph.now) opcode
            (outcome_at (G.meaning self.now.graph.now) self.now.actions.now opcode))
            page.old page.new) }
    {
        match outcome_at(self.graph, self.actions, opcode) {
            None => Ok(()),
            Some(Ok(())) => self.put_outcome(page, opcode, b" one result", &[]),
            Some(Err(Flaw::Cycle)) => {
                let cycle = find_cycle(self.graph, opcode).unwrap();
                self.put_outcome(page, opcode, b" cycle", cycle.as_slice())
            }
            Some(Err(Flaw::Clash(lower, higher))) => {
                self.put_outcome(page, opcode, b" clash", &[lower, higher])
            }
        }
    }

    // The line of an opcode: how many events are present, and its outcome in words and events.
    fn put_outcome(
        &self,
        page: &mut Page,
        opcode: u16,
        words: &[u8],
        events: &[u8],
    ) -> Result<(), AllocError>
        ensures { OnOk result (page.new ≡ page.old
            ++ line_with (G.meaning self.now.graph.now) opcode
            (words.now ++ spelled (N.naming self.now.names.now) events.now)) }
    {
        self.put_opening(page, opcode)?;
        page.put(words)?;
        self.put_names(page, events)?;
        page.put(b"\n")
    }

    // How the line of an opcode begins.
    fn put_opening(&self, page: &mut Page, opcode: u16) -> Result<(), AllocError>
        ensures { OnOk result (page.new ≡ page.old
            ++ opening opcode (tally (λ e. (G.meaning self.now.graph.now).has e opcode) 32)) }
    {
        let count = present(self.graph, opcode).count();
        write!(page, "opcode={opcode} present={count}")
    }

    // A blank and the name of each event.
    fn put_names(&self, page: &mut Page, events: &[u8]) -> Result<(), AllocError>
        ensures { OnOk result (page.new ≡ page.old
            ++ spelled (N.naming self.now.names.now) events.now) }
    {
        for event in events {
            page.put(b" ")?;
            page.put(self.names.name(*event))?;
        }
        Ok(())
    }
}

fn put_verdict(page: &mut Page, verdict: Result<(), Unsound>) -> Result<(), AllocError>
    ensures { OnOk result (page.new ≡ page.old ++ ending verdict) }
{
    match verdict {
        Ok(()) => writeln!(page, "check=sound"),
        Err(unsound) => {
            let word = match unsound.flaw {
                Flaw::Cycle => "cycle",
                Flaw::Clash(_, _) => "clash",
            };
            writeln!(page, "check={word} {}", unsound.opcode)
        }
    }
}

// The record as far as it is written.
#[derive(Drop)]
struct Page {
    text: Vec<u8>,
}

impl Model for Page {
    ghost use Rattle.std.specs.Prelude.{ℕ, List};

    ghost Value = { List ℕ };

    ghost view = { λ page. page.text.items };
}

impl Page {
    fn new(heap: Global) -> Page
        ensures { result ≡ [] }
    {
        Page {
            text: Vec::new(heap),
        }
    }

    fn put(&mut self, text: &[u8]) -> Result<(), AllocError>
        ensures { OnOk result (self.new ≡ self.old ++ text.now) }
    {
        self.text.extend_from_slice(text)
    }

    fn put_line(&mut self, key: &[u8], value: &[u8]) -> Result<(), AllocError>
        ensures { OnOk result (self.new ≡ self.old ++ line key.now value.now) }
    {
        self.put(key)?;
        self.put(value)?;
        self.put(b"\n")
    }

    // What `write!` and `writeln!` call.
    fn write_fmt<D: Display + Drop>(&mut self, value: D) -> Result<(), AllocError>
        ensures { OnOk result (IfSome (D.output value) (λ text. self.new ≡ self.old ++ text)) }
    {
        let text = value.to_string(*self.text.allocator())?;
        self.put(text.as_bytes())
    }

    fn into_text(self) -> Vec<u8>
        ensures { result.items ≡ self }
    {
        self.text
    }
}
