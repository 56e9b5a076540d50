// How a table is made and filled.
ghost use Rattle.std.specs.Prelude.{◌≡◌, [], OnOk, OnErr, vec_len};
ghost use Rattle.std.specs.Result.{result_err};
ghost use Rattle.graphs.specs.Tables.{misfit, table_of};
ghost use Rattle.graphs.specs.Meaning.{tabled};

use crate::table::Table;
use cpog::refusal::Refusal;
use std::alloc::Global;

impl Table {
    // The empty graph: no events, no variables, nothing allowed.
    pub fn new(heap: Global) -> Table
        ensures { tabled result ≡ table_of 0 0 [] }
    {
        Table {
            events: 0,
            variables: 0,
            bytes: Vec::new(heap),
        }
    }

    // Takes the conditions of `events` events over `variables` variables. Refuses more than 32
    // events or 8 variables, then another number of bytes than the conditions take; the table is
    // then as it was.
    pub fn fill(&mut self, events: u8, variables: u8, bytes: Vec<u8>) -> Result<(), Refusal>
        ensures answer { result_err result ≡ misfit events variables (vec_len bytes) }
        ensures ok { OnOk result (tabled self.new ≡ table_of events variables bytes.items) }
        ensures err { OnErr result (self.new ≡ self.old) }
    {
        if events > 32 || variables > 8 {
            return Err(Refusal::TableTooLarge);
        }
        let n = usize::from(events);
        if bytes.len() != (1 + n + n * n) * Table::width(variables) {
            return Err(Refusal::TableLength);
        }
        self.events = events;
        self.variables = variables;
        self.bytes = bytes;
        Ok(())
    }
}
