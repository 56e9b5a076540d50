// What a table answers as a graph.
ghost use Rattle.std.specs.Prelude.{◌≡◌, ◌<◌, ◌^◌, nat_lt};
ghost use Rattle.graphs.specs.Tables.{condition};
ghost use Rattle.graphs.specs.Meaning.{tabled};
ghost use Rattle.std.proofs.Common.{rules};

use crate::table::Table;
use cpog::graph::Graph;
use sets::word::holds;

impl Graph for Table {
    ghost meaning = { tabled };

    ghost lawful = { Prim.search rules };

    fn events(&self) -> u8 {
        self.events
    }

    fn variables(&self) -> u8 {
        self.variables
    }

    fn allow(&self, opcode: u16) -> bool {
        self.has_setting(opcode) && self.condition(0, opcode)
    }

    fn has(&self, event: u8, opcode: u16) -> bool {
        event < self.events
            && self.has_setting(opcode)
            && self.condition(1 + usize::from(event), opcode)
    }

    fn arc(&self, from: u8, to: u8, opcode: u16) -> bool {
        let n = usize::from(self.events);
        from < self.events
            && to < self.events
            && self.has_setting(opcode)
            && self.condition(1 + n + usize::from(from) * n + usize::from(to), opcode)
    }
}

impl Table {
    // Whether `opcode` is a setting of the variables.
    fn has_setting(&self, opcode: u16) -> bool
        ensures { result ≡ nat_lt opcode (2 ^ self.now.variables) }
    {
        opcode < 1u16 << self.variables
    }

    // Whether condition `number` holds at `opcode`. Past the end of the bytes none does.
    fn condition(&self, number: usize, opcode: u16) -> bool
        requires { number < 2048 }
        ensures { result ≡ condition self.now.variables self.now.bytes.items number opcode }
    {
        let place = number * Table::width(self.variables) + usize::from(opcode / 8);
        let byte = self.bytes.get(place).copied().unwrap_or(0);
        holds(u32::from(byte), (opcode % 8) as u8)
    }
}
