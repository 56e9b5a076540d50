// What a procedure graph answers.
ghost use Rattle.std.specs.Prelude.{◌≡◌};
ghost use Rattle.cpog.specs.Graphs.{Conditions, Lawful};

// Events are numbered from 0, and so are variables; bit k of an opcode is the value of variable k.
// A graph never refuses, answers by its meaning alone, and is unchanged by questions.
pub trait Graph {
    // What the graph says of each number, in range or not.
    ghost meaning: { Self → Conditions };

    fn events(&self) -> u8
        ensures { result ≡ (meaning self.now).events };

    fn variables(&self) -> u8
        ensures { result ≡ (meaning self.now).variables };

    fn allow(&self, opcode: u16) -> bool
        ensures { result ≡ (meaning self.now).allow opcode };

    fn has(&self, event: u8, opcode: u16) -> bool
        ensures { result ≡ (meaning self.now).has event opcode };

    // The arc's own condition, whether or not its events are present.
    fn arc(&self, from: u8, to: u8, opcode: u16) -> bool
        ensures { result ≡ (meaning self.now).arc from to opcode };

    // At most 32 events and 8 variables, and out-of-range numbers give no.
    ghost lawful: { (x : Self) → Lawful (meaning x) };
}
