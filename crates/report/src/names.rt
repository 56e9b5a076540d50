// The names that a record is written with.
ghost use Rattle.std.specs.Prelude.{◌≡◌};
ghost use Rattle.report.specs.Naming.{Naming};

pub trait Names {
    ghost naming: { Self → Naming };

    // The procedure's name.
    fn title(&self) -> &[u8]
        ensures { result.now ≡ (naming self.now).title };

    // The letters of the variables, variable 0 first.
    fn letters(&self) -> &[u8]
        ensures { result.now ≡ (naming self.now).letters };

    fn name(&self, event: u8) -> &[u8]
        ensures { result.now ≡ (naming self.now).name event };
}
