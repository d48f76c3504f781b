//! The value that a guard lends. It has a file of its own, since its clause names the row of `Pass`.
ghost use Rattle.std.specs.Prelude.{◌≡◌, []};
ghost use mir.Syntax.{named};
ghost use Rattle.std.specs.Borrow.{Lends, sem};
ghost use Rattle.turn_lock.specs.Passes.{with_value};
ghost use Rattle.turn_lock.specs.contracts.pass.Pass.{the_row};

use crate::pass::Pass;
use sky_io::Lineage;

impl<'a, T: Lineage> Pass<'a, T> {
    /// Borrows the value. What is written to it is kept when the loan ends. Does not allocate.
    pub fn value(&mut self) -> &mut T
        ensures* lends { sem 𝓛 (Lends
            (the_row (record { mir = named 0; lft = [] }) T.row T.Root.row T.Entry.row T.Lineage)
            T.row self.entry result (with_value self.old)) }
        ensures value { result.now ≡ self.old.value }
    {
        &mut self.value
    }
}
