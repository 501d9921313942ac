// What a search writes into the records of its stack.
ghost use Rattle.std.specs.Prelude.{◌≡◌, ◌+◌, ◌<◌, min, length};
ghost use Rattle.records.specs.Tables.{letter_at, SameTable};
ghost use Rattle.search.specs.Links.{low_at};
ghost use Rattle.search.specs.Progress.{progress};
ghost use Rattle.search.specs.Changes.{Changed, Met};

use crate::links::low_link;
use crate::searches::Search;

impl<'w> Search<'w> {
    // Lowers the low link of place i to `low`, unless it is lower.
    pub(crate) fn lower(&mut self, i: usize, low: usize)
        requires { (i < length self.old.table.work.now) × (low < 65536) }
        ensures same_table { SameTable self.old.table.work self.new.table.work }
        ensures progress { progress self.new ≡ progress self.old }
        ensures changed { Changed i (letter_at self.old.table.work.now i) (min (low_at self.old.table.work.now i) low) self.old.table.work.now self.new.table.work.now }
    {
        let held = self.table.record(i);
        let old = low_link(held);
        self.table
            .set_measure(i, held.measure - (old - old.min(low)) as u32);
    }

    // Goes on with the next letter at place i.
    pub(crate) fn turn(&mut self, i: usize)
        requires { (i < length self.old.table.work.now) × (letter_at self.old.table.work.now i < 255) }
        ensures same_table { SameTable self.old.table.work self.new.table.work }
        ensures progress { progress self.new ≡ progress self.old }
        ensures changed { Changed i (letter_at self.old.table.work.now i + 1) (low_at self.old.table.work.now i) self.old.table.work.now self.new.table.work.now }
    {
        let held = self.table.record(i);
        self.table.set_letter(i, held.letter + 1);
    }

    // The current place leads to a node: if the stack has it, the place's low link is not above it then. Tells whether the
    // table has it.
    pub(crate) fn meet(&mut self, node: u64) -> bool
        requires { self.old.cur < self.old.table.size }
        ensures same_table { SameTable self.old.table.work self.new.table.work }
        ensures progress { progress self.new ≡ progress self.old }
        ensures met { Met self.old.table.size self.old.table.top self.old.cur node self.old.table.work.now self.new.table.work.now result }
    {
        if let Some(i) = self.table.place(node) {
            self.lower(self.cur, i);
            return true;
        }
        self.table.is_done(node)
    }
}
