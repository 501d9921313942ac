// A search on its way.
ghost use Rattle.std.specs.Prelude.{◌≡◌, ◌≤◌, length, None};

use records::{Record, WorkTable};

// Its methods keep the reference to the table, which their contracts say, as a type cannot speak of two moments. The graph
// is handed to them: in here it would be one thing more for each to say that it keeps.
#[derive(Drop)]
pub(crate) struct Search<'w> {
    // the stack and what is done
    pub(crate) table: WorkTable<'w>,
    // the place on the stack at which the search goes on
    pub(crate) cur: usize,
    // the least node that is to be looked at there
    pub(crate) from: u64,
    // a marked node on a cycle, once one is found
    pub(crate) found: Option<u64>,
    ghost few: { length table.work.now ≤ 65536 },
    ghost within: { cur ≤ table.size },
}

impl<'w> Search<'w> {
    ghost use Rattle.search.specs.Progress.{progress};

    // With an empty stack, and nothing done.
    pub(crate) fn new(work: &'w mut [Record]) -> Search<'w>
        requires { length work.old ≤ 65536 }
        ensures same_table { result.table.work.ghost_name ≡ work.entry.ghost_name }
        ensures table { result.table.work.now ≡ work.old }
        ensures progress { progress result ≡ record { size = 0; top = length work.old; cur = 0; from = 0; found = None } }
    {
        Search {
            table: WorkTable::new(work),
            cur: 0,
            from: 0,
            found: None,
        }
    }
}
