// The slips that judge writes into the first records of the table.
ghost use Rattle.std.specs.Prelude.{[], None, ◌≡◌, ◌≤◌, ◌*◌, ℕ, length};
ghost use Rattle.bench.specs.Drafting.{Cleared, Wrote};
ghost use Rattle.graph.specs.Graphs.{Graph, Bounded};
ghost use Rattle.graph.specs.Walks.{More, Recurring};
ghost use Rattle.slip.specs.declared.kinds.Kind.TheVariants as kinds;
ghost use Rattle.records.specs.Sizes.{Allowed};
ghost use Rattle.search.specs.Surveys.{Collected, Told};

use crate::states::Form;
use graph::Map;
use lasso::NO_WORD;
use paths::write_lasso;
use records::Record;
use slip::Kind;

// The letters of records, which a search leaves as they come, are cleared.
fn clear_letters(records: &mut [Record])
    ensures { Cleared records.old records.new }
{
    for record in records {
        record.letter = 0;
    }
}

// Writes a slip of what a search has found: each node once, with its measure.
pub(crate) fn write_keep(count: usize, work: &mut [Record], table: &mut [Record]) -> Form
    requires { (count ≤ length work.old) × (count ≤ length table.old) }
    ensures { (g : Graph) (room : ℕ) → Bounded g → Collected g count work.old → Told g count work.old None → count ≤ 2 * room → Wrote g room (record { kind = kinds.Keep; nodes = count }) table.old table.new result }
{
    clear_letters(&mut work[..count]);
    table[..count].copy_from_slice(&work[..count]);
    Form {
        kind: Kind::Keep,
        count,
        stem: 0,
    }
}

// Writes a slip of a lasso through a marked node that a search has found.
pub(crate) fn write_break<M: Map>(
    map: &M,
    node: u64,
    work: &mut [Record],
    table: &mut [Record],
) -> Form
    requires found { Recurring (M.Map.graph map.now [] 0) node }
    requires allowed { Allowed (length work.old) }
    requires room { More (M.Map.graph map.now [] 0) (length work.old) → ⊥ }
    requires sized { length table.old ≡ 2 * length work.old }
    ensures { (n : ℕ) → Wrote (M.Map.graph map.now [] 0) (length work.old) (record { kind = kinds.Break; nodes = n }) table.old table.new result }
{
    let lasso = write_lasso(map, NO_WORD, node, work, table).unwrap();
    Form::of_lasso(lasso.unwrap())
}
