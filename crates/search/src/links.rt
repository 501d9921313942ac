// What the measure of a record on the stack holds: two places of the table, since a record has three fields and a search no other
// memory. The low link is in the lower half, and the parent's place in the upper.
ghost use Rattle.std.specs.Prelude.{◌≡◌, ◌+◌, ◌*◌, ◌/◌, ◌%◌, ◌<◌};

use records::Record;

// A new node on the stack, which is its own low link.
pub(crate) fn entered(node: u64, parent: usize, place: usize) -> Record
    requires { (place < 65536) × (parent < 65536) }
    ensures { result ≡ record { node = node; letter = 0; measure = parent * 65536 + place } }
{
    Record {
        node,
        letter: 0,
        measure: parent as u32 * 65536 + place as u32,
    }
}

pub(crate) fn low_link(entry: Record) -> usize
    ensures { result ≡ entry.measure % 65536 }
{
    (entry.measure % 65536) as usize
}

pub(crate) fn parent(entry: Record) -> usize
    ensures { result ≡ entry.measure / 65536 }
{
    (entry.measure / 65536) as usize
}
