// The table of a search: records that its caller lends, since a search has no memory of its own.
ghost use Rattle.std.specs.Prelude.{◌≡◌, ◌+◌, ◌-◌, ◌<◌, ◌≤◌, min, suc, set, take, drop, length, slice_index_or, Decides, MatchOption, MatchResult};
ghost use Rattle.records.specs.Tables.{node_at, letter_at, measure_at, blank, At, SameTable};
ghost use Rattle.records.specs.WorkTables.{Pushed, NotPushed, DoneRecord, CopiedTo, Risen, Settled};

use crate::faults::SearchFault;
use crate::finding::find;
use crate::record::Record;

// Copies the records from one place on and below another to a third place on.
fn copy_to(records: &mut [Record], from: usize, end: usize, to: usize)
    requires { (from ≤ end) × (end ≤ length records.old) × (to + (end - from) ≤ length records.old) }
    ensures { CopiedTo from end to records.old records.new }
{
    records.copy_within(from..end, to);
}

// Moves the records from a place on and below `size` up, so that they end at `top`, and gives each letter 0 and the measure.
fn raise(records: &mut [Record], size: usize, top: usize, from: usize, measure: u32)
    requires { (from ≤ size) × (size ≤ top) × (top ≤ length records.old) }
    ensures { Risen size top from measure records.old records.new }
{
    let done = top - (size - from);
    copy_to(records, from, size, done);
    for record in &mut records[done..top] {
        record.letter = 0;
        record.measure = measure;
    }
}

// Its first records are a stack, or a queue, its last ones are done, and those between are free. A node gets a place and is looked for
// by this type alone: whoever uses it may give a record another letter or measure, and never another node.
#[derive(Drop)]
pub struct WorkTable<'w> {
    work: &'w mut [Record],
    // the records below are the stack
    size: usize,
    // the records from here on are done
    top: usize,
    ghost stack: { size ≤ top },
    ghost table: { top ≤ length work.now },
}

impl<'w> WorkTable<'w> {
    // With an empty stack, and nothing done.
    pub fn new(work: &'w mut [Record]) -> WorkTable<'w>
        ensures same_table { result.work.ghost_name ≡ work.entry.ghost_name }
        ensures table { result.work.now ≡ work.old }
        ensures size { result.size ≡ 0 }
        ensures top { result.top ≡ length work.old }
    {
        let top = work.len();
        WorkTable { work, size: 0, top }
    }

    // The records, which are the caller's again.
    pub fn give_back(self) -> &'w mut [Record]
        ensures same_table { SameTable self.entry.work result }
        ensures same_records { result.now ≡ self.entry.work.now }
    {
        let WorkTable { work, .. } = self;
        work
    }

    // How many records the stack has.
    #[inline]
    pub fn size(&self) -> usize
        ensures { result ≡ self.now.size }
    {
        self.size
    }

    // Is no record free?
    #[inline]
    pub fn is_full(&self) -> bool
        ensures { Decides result (self.now.size ≡ self.now.top) }
    {
        self.size == self.top
    }

    // The record at a place. Past the end it is the blank one, as in all that is said of tables.
    #[inline]
    pub fn record(&self, place: usize) -> Record
        ensures { result ≡ slice_index_or self.now.work.now place blank }
    {
        match self.work.get(place) {
            Some(held) => *held,
            None => Record::default(),
        }
    }

    // The records of the stack from a place on: none, where the stack ends below it.
    #[inline]
    pub fn stack_from(&self, place: usize) -> &[Record]
        ensures { result.now ≡ take (self.now.size - place) (drop place self.now.work.now) }
    {
        if place > self.size {
            return &[];
        }
        &self.work[place..self.size]
    }

    // A place of a node on the stack.
    #[inline]
    #[tactic(auto, using(crate::proofs::Parts::found_in_front))]
    pub fn place(&self, node: u64) -> Option<usize>
        ensures { MatchOption result (At (node_at self.now.work.now) 0 self.now.size node → ⊥) (λ i. (i < self.now.size) × (node_at self.now.work.now i ≡ node)) }
    {
        find(&self.work[..self.size], node)
    }

    // A record of a done node.
    #[inline]
    pub fn done(&self, node: u64) -> Option<Record>
        ensures { MatchOption result (At (node_at self.now.work.now) self.now.top (length self.now.work.now) node → ⊥) (DoneRecord self.now.top node self.now.work.now) }
    {
        let done = &self.work[self.top..];
        match find(done, node) {
            Some(i) => Some(done[i]),
            None => None,
        }
    }

    // Is a node done?
    #[inline]
    pub fn is_done(&self, node: u64) -> bool
        ensures { Decides result (At (node_at self.now.work.now) self.now.top (length self.now.work.now) node) }
    {
        self.done(node).is_some()
    }

    // Pushes a record onto the stack. Refused by 13 where none is free, and all is as it was.
    #[inline]
    pub fn push(&mut self, added: Record) -> Result<(), SearchFault>
        ensures same_table { SameTable self.old.work self.new.work }
        ensures top { self.new.top ≡ self.old.top }
        ensures pushed { MatchResult result (λ _. Pushed added self.old.size self.old.top self.old.work.now self.new.size self.new.work.now) (NotPushed self.old.size self.old.top self.old.work.now self.new.size self.new.work.now) }
    {
        if self.is_full() {
            return Err(SearchFault::Full);
        }
        self.work[self.size] = added;
        self.size += 1;
        Ok(())
    }

    // Gives the record at a place another letter. Past the end nothing changes.
    #[inline]
    pub fn set_letter(&mut self, place: usize, letter: u8)
        ensures same_table { SameTable self.old.work self.new.work }
        ensures size { self.new.size ≡ self.old.size }
        ensures top { self.new.top ≡ self.old.top }
        ensures written { self.new.work.now ≡ set self.old.work.now place (record { node = node_at self.old.work.now place; letter = letter; measure = measure_at self.old.work.now place }) }
    {
        if place < self.work.len() {
            self.work[place].letter = letter;
        }
    }

    // Gives the record at a place another measure. Past the end nothing changes.
    #[inline]
    pub fn set_measure(&mut self, place: usize, measure: u32)
        ensures same_table { SameTable self.old.work self.new.work }
        ensures size { self.new.size ≡ self.old.size }
        ensures top { self.new.top ≡ self.old.top }
        ensures written { self.new.work.now ≡ set self.old.work.now place (record { node = node_at self.old.work.now place; letter = letter_at self.old.work.now place; measure = measure }) }
    {
        if place < self.work.len() {
            self.work[place].measure = measure;
        }
    }

    // The stack from a place on is done: it ends what is free, and each of its records gets letter 0 and the measure. Nothing changes
    // where the stack ends below the place.
    pub fn move_up(&mut self, from: usize, measure: u32)
        ensures same_table { SameTable self.old.work self.new.work }
        ensures size { self.new.size ≡ min self.old.size from }
        ensures top { self.new.top ≡ self.old.top - (self.old.size - from) }
        ensures risen { Risen self.old.size self.old.top from measure self.old.work.now self.new.work.now }
        ensures kept { self.old.size < from → self.new.work.now ≡ self.old.work.now }
    {
        if from > self.size {
            return;
        }
        raise(self.work, self.size, self.top, from, measure);
        self.top -= self.size - from;
        self.size = from;
    }

    // Copies what is done to the front, and counts it; the records behind it are as they were. Nothing is in use then.
    pub fn settle(&mut self) -> usize
        ensures same_table { SameTable self.old.work self.new.work }
        ensures size { self.new.size ≡ 0 }
        ensures top { self.new.top ≡ length self.old.work.now }
        ensures count { result ≡ length self.old.work.now - self.old.top }
        ensures settled { Settled self.old.top self.old.work.now self.new.work.now }
    {
        let top = self.top;
        self.size = 0;
        self.top = self.work.len();
        self.work.copy_within(top.., 0);
        self.work.len() - top
    }
}
