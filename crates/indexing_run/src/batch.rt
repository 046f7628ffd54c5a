//! What an indexer has read since its checkpoints.

ghost use Rattle.std.specs.Prelude.{◌≡◌, ◌≤◌, ◌<◌, ◌+◌, ◌^◌, ℕ, suc, List, length, nat_lt, OnOk, IfOk, IfSome, ◌-◌, [], min, IfNone};
ghost use Rattle.doc_value.specs.Documents.{IsSchema};
ghost use Rattle.source_checkpoint.specs.declared.ledger.Checkpoint.{Checkpoint};
ghost use Rattle.indexing_run.specs.Gathering.{HasDocuments};
ghost use Rattle.indexing_run.specs.Making.{Follows};
ghost use Rattle.indexing_run.specs.Steps.{extended, parts_after, taken_from, taken_so_far, is_closed};
ghost use Rattle.split_bundle.specs.declared.placed.Placed.{Placed};

use crate::documents::Documents;
use crate::queue::Queue;
use byte_fields::Bytes;
use index_config::IndexConfig;
use index_world::Marks;
use source_checkpoint::{Part, Partition};
use source_log::{Partitions, Records};
use std::alloc::{AllocError, Global};
use std::mem;

const MAX_READ: u64 = 1_000;

/// What is read next: from where on, and how many records at most.
#[derive(Drop)]
pub struct NextRead {
    pub partition: Partition,
    pub from: u64,
    pub room: u32,
}

/// The records of a batch.
#[derive(Drop)]
pub struct Batch {
    queue: Queue,
    pub parts: Vec<Part>,
    pub documents: Documents,
    pub count: u64,
    first_read: Option<u64>,
    pub closed: bool,
    ghost taken: { ∥ ((list : List Placed) × HasDocuments documents list) ∥₁ },
}

// Appends the records from `from` up to and without `to` of a partition, which is the last part's where it is read on.
fn extend(
    parts: &mut Vec<Part>,
    partition: &Partition,
    from: u64,
    to: u64,
) -> Result<(), AllocError>
    ensures { Follows parts.old.items (record { partition = partition.now; at = from }) →
        OnOk result (parts.new.items ≡ extended parts.old.items partition.now from to) }
{
    let count = parts.len();
    if count > 0 && parts[count - 1].partition.is(partition) {
        parts[count - 1].to = to;
        return Ok(());
    }
    parts.push(Part {
        partition: partition.copy(),
        from,
        to,
    })?;
    Ok(())
}

// So many records from a place on were taken.
fn extend_taken(
    parts: &mut Vec<Part>,
    partition: &Partition,
    from: u64,
    taken: u64,
) -> Result<(), AllocError>
    requires { from + taken < 2 ^ 64 }
    ensures { Follows parts.old.items (record { partition = partition.now; at = from }) →
        OnOk result (parts.new.items ≡ parts_after taken parts.old.items partition.now from) }
{
    if taken == 0 {
        return Ok(());
    }
    extend(parts, partition, from, from + taken)
}

// The records one after another, up to the one with which the batch is too heavy. Gives how many were taken.
fn take_records(
    alloc: Global,
    partition: &Partition,
    from: u64,
    records: &[Bytes],
    documents: &mut Documents,
) -> Result<u64, AllocError>
    requires low { from + length records.now < 2 ^ 64 }
    requires taken { ∥ ((list : List Placed) × HasDocuments documents.old list) ∥₁ }
    ensures mapping { documents.new.mapping ≡ documents.old.mapping }
    ensures within { IfOk result (λ taken. taken ≤ length records.now) }
    ensures taken { (list : List Placed) → HasDocuments documents.old list → IfOk result (λ taken. (after : List Placed) × HasDocuments documents.new after
        × (taken_from documents.old.mapping partition.now from records.now (taken_so_far 0 list) ≡ taken_so_far taken after)) }
{
    for (i, record) in records.iter().enumerate() {
        if documents.are_heavy() {
            return Ok(i as u64);
        }
        documents.take(alloc, partition, from + i as u64, record)?;
    }
    Ok(records.len() as u64)
}

// Takes the records from a place on as `take_records` does, and extends the parts by them. Gives how many were taken.
fn take_part(
    alloc: Global,
    partition: &Partition,
    from: u64,
    records: &[Bytes],
    parts: &mut Vec<Part>,
    documents: &mut Documents,
) -> Result<u64, AllocError>
    requires low { from + length records.now < 2 ^ 64 }
    requires taken { ∥ ((list : List Placed) × HasDocuments documents.old list) ∥₁ }
    ensures mapping { documents.new.mapping ≡ documents.old.mapping }
    ensures within { IfOk result (λ taken. taken ≤ length records.now) }
    ensures taken { (list : List Placed) → HasDocuments documents.old list → IfOk result (λ taken. (after : List Placed) × HasDocuments documents.new after
        × (taken_from documents.old.mapping partition.now from records.now (taken_so_far 0 list) ≡ taken_so_far taken after)) }
    ensures parts { Follows parts.old.items (record { partition = partition.now; at = from }) →
        IfOk result (λ taken. parts.new.items ≡ parts_after taken parts.old.items partition.now from) }
{
    let taken = take_records(alloc, partition, from, records, documents)?;
    extend_taken(parts, partition, from, taken)?;
    Ok(taken)
}

impl Batch {
    ghost use Rattle.source_checkpoint.specs.declared.ledger.Checkpoint.{Checkpoint};
    ghost use Rattle.indexing_run.specs.Places.{Batch as Made};
    ghost use Rattle.indexing_run.specs.Steps.{marks_at, fresh_batch, start_of, read_limit};
    ghost use Rattle.indexing_run.specs.Standing.{left_of, BatchStands, next_read, ReadsOn, batch_read};

    /// An empty batch of these partitions under the index's configuration, from the checkpoints on.
    pub fn begin(
        alloc: Global,
        config: IndexConfig,
        names: &Partitions,
        marks: &Marks,
    ) -> Result<Batch, AllocError>
        requires { ∥ IsSchema config.schema ∥₁ }
        ensures { IfOk result (λ batch. BatchStands batch (fresh_batch config (marks_at marks.now.checkpoints.items names.now))) }
    {
        let queue = match Queue::from_marks(alloc, names, marks) {
            Ok(queue) => queue,
            Err(refused) => {
                mem::drop(config);
                return Err(refused);
            }
        };
        let documents = Documents::vacant(alloc, config)?;
        let closed = queue.is_empty();
        Ok(Batch {
            queue,
            parts: Vec::new(alloc),
            documents,
            count: 0,
            first_read: None,
            closed,
        })
    }

    /// Where the next read begins, and how many records it may give.
    pub fn next_read(&self) -> Option<NextRead>
        ensures room { IfSome result (λ next. 1 ≤ next.room) }
        ensures none { IfNone result (left_of self.now.queue ≡ []) }
        ensures next { (batch : Made) → BatchStands self.now batch → batch.count < batch.config.docs_target → result ≡ next_read batch.queue (read_limit batch) }
    {
        let mark = self.queue.first()?;
        let target = self.documents.config().docs_target;
        // A batch that is read on has room for a record.
        let room = target.saturating_sub(self.count).min(MAX_READ).max(1);
        Some(NextRead {
            partition: mark.partition.copy(),
            from: mark.at,
            room: room as u32,
        })
    }

    // Whether a batch is to be read no further behind a read at this moment.
    fn is_full(&self, since: u64, now: u64) -> bool
        requires { now < 2 ^ 62 }
        ensures { result ≡ is_closed self.now.documents.mapping (left_of self.now.queue) self.now.count (nat_lt 134217728 self.now.documents.builder.weight) since now }
    {
        let target = self.documents.config().docs_target;
        let timeout = self.documents.config().commit_timeout;
        self.queue.is_empty()
            || self.count >= target
            || self.documents.are_heavy()
            || (self.count > 0 && now >= since.saturating_add(timeout))
    }

    /// With what was read of a partition from a place on, at a moment, and how many records were taken.
    pub fn take(
        self,
        alloc: Global,
        partition: &Partition,
        from: u64,
        records: &Records,
        now: u64,
    ) -> Result<(Batch, u64), AllocError>
        requires low { from + length records.now.list < 2 ^ 64 }
        requires moment { now < 2 ^ 62 }
        // Whatever was read.
        ensures count { IfOk result (λ r. r.0.count ≡ min (self.count + r.1) (2 ^ 64 - 1)) }
        ensures config { IfOk result (λ r. r.0.documents.mapping ≡ self.documents.mapping) }
        ensures taken { (batch : Made) (mark : Checkpoint) (rest : List Checkpoint) → BatchStands self batch →
            ReadsOn batch mark rest records.now → partition.now ≡ mark.partition → from ≡ mark.at →
            IfOk result (λ r. (r.1 ≡ (taken_from batch.config mark.partition mark.at records.now.list (start_of batch)).count)
            × BatchStands r.0 (batch_read batch mark rest records.now now)) }
    {
        let Batch {
            mut queue,
            mut parts,
            mut documents,
            count,
            first_read,
            ..
        } = self;
        let list = records.list.as_slice();
        let taken = match take_part(alloc, partition, from, list, &mut parts, &mut documents) {
            Ok(taken) => taken,
            Err(refused) => {
                mem::drop(queue);
                mem::drop(parts);
                mem::drop(documents);
                return Err(refused);
            }
        };
        let since = first_read.unwrap_or(now);
        queue.move_on(taken, records.end);
        let mut batch = Batch {
            queue,
            parts,
            documents,
            count: count.saturating_add(taken),
            first_read: Some(since),
            closed: false,
        };
        batch.closed = batch.is_full(since, now);
        Ok((batch, taken))
    }
}
