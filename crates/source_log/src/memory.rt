ghost use Rattle.std.specs.Prelude.{◌≡◌, ◌≢◌, ◌≤◌, ◌<◌, ◌+◌, ◌^◌, ◌++◌, ◌∷◌, [], ℕ, List, length, slice_set, slice_index_or, Some, OnOk, OnErr, IfOk, vec_len};
ghost use Rattle.source_log.specs.Log.{Log, IsLog, Extends, records_of, names_of, IsSliceOf};
ghost use Rattle.source_checkpoint.specs.Names.{IsPartition};
ghost use Rattle.source_log.specs.Memory.{part_of, with_last, with_record, place_of};
ghost use Rattle.source_log.specs.declared.memory.PartitionLog.{PartitionLog};

use crate::{Partitions, ReadError, RecordList, Records, SourceLog};
use byte_fields::Bytes;
use source_checkpoint::Partition;
use std::alloc::{AllocError, Global};
use std::cmp::Ordering;
use std::marker::Model;

/// A partition with its records.
#[derive(Drop)]
pub struct PartitionLog {
    pub partition: Partition,
    pub records: RecordList,
}

// Where a partition stands, or the place where it would.
fn place_of(parts: &[PartitionLog], partition: &Partition) -> Result<usize, usize>
    ensures { result ≡ place_of partition.now parts.now }
{
    for (i, part) in parts.iter().enumerate() {
        match partition.compare(&part.partition) {
            Ordering::Less => return Err(i),
            Ordering::Equal => return Ok(i),
            Ordering::Greater => {}
        }
    }
    Err(parts.len())
}

fn names_of(alloc: Global, parts: &[PartitionLog]) -> Result<Partitions, AllocError>
    ensures { IfOk result (λ names. names ≡ names_of parts.now) }
{
    let mut names = Partitions::vacant(alloc);
    for part in parts {
        names.push(part.partition.copy())?;
    }
    Ok(names)
}

// A copy of these records.
fn copied(alloc: Global, records: &[Bytes]) -> Result<RecordList, AllocError>
    ensures { IfOk result (λ list. list ≡ records.now) }
{
    let mut list = RecordList::vacant(alloc);
    for bytes in records {
        list.push(Bytes::from_slice(alloc, bytes.as_slice())?)?;
    }
    Ok(list)
}

fn slice_of(alloc: Global, records: &[Bytes], from: u64, max: u32) -> Result<Records, AllocError>
    ensures slice { IfOk result (λ records'. IsSliceOf records.now from max records') }
    ensures bound { IfOk result (λ records'. length records'.list ≤ max) }
    ensures places { IfOk result (λ records'. from + length records'.list < 2 ^ 64) }
{
    let len = records.len() as u64;
    if from >= len {
        return Ok(Records {
            list: RecordList::vacant(alloc),
            end: true,
        });
    }
    let count = (len - from).min(u64::from(max));
    let until = from + count;
    Ok(Records {
        list: copied(alloc, &records[from as usize..until as usize])?,
        end: until == len,
    })
}

// Appends a record to the partition at a place.
fn add_last(parts: &mut Vec<PartitionLog>, place: usize, bytes: Bytes) -> Result<(), AllocError>
    requires { place < vec_len parts.old }
    ensures ok { OnOk result ((d : PartitionLog) → parts.new.items ≡ slice_set parts.old.items place (with_last (slice_index_or parts.old.items place d) bytes)) }
    ensures room { OnOk result ((d : PartitionLog) → length (slice_index_or parts.old.items place d).records + 1 < 2 ^ 64) }
    ensures err { OnErr result (parts.new.items ≡ parts.old.items) }
{
    parts[place].records.push(bytes)?;
    Ok(())
}

// A partition that has one record.
fn new_part(alloc: Global, partition: &Partition, bytes: Bytes) -> Result<PartitionLog, AllocError>
    ensures part { IfOk result (λ part. part ≡ part_of partition.now (bytes ∷ [])) }
{
    let mut records = RecordList::vacant(alloc);
    records.push(bytes)?;
    Ok(PartitionLog {
        partition: partition.copy(),
        records,
    })
}

// Appends a record to its partition, which is put in its place where it is new. An `Err` changes nothing.
fn add_record(
    alloc: Global,
    parts: &mut Vec<PartitionLog>,
    partition: &Partition,
    bytes: Bytes,
) -> Result<(), AllocError>
    ensures ok { OnOk result (parts.new.items ≡ with_record parts.old.items partition.now bytes) }
    ensures room { OnOk result (IsLog parts.old.items → length (records_of parts.old.items partition.now) + 1 < 2 ^ 64) }
    ensures named { IsPartition partition.now }
    ensures err { OnErr result (parts.new.items ≡ parts.old.items) }
{
    let _name = partition.as_bytes();
    match place_of(parts, partition) {
        Ok(place) => {
            add_last(parts, place, bytes)?;
            Ok(())
        }
        Err(place) => {
            let part = new_part(alloc, partition, bytes)?;
            parts.insert(place, part)?;
            Ok(())
        }
    }
}

/// A log in memory. Its calls never fail.
#[derive(Drop)]
pub struct MemoryLog {
    pub(crate) parts: Vec<PartitionLog>,
}

impl Model for MemoryLog {
    ghost use Rattle.source_log.specs.Log.{Log, IsLog};

    ghost Value = { Log };

    ghost view = { λ log. log.parts.items };

    ghost invariant = { λ log. IsLog log.parts.items };
}

impl MemoryLog {
    /// A log without a partition.
    pub fn vacant(alloc: Global) -> MemoryLog
        ensures { result ≡ [] }
    {
        MemoryLog {
            parts: Vec::new(alloc),
        }
    }

    /// Appends a record to its partition, which is new where the log does not have it. An `Err` changes nothing.
    pub fn push(
        &mut self,
        alloc: Global,
        partition: &Partition,
        bytes: &[u8],
    ) -> Result<(), AllocError>
        ensures ok { OnOk result (self.new ≡ with_record self.old partition.now bytes.now) }
        ensures this { OnOk result (records_of self.new partition.now ≡ records_of self.old partition.now ++ bytes.now ∷ []) }
        ensures others { OnOk result ((name : List ℕ) → name ≢ partition.now → records_of self.new name ≡ records_of self.old name) }
        ensures err { OnErr result (self.new ≡ self.old) }
    {
        let held = Bytes::from_slice(alloc, bytes)?;
        add_record(alloc, &mut self.parts, partition, held)
    }

    fn names(&self, alloc: Global) -> Result<Partitions, AllocError>
        ensures names { IfOk result (λ names. names ≡ names_of self.now) }
        ensures sound { IsLog self.now }
    {
        names_of(alloc, &self.parts)
    }

    fn slice(
        &self,
        alloc: Global,
        partition: &Partition,
        from: u64,
        max: u32,
    ) -> Result<Records, AllocError>
        ensures slice { IfOk result (λ records. IsSliceOf (records_of self.now partition.now) from max records) }
        ensures bound { IfOk result (λ records. length records.list ≤ max) }
        ensures places { IfOk result (λ records. from + length records.list < 2 ^ 64) }
        ensures sound { IsLog self.now }
    {
        match place_of(&self.parts, partition) {
            Ok(place) => slice_of(alloc, self.parts[place].records.as_slice(), from, max),
            Err(_) => slice_of(alloc, &[], from, max),
        }
    }
}

impl SourceLog for MemoryLog {
    ghost use Rattle.std.proofs.Common.{◌∙◌};

    ghost told = { λ log. Some log };

    ghost fault_count = { λ _. 0 };

    ghost since = { λ first now. now ≡ first };

    fn partitions(&mut self, alloc: Global) -> Result<Partitions, ReadError> {
        match self.names(alloc) {
            Ok(names) => Ok(names),
            Err(refused) => Err(ReadError::Memory(refused)),
        }
    }

    fn read(
        &mut self,
        alloc: Global,
        partition: &Partition,
        from: u64,
        max: u32,
    ) -> Result<Records, ReadError> {
        match self.slice(alloc, partition, from, max) {
            Ok(records) => Ok(records),
            Err(refused) => Err(ReadError::Memory(refused)),
        }
    }

    fn faults(&self) -> u64 {
        let _parts = &self.parts;
        0
    }

    ghost since_itself = { λ log i. log };

    ghost since_then = { λ first second third a b. b ∙ a };
}
