//! A log of files that grow.

ghost use Rattle.std.specs.Prelude.{◌≡◌, ◌≤◌, ◌<◌, ◌+◌, ◌^◌, ℕ, List, [], Option, Some, None, true, min, length, Contains, IfOk, IfSome, IsErrOf};
ghost use Rattle.byte_fields.specs.Causes.{HasCause};
ghost use Rattle.source_log.specs.Log.{WhereLogTold, IsToldLog, GivesNames, ReadsSlice, IsSliceOf};
ghost use Rattle.source_log.specs.declared.log.ReadError.TheVariants.{Failed};
ghost use Rattle.real_edge.specs.Growing.{Grown, bytes_of, names_of, log_in};
ghost use Rattle.real_edge.specs.Lines.{records_in};
ghost use Rattle.real_edge.specs.Marks.{AreMarks};

use crate::faults::{Faults, Reason, Trouble};
use crate::folder_path::FolderPath;
use crate::growing_files::GrowingFiles;
use crate::host_files::HostFiles;
use crate::log_lines::read_records;
use crate::marks::Marks;
use source_checkpoint::Partition;
use source_log::{Partitions, ReadError, RecordList, Records, SourceLog};
use std::alloc::{AllocError, Global};
use std::fs::Files;
use std::mem;

/// What failed of a partition.
#[derive(Drop)]
struct Failing {
    partition: Partition,
    /// Whether the last read of it failed.
    has_failed: bool,
    /// Whether it was told that its file can't be opened, which it couldn't since.
    is_told: bool,
}

/// Each file is a partition, and each line of it a record, without its line feed. A last line without a line feed is no record yet,
/// and what is not on the disk is none either: what a crash takes was never given.
///
/// Of a line of more than 1,048,576 bytes the first 1,048,577 are its record. A file that ends before the record that is asked for
/// is a failure. Where the files let one be passed over, the read of a partition behind one that failed gives nothing and is the end,
/// so that others have their turn; the one behind that reads. And the partitions fail once where the file of one can't be looked at
/// or opened, the first by its name; behind that they are given without it, until it can be opened again.
#[derive(Drop)]
pub struct FileLog<G: GrowingFiles> {
    files: G,
    marks: Marks,
    ghost places: { (grown : List Grown) → G.told files ≡ Some grown → AreMarks grown marks },
    failing: Vec<Failing>,
    faults: Faults,
}

impl<'a, F: Files> FileLog<HostFiles<'a, F>> {
    /// The partitions of a folder of the system. Nothing is opened yet.
    pub fn over(
        alloc: Global,
        files: &'a F,
        folder: &str,
    ) -> Result<FileLog<HostFiles<'a, F>>, AllocError> {
        Ok(FileLog {
            files: HostFiles::over(alloc, files, folder)?,
            marks: Marks::vacant(alloc),
            failing: Vec::new(alloc),
            faults: Faults::with_room(alloc, FolderPath::room(folder))?,
        })
    }
}

impl<G: GrowingFiles> FileLog<G> {
    /// The partitions of these files. Nothing is asked of them yet.
    pub fn of(alloc: Global, files: G) -> Result<FileLog<G>, AllocError>
        ensures { IfOk result (λ log. log.files ≡ files) }
    {
        let faults = Faults::with_room(alloc, files.room())?;
        Ok(FileLog {
            files,
            marks: Marks::vacant(alloc),
            failing: Vec::new(alloc),
            faults,
        })
    }

    /// Why it failed first, if it did.
    pub fn first_reason(&self) -> Option<&Reason> {
        self.faults.first()
    }

    fn failed(&mut self, trouble: Trouble) -> ReadError
        ensures later { self.old.faults.count ≤ self.new.faults.count }
        ensures cause { HasCause self.old.faults.count self.new.faults.count (result ≡ Failed) }
        ensures files { self.new.files ≡ self.old.files }
    {
        if trouble.is_memory() {
            return ReadError::Memory(AllocError);
        }
        self.faults.add(self.files.path(), trouble);
        ReadError::Failed
    }
}

// What failed of a partition, from now on if nothing did.
fn place_of(failing: &mut Vec<Failing>, partition: &Partition) -> Result<usize, AllocError> {
    if let Some(at) = failing.iter().position(|one| one.partition.is(partition)) {
        return Ok(at);
    }
    let at = failing.len();
    failing.push(Failing {
        partition: *partition,
        has_failed: false,
        is_told: false,
    })?;
    Ok(at)
}

// The next read of a partition passes over it. Without memory it doesn't.
fn keep_failure(failing: &mut Vec<Failing>, partition: &Partition) {
    if let Ok(at) = place_of(failing, partition) {
        if let Some(one) = failing.get_mut(at) {
            one.has_failed = true;
        }
    }
}

// Whether the last read of a partition failed. The next one is in earnest again.
fn is_passed_over(failing: &mut [Failing], partition: &Partition) -> bool {
    match failing.iter_mut().find(|one| one.partition.is(partition)) {
        Some(one) => mem::replace(&mut one.has_failed, false),
        None => false,
    }
}

// It is told that a partition's file can't be opened. Whether it wasn't told before.
fn tell(failing: &mut Vec<Failing>, partition: &Partition) -> Result<bool, AllocError> {
    let at = place_of(failing, partition)?;
    match failing.get_mut(at) {
        Some(one) => Ok(!mem::replace(&mut one.is_told, true)),
        None => Ok(true),
    }
}

// What is told of a partition's file is over.
fn take_back(failing: &mut [Failing], partition: &Partition) {
    if let Some(one) = failing.iter_mut().find(|one| one.partition.is(partition)) {
        one.is_told = false;
    }
}

// Whether a partition is given. Where its file can't be opened, that is a failure, unless it was told before and may be passed over.
fn is_given<G: GrowingFiles>(
    files: &mut G,
    alloc: Global,
    failing: &mut Vec<Failing>,
    partition: &Partition,
) -> Result<bool, Trouble>
    ensures same { G.told files.new ≡ G.told files.old }
    ensures given { IfOk result (λ given. IfSome (G.told files.old) (λ told. Contains (names_of told) partition.now → given ≡ true)) }
{
    let trouble = match files.can_open(alloc, partition) {
        Ok(is_file) => {
            take_back(failing.as_mut_slice(), partition);
            return Ok(is_file);
        }
        Err(trouble) => trouble,
    };
    if trouble.is_memory() || tell(failing, partition)? || !files.may_pass_over() {
        return Err(trouble);
    }
    Ok(false)
}

// Those of some names that are given.
fn given_of<G: GrowingFiles>(
    files: &mut G,
    alloc: Global,
    failing: &mut Vec<Failing>,
    names: &[Partition],
) -> Result<Partitions, Trouble>
    requires { IfSome (G.told files.old) (λ told. names.now ≡ names_of told) }
    ensures same { G.told files.new ≡ G.told files.old }
    ensures given { IfOk result (λ given. IfSome (G.told files.old) (λ told. given ≡ names.now)) }
{
    let mut given = Partitions::vacant(alloc);
    for partition in names {
        if is_given(files, alloc, failing, partition)? {
            given.push(*partition)?;
        }
    }
    Ok(given)
}

// The partitions that are given, rising.
fn partitions_of<G: GrowingFiles>(
    files: &mut G,
    alloc: Global,
    failing: &mut Vec<Failing>,
) -> Result<Partitions, Trouble>
    ensures same { G.told files.new ≡ G.told files.old }
    ensures names { IfOk result (λ names. IfSome (G.told files.old) (λ told. names ≡ names_of told)) }
{
    let names = files.names(alloc)?;
    given_of(files, alloc, failing, names.as_slice())
}

// No records, and no more to come.
fn nothing(alloc: Global) -> Records
    ensures list { result.list ≡ [] }
    ensures end { result.end ≡ true }
{
    Records {
        list: RecordList::vacant(alloc),
        end: true,
    }
}

impl<G: GrowingFiles> FileLog<G> {
    // The records of a partition's file, if there is one.
    fn records(
        &mut self,
        alloc: Global,
        partition: &Partition,
        from: u64,
        most: u64,
    ) -> Result<Records, Trouble>
        ensures same { G.told self.new.files ≡ G.told self.old.files }
        ensures slice { IfOk result (λ records. IfSome (G.told self.old.files) (λ told. IsSliceOf (records_in (bytes_of told partition.now)) from most records)) }
        ensures few { IfOk result (λ records. length records.list ≤ most) }
        ensures faults { self.new.faults ≡ self.old.faults }
    {
        let Some(size) = self.files.settle(alloc, partition)? else {
            return Ok(nothing(alloc));
        };
        let start = self.marks.before(partition, from);
        let (records, behind) = read_records(
            &mut self.files,
            alloc,
            partition,
            size,
            start,
            from,
            most,
        )?;
        self.marks.keep(alloc, partition, behind);
        Ok(records)
    }

    // A read of a partition failed: no place of it is known any more, and its next read passes over it.
    fn keep_failure(&mut self, partition: &Partition)
        ensures files { self.new.files ≡ self.old.files }
        ensures faults { self.new.faults ≡ self.old.faults }
    {
        self.marks.forget(partition);
        keep_failure(&mut self.failing, partition);
    }

    // Whether a partition is passed over for once.
    fn is_passed_over(&mut self, partition: &Partition) -> bool
        ensures files { self.new.files ≡ self.old.files }
        ensures faults { self.new.faults ≡ self.old.faults }
        ensures silent { result ≡ true → G.told self.old.files ≡ None }
    {
        is_passed_over(self.failing.as_mut_slice(), partition) && self.files.may_pass_over()
    }
}

impl<G: GrowingFiles> SourceLog for FileLog<G> {
    ghost use Rattle.std.specs.Prelude.{◌≡◌, ◌≤◌};
    ghost use Rattle.std.proofs.Common.{◌∙◌};
    ghost use Rattle.std.proofs.Math.Nat.{le_refl, le_trans};
    ghost use Rattle.real_edge.specs.Growing.{log_in};

    ghost told = { λ log. log_in (G.told log.files) };

    ghost fault_count = { λ log. log.faults.count };

    ghost since = { λ first now. (G.told now.files ≡ G.told first.files) × (first.faults.count ≤ now.faults.count) };

    fn partitions(&mut self, alloc: Global) -> Result<Partitions, ReadError> {
        match partitions_of(&mut self.files, alloc, &mut self.failing) {
            Ok(names) => Ok(names),
            Err(trouble) => Err(self.failed(trouble)),
        }
    }

    fn read(
        &mut self,
        alloc: Global,
        partition: &Partition,
        from: u64,
        max: u32,
    ) -> Result<Records, ReadError> {
        if self.is_passed_over(partition) {
            return Ok(nothing(alloc));
        }
        let most = u64::from(max).min(u64::MAX - from);
        match self.records(alloc, partition, from, most) {
            Ok(records) => Ok(records),
            Err(trouble) => {
                if !trouble.is_memory() {
                    self.keep_failure(partition);
                }
                Err(self.failed(trouble))
            }
        }
    }

    fn faults(&self) -> u64 {
        self.faults.count
    }

    ghost since_itself = { λ log. (λ i. G.told log.files, le_refl log.faults.count) };

    ghost since_then = { λ first second third a b. (b.0 ∙ a.0, le_trans a.1 b.1) };
}
