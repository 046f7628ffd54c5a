//! What a log asks of the files that have its records.

ghost use Rattle.std.specs.Prelude.{◌≡◌, ◌≤◌, List, [], ℕ, Option, None, true, length, take, drop, Contains, IfOk, IfSome, MatchOption};
ghost use Rattle.real_edge.specs.Growing.{Grown, AreGrown, Grow, bytes_of, names_of};

use crate::faults::Trouble;
use byte_fields::Bytes;
use source_checkpoint::Partition;
use source_log::Partitions;
use std::alloc::Global;

/// Files that another program appends to, each under the name of a partition. It tells what of them is on the disk, and only where
/// nobody appends meanwhile, so that each call leaves what it tells.
///
/// What it asks of whoever appends: nothing that stands in a file is ever changed or taken away, and no file is taken out or put in
/// the place of another. Nothing more: a crash may take what was appended and not synced, also a part of a line that ended, so no
/// byte counts that was not put on the disk (`settle`).
pub trait GrowingFiles: Drop {
    /// The files as they are on the disk, where it tells.
    ghost told: { Self → Option (List Grown) };

    /// The files that a crash at this moment may leave.
    ghost may_leave: { Self → List Grown → Type 0 };

    /// The names of the partitions, rising. One that doesn't tell may give others, which have no files.
    fn names(&mut self, alloc: Global) -> Result<Partitions, Trouble>
        ensures same { told self.new ≡ told self.old }
        ensures names { IfOk result (λ names. IfSome (told self.old) (λ files. names ≡ names_of files)) };

    /// Whether a partition has a file, which can be opened.
    fn can_open(&mut self, alloc: Global, partition: &Partition) -> Result<bool, Trouble>
        ensures same { told self.new ≡ told self.old }
        ensures opens { IfOk result (λ can. IfSome (told self.old) (λ files. Contains (names_of files) partition.now → can ≡ true)) };

    /// Puts what a partition's file has on the disk, and tells how many bytes these are. None where it has no file.
    fn settle(&mut self, alloc: Global, partition: &Partition) -> Result<Option<u64>, Trouble>
        ensures same { told self.new ≡ told self.old }
        ensures size { IfOk result (λ size. IfSome (told self.old) (λ files. MatchOption size (bytes_of files partition.now ≡ []) (λ size. size ≡ length (bytes_of files partition.now)))) };

    /// The bytes of a partition's file from a place on, as many as there are up to a number.
    fn read(
        &mut self,
        alloc: Global,
        partition: &Partition,
        from: u64,
        len: u64,
    ) -> Result<Bytes, Trouble>
        ensures same { told self.new ≡ told self.old }
        ensures bytes { IfOk result (λ bytes. IfSome (told self.old) (λ files. bytes ≡ take len (drop from (bytes_of files partition.now)))) }
        ensures bound { IfOk result (λ bytes. length bytes ≤ len) };

    /// Whether a file that fails may be passed over for once, so that the others have their turn. Where it tells, none may.
    fn may_pass_over(&self) -> bool
        ensures { result ≡ true → told self.now ≡ None };

    /// The path that was gone to last, for whoever reads why a call failed.
    fn path(&self) -> &str;

    /// How many bytes a path has at most.
    fn room(&self) -> usize;

    /// What it tells are files of partitions.
    ghost sound: { (f : Self) → IfSome (told f) AreGrown };

    /// A crash leaves each file with what is told of it, and maybe more behind that.
    ghost stays: { (f : Self) (c : List Grown) → may_leave f c → IfSome (told f) (λ files. Grow files c) };
}
