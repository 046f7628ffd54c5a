//! The outside as it is: folders of objects and of logs, the system's clock, and the standard streams.
//!
//! Each counts its failures, and keeps why it failed first.
#![tactic(auto)]

mod disk;
mod dying_disk;
mod faults;
mod file_log;
mod folder_names;
mod folder_path;
mod folder_read;
mod folder_store;
mod folder_walk;
mod growing_files;
mod host_disk;
mod host_files;
mod laws;
mod leftovers;
mod log_lines;
mod marks;
mod memory_disk;
mod memory_file;
mod object_calls;
mod object_making;
mod object_names;
mod object_reading;
mod shelf;
mod shelf_files;
mod streams;
mod system_clock;
mod waiting;
mod writer_lock;

pub use disk::{Disk, DiskError, MakeError, Stamp, Standing};
pub use dying_disk::DyingDisk;
pub use faults::{Reason, Trouble};
pub use file_log::FileLog;
pub use folder_store::FolderStore;
pub use growing_files::GrowingFiles;
pub use host_disk::HostDisk;
pub use host_files::HostFiles;
pub use laws::records_stay;
pub use memory_disk::MemoryDisk;
pub use memory_file::MemoryFile;
pub use streams::{StdSink, StdSource};
pub use system_clock::SystemClock;
pub use writer_lock::WriterLock;
