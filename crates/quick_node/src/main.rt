//! Poltyqen: a search engine over a folder of objects and a folder of logs. The program's first word names the folder of the
//! objects, the second that of the logs, and the words behind them the command. The word `memory` in the place of a folder
//! stands for one that is empty, and kept in memory as long as the program runs.
#![tactic(auto)]

pub mod after_crash;
mod creating;
mod error_line;
pub mod laws;
mod reasons;
mod reporting;
mod running;
mod saying;
mod serving;
mod writing;

use crate::error_line::NO_MEMORY;
use crate::reasons::{Reasoned, tell_logs, tell_reason, tell_status};
use crate::serving::serve_with_logs;
use command_words::{Command, read_words};
use object_store::{ObjectStore, SteadyStore};
use real_edge::{FileLog, FolderStore, HostDisk, HostFiles, StdSink, StdSource, SystemClock};
use run_progress::{CountedStore, EndingSink, Kind, Progress, ProgressClock, count_logs};
use source_log::{MemoryLog, SourceLog};
use std::alloc::{AllocError, Global};
use std::fs::Files;
use std::process::ExitCode;
use std::rt::Env;
use std::sync::Wait;
use std::thread::Threads;
use std::time::{self, SystemTime, UNIX_EPOCH};
use std::{env, io};

const MEMORY: &str = "memory";

/// So many readers of the logs there are, each an indexer of `drive`.
const READERS: u32 = 64;

fn words_of<Rt: Env + Alloc<A = Global>>(rt: &Rt) -> io::Result<Vec<String>> {
    let mut words = Vec::new(rt.alloc());
    for word in env::args(rt)?.skip(1) {
        words.push(word)?;
    }
    Ok(words)
}

// A number for the files beside the objects, by the moment at which the program began: two programs that write at once have
// their own.
fn writer_number<C: time::Clock>(clock: &C) -> u64 {
    let Ok(now) = SystemTime::now(clock) else {
        return 0;
    };
    match now.duration_since(UNIX_EPOCH) {
        Ok(since) => since
            .as_secs()
            .wrapping_mul(1_000_000_000)
            .wrapping_add(u64::from(since.subsec_nanos())),
        Err(_) => 0,
    }
}

fn memory_logs(alloc: Global) -> Result<Vec<MemoryLog>, AllocError> {
    let mut logs = Vec::new(alloc);
    for _ in 0..READERS {
        logs.push(MemoryLog::vacant(alloc))?;
    }
    Ok(logs)
}

fn folder_logs<'a, F: Files>(
    alloc: Global,
    files: &'a F,
    folder: &str,
) -> Result<Vec<FileLog<HostFiles<'a, F>>>, AllocError> {
    let mut logs = Vec::new(alloc);
    for _ in 0..READERS {
        logs.push(FileLog::over(alloc, files, folder)?)?;
    }
    Ok(logs)
}

// Does the command over the standard streams, says on standard error what failed, and gives the status. The system is the
// runtime itself: what is sent to a thread may hold it, and the runtime's leave to start threads is its own.
fn status_over<
    Rt: Threads + Wait + Sync + Input + Print,
    S: ObjectStore + Reasoned + Send + Drop,
    L: SourceLog + Reasoned + Send,
>(rt: &Rt, system: &HostRuntime, kind: Kind, words: &[String], store: S, logs: Vec<L>) -> u8 {
    let alloc = system.alloc();
    let progress = Progress::begin(system, kind, None);
    let Ok(logs) = count_logs(alloc, logs, &progress) else {
        return NO_MEMORY;
    };
    let mut input = StdSource::over(rt.reader());
    let mut output = EndingSink::over(StdSink::over(io::writer(rt)), &progress);
    let (finished, logs) = serve_with_logs(
        rt,
        alloc,
        words,
        CountedStore::over(store, &progress),
        logs,
        ProgressClock::over(SystemClock::over(system), &progress),
        &progress,
        &mut input,
        &mut output,
    );
    progress.finish();
    let has_told = tell_reason(system, finished.store.first_reason())
        | tell_logs(system, logs)
        | tell_reason(system, input.first_reason())
        | tell_reason(system, output.sink().first_reason());
    if !has_told {
        tell_status(system, finished.status);
    }
    finished.status
}

// How the progress of a command is shown: of a run, as standard error is.
fn kind_of(system: &HostRuntime, words: &[String]) -> Result<Kind, AllocError> {
    match read_words(system.alloc(), words)? {
        Some(Command::Run(asked)) => Ok(Kind::at(&mut system.stderr(), asked.progress)),
        Some(Command::Create | Command::Drive | Command::Splits | Command::Describe) => {
            Ok(Kind::Quiet)
        }
        None => Ok(Kind::Quiet),
    }
}

// The logs that a word names, and the command.
fn status_with<Rt: Threads + Wait + Sync + Input + Print, S: ObjectStore + Reasoned + Send + Drop>(
    rt: &Rt,
    system: &HostRuntime,
    kind: Kind,
    log: &str,
    words: &[String],
    store: S,
) -> Result<u8, AllocError> {
    let alloc = system.alloc();
    if log == MEMORY {
        let logs = memory_logs(alloc)?;
        return Ok(status_over(rt, system, kind, words, store, logs));
    }
    let logs = folder_logs(alloc, system, log)?;
    Ok(status_over(rt, system, kind, words, store, logs))
}

// Whether the words name a command that writes objects.
fn is_writing(alloc: Global, words: &[String]) -> Result<bool, AllocError> {
    match read_words(alloc, words)? {
        Some(Command::Create | Command::Drive | Command::Run(_)) => Ok(true),
        Some(Command::Splits | Command::Describe) => Ok(false),
        None => Ok(false),
    }
}

// The objects of a folder, for the command that the words name.
fn folder_store<'a>(
    system: &'a HostRuntime,
    folder: &str,
    words: &[String],
) -> Result<FolderStore<HostDisk<'a, HostRuntime>>, AllocError> {
    let alloc = system.alloc();
    if is_writing(alloc, words)? {
        FolderStore::writing(alloc, system, folder, writer_number(system))
    } else {
        FolderStore::reading(alloc, system, folder)
    }
}

// With fewer than two words there is no command: that is answered over nothing.
fn status_of<Rt: Threads + Wait + Sync + Input + Print>(
    rt: &Rt,
    system: &HostRuntime,
    words: &[String],
) -> Result<u8, AllocError> {
    let alloc = system.alloc();
    let [store, log, command @ ..] = words else {
        let logs = memory_logs(alloc)?;
        let store = SteadyStore::vacant(alloc);
        return Ok(status_over(rt, system, Kind::Quiet, &[], store, logs));
    };
    // Standard error is asked before a file is opened.
    let kind = kind_of(system, command)?;
    if store.as_str() == MEMORY {
        let store = SteadyStore::vacant(alloc);
        return status_with(rt, system, kind, log.as_str(), command, store);
    }
    let store = folder_store(system, store.as_str(), command)?;
    status_with(rt, system, kind, log.as_str(), command, store)
}

fn main(rt: HostRuntime) -> ExitCode {
    // Words that are no text name no command.
    let words = match words_of(&rt) {
        Ok(words) => words,
        Err(fault) if fault.kind() == io::ErrorKind::OutOfMemory => {
            return ExitCode::from(NO_MEMORY);
        }
        Err(_) => Vec::new(rt.alloc()),
    };
    match status_of(&rt, &rt, words.as_slice()) {
        Ok(status) => ExitCode::from(status),
        Err(_) => ExitCode::from(NO_MEMORY),
    }
}

#[cfg(test)]
mod collector_rows;
#[cfg(test)]
mod delete_rows;
#[cfg(test)]
mod deleter_races;
#[cfg(test)]
mod deleter_rows;
#[cfg(test)]
mod merger_rows;
#[cfg(test)]
mod report_rows;
#[cfg(test)]
mod run_rows;
#[cfg(test)]
mod script;
#[cfg(test)]
mod search_rows;
#[cfg(test)]
mod tests;
