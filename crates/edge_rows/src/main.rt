//! Rows of folders: what is done to a folder of objects and to a folder of logs, a line each, and what comes of it. The
//! program's word is the number of its files beside, 0 without one, or `reading`, with which it only reads the objects. The
//! line `faults` plays a table of faults over a disk in memory.
#![tactic(auto)]

ghost use Rattle.std.specs.Prelude.{◌≤◌};

mod lives;
mod table;
mod trial;

use crate::table::play_table;
use object_store::{CreateError, GetError, Key, ObjectStore};
use real_edge::{FileLog, FolderStore, HostDisk};
use source_checkpoint::Partition;
use source_log::SourceLog;
use std::alloc::{AllocError, Global};
use std::fs::{self, Files};
use std::thread::{self, Threads};
use std::time::{Clock, Duration};
use std::{env, io};

/// So many seconds a folder has stood unchanged before the names that were read of it serve more than one page.
const STILL: u64 = 3;

// The text of an answer: these words, or `-` where there are none.
fn joined(alloc: Global, words: &[String]) -> Result<String, AllocError> {
    let mut text = String::new(alloc);
    for word in words {
        if !text.is_empty() {
            text.push(' ')?;
        }
        text.push_str(word.as_str())?;
    }
    if text.is_empty() {
        text.push('-')?;
    }
    Ok(text)
}

fn number(text: Option<&str>) -> u64 {
    text.unwrap_or("0").parse::<u64>().unwrap_or(0)
}

fn failed(alloc: Global, faults: u64) -> Result<String, AllocError> {
    format!(in alloc; "failed {faults}")
}

fn created<S: ObjectStore>(
    alloc: Global,
    store: &mut S,
    key: &Key,
    text: &str,
) -> Result<String, AllocError> {
    match store.create(alloc, key, text.as_bytes()) {
        Ok(()) => String::from_str(alloc, "ok"),
        Err(CreateError::Exists) => String::from_str(alloc, "exists"),
        Err(CreateError::Memory(refused)) => Err(refused),
        Err(CreateError::Failed) => failed(alloc, store.faults()),
    }
}

fn got<S: ObjectStore>(
    alloc: Global,
    store: &mut S,
    key: &Key,
    from: u64,
    len: u64,
) -> Result<String, AllocError> {
    match store.get(alloc, key, from, len) {
        Ok(piece) => {
            let text = String::from_utf8_lossy(alloc, piece.bytes.as_slice())?;
            let size = piece.size;
            format!(in alloc; "{text} of {size}")
        }
        Err(GetError::Absent) => String::from_str(alloc, "absent"),
        Err(GetError::Memory(refused)) => Err(refused),
        Err(GetError::Failed) => failed(alloc, store.faults()),
    }
}

fn listed<S: ObjectStore>(
    alloc: Global,
    store: &mut S,
    prefix: &Key,
    after: Option<&Key>,
) -> Result<String, AllocError> {
    let Ok(keys) = store.list(alloc, prefix, after, 2) else {
        return failed(alloc, store.faults());
    };
    let mut words = Vec::new(alloc);
    for key in keys.as_slice() {
        words.push(String::from_utf8_lossy(alloc, key.as_bytes())?)?;
    }
    joined(alloc, words.as_slice())
}

// What is asked of a store, by a key and what stands behind it.
fn stored<S: ObjectStore>(
    alloc: Global,
    store: &mut S,
    asked: &str,
    rest: &str,
) -> Result<String, AllocError> {
    let (name, behind) = rest.split_once(' ').unwrap_or((rest, ""));
    let Ok(key) = Key::from_text(name) else {
        return String::from_str(alloc, "no key");
    };
    let mut numbers = behind.split(' ');
    match asked {
        "create" => created(alloc, store, &key, behind),
        "get" => got(
            alloc,
            store,
            &key,
            number(numbers.next()),
            number(numbers.next()),
        ),
        "list" => listed(alloc, store, &key, Key::from_text(behind).ok().as_ref()),
        _ => match store.delete(&key) {
            Ok(()) => String::from_str(alloc, "ok"),
            Err(_) => failed(alloc, store.faults()),
        },
    }
}

fn read<L: SourceLog>(
    alloc: Global,
    log: &mut L,
    partition: &Partition,
    from: u64,
    max: u32,
) -> Result<String, AllocError>
    requires { 1 ≤ max }
{
    let Ok(records) = log.read(alloc, partition, from, max) else {
        return failed(alloc, log.faults());
    };
    let mut words = Vec::new(alloc);
    for record in records.list.as_slice() {
        let text = String::from_utf8_lossy(alloc, record.as_slice())?;
        words.push(format!(in alloc; "[{text}]")?)?;
    }
    words.push(String::from_str(alloc, if records.end { "end" } else { "more" })?)?;
    joined(alloc, words.as_slice())
}

// What is asked of a log.
fn logged<L: SourceLog>(
    alloc: Global,
    log: &mut L,
    asked: &str,
    rest: &str,
) -> Result<String, AllocError> {
    if asked == "partitions" {
        let Ok(names) = log.partitions(alloc) else {
            return failed(alloc, log.faults());
        };
        let mut words = Vec::new(alloc);
        for name in names.as_slice() {
            words.push(format!(in alloc; "{name}")?)?;
        }
        return joined(alloc, words.as_slice());
    }
    let mut words = rest.split(' ');
    let Ok(partition) = Partition::from_text(words.next().unwrap_or("")) else {
        return String::from_str(alloc, "no partition");
    };
    let from = number(words.next());
    let max = number(words.next()).clamp(1, 1000) as u32;
    read(alloc, log, &partition, from, max)
}

// What is done to the folders beside: a folder is made, or a file with a text, in which each `;` stands for a line feed.
fn laid<F: Files>(files: &F, alloc: Global, asked: &str, rest: &str) -> io::Result<String> {
    if asked == "folder" {
        fs::create_dir(files, rest)?;
    } else {
        let (path, text) = rest.split_once(' ').unwrap_or((rest, ""));
        let mut lines = Vec::from_slice(alloc, text.as_bytes())?;
        for byte in lines.iter_mut() {
            if *byte == b';' {
                *byte = b'\n';
            }
        }
        fs::write(files, path, lines.as_slice())?;
    }
    Ok(String::from_str(alloc, "ok")?)
}

// What comes of a line, by its first word and what stands behind it.
fn answer<F: Files, S: ObjectStore, R: ObjectStore, L: SourceLog>(
    files: &F,
    alloc: Global,
    store: &mut S,
    reader: &mut R,
    log: &mut L,
    asked: &str,
    rest: &str,
) -> io::Result<String> {
    match asked {
        "folder" | "file" => laid(files, alloc, asked, rest),
        "partitions" | "read" => Ok(logged(alloc, log, asked, rest)?),
        "page" => Ok(stored(alloc, reader, "list", rest)?),
        _ => Ok(stored(alloc, store, asked, rest)?),
    }
}

fn answer_line<
    Rt: Threads + Sync + Print + Files + Clock,
    S: ObjectStore,
    R: ObjectStore,
    L: SourceLog,
>(
    rt: &Rt,
    alloc: Global,
    store: &mut S,
    reader: &mut R,
    log: &mut L,
    line: &str,
) -> io::Result<()> {
    let (asked, rest) = line.split_once(' ').unwrap_or((line, ""));
    match asked {
        "faults" => play_table(rt, alloc, number(Some(rest)).max(1)),
        "wait" => {
            thread::sleep(rt, Duration::from_secs(STILL));
            Ok(())
        }
        _ => {
            let text = answer(rt, alloc, store, reader, log, asked, rest)?;
            println!(rt; "{text}")?;
            Ok(())
        }
    }
}

// Answers the lines of the standard input. The reader is another store over the same folder.
fn answer_all<
    Rt: Threads + Sync + Input + Print + Files + Clock,
    S: ObjectStore,
    R: ObjectStore,
    L: SourceLog,
>(rt: &Rt, alloc: Global, store: &mut S, reader: &mut R, log: &mut L) -> io::Result<()> {
    for line in rt.lines(alloc) {
        let line = line?;
        answer_line(rt, alloc, store, reader, log, line.as_str())?;
    }
    Ok(())
}

// The objects of a folder, for the word of the program.
fn store_of<'a>(
    rt: &'a HostRuntime,
    word: Option<&str>,
) -> Result<FolderStore<HostDisk<'a, HostRuntime>>, AllocError> {
    match word {
        Some("reading") => FolderStore::reading(rt.alloc(), rt, "store"),
        word => FolderStore::writing(rt.alloc(), rt, "store", number(word)),
    }
}

fn main(rt: HostRuntime) -> io::Result<()> {
    let word = env::args(&rt)?.nth(1);
    let mut log = FileLog::over(rt.alloc(), &rt, "logs")?;
    let mut store = store_of(&rt, word.as_deref())?;
    let mut reader = FolderStore::reading(rt.alloc(), &rt, "store")?;
    answer_all(&rt, rt.alloc(), &mut store, &mut reader, &mut log)
}
