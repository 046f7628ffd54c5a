//! A table of faults: for each call of a whole life of an index, and for each way in which it may fail, one life.

ghost use Rattle.std.specs.Prelude.{◌≤◌};

use crate::trial::{Fate, OBJECTS, Trial};
use edge_ground::{Left, Manner, Place, Wrong};
use std::alloc::{AllocError, Global};
use std::io;
use std::thread::Threads;

/// A row: a call goes so in each life.
#[derive(Clone, Copy)]
struct Row {
    name: &'static str,
    fate: Fate,
}

const ROWS: [Row; 8] = [
    Row {
        name: "fails undone",
        fate: Fate {
            manner: Manner::Undone,
            then: None,
        },
    },
    Row {
        name: "fails undone, and the power goes at the end",
        fate: Fate {
            manner: Manner::Undone,
            then: Some(Left::SyncedNames),
        },
    },
    Row {
        name: "fails when done",
        fate: Fate {
            manner: Manner::Done,
            then: None,
        },
    },
    Row {
        name: "fails when done, and the power goes at the end",
        fate: Fate {
            manner: Manner::Done,
            then: Some(Left::SyncedNames),
        },
    },
    Row {
        name: "is short",
        fate: Fate {
            manner: Manner::Short,
            then: None,
        },
    },
    Row {
        name: "fails with all behind it",
        fate: Fate {
            manner: Manner::Stops,
            then: None,
        },
    },
    Row {
        name: "finds no power, and names not synced are lost",
        fate: Fate {
            manner: Manner::Stops,
            then: Some(Left::SyncedNames),
        },
    },
    Row {
        name: "finds no power, and no name is lost",
        fate: Fate {
            manner: Manner::Stops,
            then: Some(Left::AllNames),
        },
    },
];

/// The entries that a listing lacks, one in each row.
const OVERLOOKED: [&str; 2] = ["00000000000000000000", "00000000000000000003"];

/// The places of the objects, each with what its rows begin with.
const PLACES: [(Place, &str); 2] = [(Place::Folder, ""), (Place::Disk, "on a disk of objects, ")];

// One life with a fault, and a clean session behind it. Whether a call went so.
fn strike<Rt: Threads + Sync>(
    rt: &Rt,
    alloc: Global,
    place: Place,
    fate: Fate,
    call: u64,
) -> Result<bool, Wrong> {
    let mut trial = Trial::of(alloc, place)?;
    trial.strike(rt, fate, call)
}

fn sound_calls<Rt: Threads + Sync>(rt: &Rt, alloc: Global, place: Place) -> Result<u64, Wrong> {
    let mut trial = Trial::of(alloc, place)?;
    trial.sound_calls(rt)
}

fn append<Rt: Threads + Sync>(
    rt: &Rt,
    alloc: Global,
    place: Place,
    writers: [u64; 2],
) -> Result<(), Wrong> {
    let mut trial = Trial::of(alloc, place)?;
    trial.append(rt, writers)
}

fn overlook<Rt: Threads + Sync>(
    rt: &Rt,
    alloc: Global,
    place: Place,
    name: &str,
) -> Result<(), Wrong> {
    let mut trial = Trial::of(alloc, place)?;
    trial.overlook(rt, name)
}

// How many lives of a row went as it says, at least: each that has such a call, and of a row of short calls, where each is tried,
// those in which an object is written.
fn least_lives(fate: Fate, calls: u64, every: u64) -> u64
    requires { 1 ≤ every }
{
    if !fate.is_quiet() {
        calls / every
    } else if every == 1 {
        OBJECTS
    } else {
        0
    }
}

// The lives of a row, one for each call. What is told of them.
fn row_of<Rt: Threads + Sync>(
    rt: &Rt,
    alloc: Global,
    place: Place,
    fate: Fate,
    calls: u64,
    every: u64,
) -> Result<String, AllocError>
    requires { 1 ≤ every }
{
    let mut lives: u64 = 0;
    for call in 1..=calls {
        if call % every != 0 {
            continue;
        }
        match strike(rt, alloc, place, fate, call) {
            Ok(true) => lives = lives.saturating_add(1),
            Ok(false) => {}
            Err(wrong) => {
                let text = wrong.text(alloc)?;
                return format!(in alloc; "at call {call} {text}");
            }
        }
    }
    told_of(alloc, lives, least_lives(fate, calls, every))
}

// What is told of a row in which so many lives went as it says.
fn told_of(alloc: Global, lives: u64, least: u64) -> Result<String, AllocError> {
    if lives < least {
        return format!(in alloc; "no more than {lives} lives of {least}");
    }
    String::from_str(alloc, "each record once")
}

// What is told of a life that is to end well.
fn told(alloc: Global, ended: Result<(), Wrong>, well: &str) -> Result<String, AllocError> {
    match ended {
        Ok(()) => String::from_str(alloc, well),
        Err(wrong) => wrong.text(alloc),
    }
}

// The rows over one place, behind a sound life of so many calls.
fn play_rows<Rt: Threads + Sync + Print>(
    rt: &Rt,
    alloc: Global,
    place: Place,
    front: &str,
    calls: u64,
    every: u64,
) -> io::Result<()>
    requires { 1 ≤ every }
{
    for row in ROWS.iter() {
        if row.fate.is_quiet() && !place.has_short_calls() {
            continue;
        }
        let text = row_of(rt, alloc, place, row.fate, calls, every)?;
        println!(rt; "{front}each call {}: {text}", row.name)?;
    }
    let text = told(alloc, append(rt, alloc, place, [1, 2]), "each record once")?;
    println!(rt; "{front}no file can be removed: {text}")?;
    let text = told(alloc, append(rt, alloc, place, [3, 3]), "each record once")?;
    println!(rt; "{front}no file can be removed, and the writers have one number: {text}")?;
    for name in OVERLOOKED {
        let read = overlook(rt, alloc, place, name);
        let text = told(alloc, read, "a reader finds the index")?;
        println!(rt; "{front}a listing lacks entry {name}: {text}")?;
    }
    Ok(())
}

fn play_place<Rt: Threads + Sync + Print>(
    rt: &Rt,
    alloc: Global,
    place: Place,
    front: &str,
    every: u64,
) -> io::Result<()>
    requires { 1 ≤ every }
{
    match sound_calls(rt, alloc, place) {
        Ok(calls) => {
            println!(rt; "{front}a sound life: each record once")?;
            play_rows(rt, alloc, place, front, calls, every)
        }
        Err(wrong) => {
            let text = wrong.text(alloc)?;
            println!(rt; "{front}a sound life: {text}")
        }
    }
}

/// Plays the whole table, over each place, and prints a line for each row: that each record was found once, or the first life that is
/// not so.
pub fn play_table<Rt: Threads + Sync + Print>(rt: &Rt, alloc: Global, every: u64) -> io::Result<()>
    requires { 1 ≤ every }
{
    for (place, front) in PLACES {
        play_place(rt, alloc, place, front, every)?;
    }
    Ok(())
}
