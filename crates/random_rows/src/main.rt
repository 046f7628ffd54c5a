//! Schedules that are drawn from seeds: lines of all actors in any order, over a store of which calls fail and come late, in two
//! lives and a calm one. Each answer to a search is compared with a plain list of the records that the journal shows at its
//! revision, each answer to a delete with its task, and at the end each record that no task removes is found once. The words of
//! the program: the first seed, how many schedules, and `counts`, with which it also prints what they came to.
#![tactic(auto)]

mod asked;
mod clients;
mod counts;
mod dice;
mod failing_store;
mod plain;
mod playing;
mod shown;
mod wrong;

use crate::counts::Counts;
use crate::playing::Schedule;
use crate::wrong::Wrong;
use std::alloc::Global;
use std::thread::Threads;
use std::{env, io};

fn number(text: Option<String>, otherwise: u64) -> u64 {
    match text {
        Some(text) => text.parse::<u64>().unwrap_or(otherwise),
        None => otherwise,
    }
}

fn play<Rt: Threads + Sync>(rt: &Rt, alloc: Global, seed: u64) -> Result<Counts, Wrong> {
    let mut schedule = Schedule::drawn(alloc, seed)?;
    schedule.played(rt)
}

fn print_counts(rt: &HostRuntime, counts: &Counts) -> io::Result<()> {
    let Counts {
        entries,
        answers,
        faults,
        merges,
        deletes,
        raises,
        removals,
        documents,
        removed,
        parted,
    } = *counts;
    println!(rt; "{entries} entries, {answers} answers, {faults} failed calls, {merges} merges")?;
    println!(rt;
        "{deletes} deletes, {raises} raises, {removals} removals, {removed} of {documents} documents removed"
    )?;
    println!(rt; "{parted} schedules in which some documents were removed and others were left")
}

fn main(rt: HostRuntime) -> io::Result<()> {
    let mut words = env::args(&rt)?.skip(1);
    let first = number(words.next(), 1);
    let count = number(words.next(), 1_000);
    let is_counted = words.next().is_some();
    let mut wrong: u64 = 0;
    let mut counts = Counts::none();
    for seed in first..first.saturating_add(count) {
        match play(&rt, rt.alloc(), seed) {
            Ok(played) => counts.add(&played),
            Err(fault) => {
                wrong = wrong.saturating_add(1);
                let text = fault.text();
                println!(rt; "seed {seed}: {text}")?;
            }
        }
    }
    println!(rt; "{count} schedules, {wrong} wrong")?;
    if is_counted {
        print_counts(&rt, &counts)?;
    }
    Ok(())
}
