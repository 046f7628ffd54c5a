//! Rows of documents, queries, requests, aggregations and histories: for each line of the input, what is asked, and the answer to it.
#![tactic(auto)]

mod aggregations;
mod answers;
mod documents;
mod histories;
mod queries;
mod requests;

use meta_store::Meta;
use std::{io, mem};

/// Answers each line, over one history.
fn answered(rt: HostRuntime, meta: &mut Meta) -> io::Result<()> {
    let alloc = rt.alloc();
    for line in rt.lines(alloc) {
        let answer = answers::answer(alloc, meta, line?.as_str())?;
        println!(rt; "{answer}")?;
    }
    Ok(())
}

fn main(rt: HostRuntime) -> io::Result<()> {
    let mut meta = Meta::vacant(rt.alloc());
    let done = answered(rt, &mut meta);
    mem::drop(meta);
    done
}
