//! Rows of split files: each line of the input gives a file or documents, or asks something of the file given last or of a split of its
//! own, and the answer to it.
#![tactic(auto)]

ghost use Rattle.doc_value.specs.Documents.{IsSchema};

mod answers;
mod builds;
mod configs;
mod digits;
mod documents;
mod leaves;
mod parts;
mod tallies;

use doc_value::Bytes;
use index_config::IndexConfig;
use std::io;

fn main(rt: HostRuntime) -> io::Result<()> {
    match documents::config_of(rt.alloc(), configs::config_text("logs"))? {
        Some(config) => answered(rt, &config),
        None => println!(rt; "no configuration"),
    }
}

// Each line's answer; splits of documents are of this configuration.
fn answered(rt: HostRuntime, config: &IndexConfig) -> io::Result<()>
    requires { IsSchema config.now.schema }
{
    let alloc = rt.alloc();
    let mut file = Bytes::vacant(alloc);
    for line in rt.lines(alloc) {
        let answer = answers::answer(alloc, config, &mut file, line?.as_str())?;
        println!(rt; "{answer}")?;
    }
    Ok(())
}
