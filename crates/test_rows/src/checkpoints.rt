//! What no clause says: each call with ample memory.

use source_checkpoint::{Delta, Ledger, Part, Partition, Span, Spans};
use std::test::Fail;

fn part(from: u64, to: u64) -> Result<Part, Fail> {
    let partition = Partition::from_text("p0")?;
    Ok(Part {
        partition,
        from,
        to,
    })
}

#[test]
fn a_delta_is_admitted_once(rt: HostRuntime) -> Result<(), Fail> {
    let alloc = rt.alloc();
    let mut ledger = Ledger::vacant(alloc);
    let mut delta = Delta::vacant(alloc);
    delta.push(part(0, 3)?)?;
    ledger.reserve(&delta)?;
    if ledger.check(&delta).is_err() {
        return Err(Fail::from("a delta from the checkpoint"));
    }
    ledger.admit(&delta);
    assert!(rt; ledger.checkpoint(&part(0, 3)?.partition) == 3 && ledger.check(&delta).is_err());
    let mut spans = Spans::vacant(alloc);
    spans.push(Span::behind(1, &part(0, 1)?))?;
    assert!(rt; spans.len() == 1);
    Ok(())
}
