use source_checkpoint::Partition;
use source_log::*;
use std::alloc::Global;
use std::test::Fail;

fn one_partition(alloc: Global, partition: &Partition) -> Result<MemoryLog, Fail> {
    let mut log = MemoryLog::vacant(alloc);
    log.push(alloc, partition, b"red fox")?;
    log.push(alloc, partition, b"oops")?;
    Ok(log)
}

// How many partitions and records a log has, through the trait's bound.
fn counts<L: SourceLog>(
    log: &mut L,
    alloc: Global,
    partition: &Partition,
) -> Result<[usize; 2], Fail> {
    let names = log.partitions(alloc)?.len();
    Ok([names, log.read(alloc, partition, 0, 1000)?.list.len()])
}

#[test]
fn names_and_records(rt: HostRuntime) -> Result<(), Fail> {
    let alloc = rt.alloc();
    let partition = Partition::from_text("p0")?;
    let mut log = one_partition(alloc, &partition)?;
    assert!(rt; counts(&mut log, alloc, &partition)? == [1, 2]);
    let mut log = FaultyLog::over(alloc, log);
    log.fail_call(1)?;
    assert!(rt; log.partitions(alloc).is_err());
    assert!(rt; counts(&mut log, alloc, &partition)? == [1, 2]);
    Ok(())
}
