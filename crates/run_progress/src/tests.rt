use crate::{CountedStore, EndingSink, Kind, Progress, ProgressClock, ProgressLine, count_logs};
use byte_fields::{Client, MemorySink, Sink};
use clock_time::{Clock, ScriptClock};
use meta_journal::{meta_key, split_key};
use object_store::{ObjectStore, SteadyStore};
use root_search::LeafHold;
use source_checkpoint::Partition;
use source_log::{MemoryLog, SourceLog};
use std::alloc::{AllocError, Global};
use std::cell::{Cell, RefCell};
use std::fmt::Display;
use std::io::{self, ErrorKind, IsTerminal, Write};
use std::process::Abort;
use std::test::*;
use std::thread;
use std::time::{self, Duration};

/// A system whose time is set, and whose standard error is kept, or fails.
#[derive(Drop)]
struct Desk {
    alloc: Global,
    millis: Cell<u64>,
    works: bool,
    text: RefCell<String>,
}

impl Desk {
    fn new(alloc: Global, works: bool) -> Desk {
        Desk {
            alloc,
            millis: Cell::new(900),
            works,
            text: RefCell::new(String::new(alloc)),
        }
    }

    // Whether this is what was written since it was asked last.
    fn is_shown(&self, text: &str) -> bool {
        match self.text.try_replace(String::new(self.alloc)) {
            Ok(shown) => shown.as_str() == text,
            Err(_) => false,
        }
    }

    fn take<D: Display + Drop>(&self, value: D, end: &str) -> io::Result<()> {
        if !self.works {
            return Err(io::Error::from(ErrorKind::BrokenPipe));
        }
        let Ok(mut shown) = self.text.try_borrow_mut() else {
            return Err(io::Error::from(ErrorKind::Other));
        };
        let text = &mut *shown;
        match write!(text, "{value}{end}") {
            Ok(()) => Ok(()),
            Err(_) => Err(io::Error::from(ErrorKind::OutOfMemory)),
        }
    }
}

impl time::Clock for Desk {
    fn monotonic(&self) -> io::Result<Duration> {
        Ok(Duration::from_millis(self.millis.get()))
    }

    fn since_1970(&self) -> io::Result<Duration> {
        Err(io::Error::from(ErrorKind::Unsupported))
    }
}

impl Eprint for Desk {
    fn eprint<D: Display + Drop>(&self, value: D) -> io::Result<()> {
        self.take(value, "")
    }

    fn eprintln<D: Display + Drop>(&self, value: D) -> io::Result<()> {
        self.take(value, "\n")
    }
}

fn text_of(
    alloc: Global,
    records: u64,
    total: Option<u64>,
    rest: [u64; 3],
) -> Result<String, AllocError> {
    let line = ProgressLine {
        records,
        total,
        splits: rest[0],
        replies: rest[1],
        seconds: rest[2],
    };
    format!(in alloc; "{line}")
}

#[test]
fn lines_read_as_text(rt: HostRuntime) -> Result<(), Fail> {
    for (records, total, rest, text) in [
        (
            12_000,
            Some(100_000),
            [3, 40, 7],
            "12,000 of 100,000 records, 3 splits, 40 replies, 7 s",
        ),
        (0, None, [0, 0, 0], "0 records, 0 splits, 0 replies, 0 s"),
        (1, None, [1, 1, 1], "1 record, 1 split, 1 reply, 1 s"),
        (
            0,
            Some(1),
            [2, 2, 999],
            "0 of 1 record, 2 splits, 2 replies, 999 s",
        ),
        (
            1,
            Some(2),
            [1_000, 1_001, 1_234_567],
            "1 of 2 records, 1,000 splits, 1,001 replies, 1,234,567 s",
        ),
        (
            u64::MAX,
            None,
            [999_999, 1_000_000, 10_020_030],
            "18,446,744,073,709,551,615 records, 999,999 splits, 1,000,000 replies, 10,020,030 s",
        ),
    ] {
        let told = text_of(rt.alloc(), records, total, rest)?;
        assert_eq!(rt; told.as_str(), text);
    }
    Ok(())
}

#[test]
fn a_terminal_has_one_line(rt: HostRuntime) -> Result<(), Fail> {
    let desk = Desk::new(rt.alloc(), true);
    let progress = Progress::begin(&desk, Kind::of(true, false), Some(5_000));
    progress.add_records(1_000);
    desk.millis.set(1_899);
    progress.add_split();
    assert!(rt; desk.is_shown(""));
    desk.millis.set(1_900);
    progress.add_records(1_000);
    assert!(rt; desk.is_shown("\r2,000 of 5,000 records, 1 split, 0 replies, 1 s\x1b[K"));
    progress.add_reply();
    assert!(rt; desk.is_shown(""));
    desk.millis.set(4_000);
    progress.tick();
    assert!(rt; desk.is_shown("\r2,000 of 5,000 records, 1 split, 1 reply, 3 s\x1b[K"));
    progress.finish();
    assert!(rt; desk.is_shown("\r2,000 of 5,000 records, 1 split, 1 reply, 3 s\x1b[K\n"));
    desk.millis.set(5_000);
    progress.tick();
    progress.finish();
    assert!(rt; desk.is_shown(""));
    Ok(())
}

#[test]
fn lines_come_where_they_were_asked_for(rt: HostRuntime) -> Result<(), Fail> {
    for (asked, text) in [
        (
            true,
            "0 records, 1 split, 0 replies, 10 s\n0 records, 1 split, 0 replies, 19 s\n",
        ),
        (false, ""),
    ] {
        let desk = Desk::new(rt.alloc(), true);
        let progress = Progress::begin(&desk, Kind::of(false, asked), None);
        progress.add_split();
        for millis in [10_800, 10_900, 11_000, 20_000] {
            desk.millis.set(millis);
            progress.tick();
        }
        progress.finish();
        assert!(rt; desk.is_shown(text), "{asked}");
    }
    Ok(())
}

#[test]
fn an_output_begins_behind_it(rt: HostRuntime) -> Result<(), Fail> {
    let desk = Desk::new(rt.alloc(), true);
    let progress = Progress::begin(&desk, Kind::Terminal, None);
    let mut output = EndingSink::over(MemorySink::with_room(rt.alloc(), 4)?, &progress);
    assert!(rt; desk.is_shown(""));
    for piece in [b"ab", b"cd"] {
        assert_eq!(rt; output.write(piece).ok().ok_or("write")?, 2);
    }
    assert!(rt; desk.is_shown("\r0 records, 0 splits, 0 replies, 0 s\x1b[K\n"));
    assert!(rt; output.write(b"e").is_err());
    assert_eq!(rt; output.faults(), 1);
    assert_eq!(rt; output.sink().content(), b"abcd".as_slice());
    Ok(())
}

/// A standard error that is open or not, and a terminal or not.
#[derive(Drop)]
struct Found {
    is_terminal: bool,
    is_open: bool,
}

impl Write for Found {
    fn write(&mut self, _piece: &[u8]) -> io::Result<usize> {
        if self.is_open {
            Ok(0)
        } else {
            Err(io::Error::from(ErrorKind::Other))
        }
    }

    fn flush(&mut self) -> io::Result<()> {
        Ok(())
    }
}

impl IsTerminal for Found {
    fn is_terminal(&self) -> bool {
        self.is_terminal
    }
}

#[test]
fn a_closed_one_is_told_nothing(rt: HostRuntime) {
    for (is_terminal, is_open, asked, kind) in [
        (true, true, false, Kind::Terminal),
        (false, true, true, Kind::Lines),
        (false, true, false, Kind::Quiet),
        (false, false, true, Kind::Quiet),
    ] {
        let mut found = Found {
            is_terminal,
            is_open,
        };
        assert_eq!(rt; Kind::at(&mut found, asked), kind);
    }
}

fn log_of(alloc: Global, partition: &Partition, records: u64) -> Result<MemoryLog, AllocError> {
    let mut log = MemoryLog::vacant(alloc);
    for _ in 0..records {
        log.push(alloc, partition, b"{}")?;
    }
    Ok(log)
}

// A read, a client's reply, the making of two objects and an asking of the clock, all through wrappers: the line behind them.
fn line_behind_all(rt: &(impl Abort + AllocGlobal), works: bool) -> Result<String, Fail> {
    let alloc = rt.alloc();
    let desk = Desk::new(alloc, works);
    let progress = Progress::begin(&desk, Kind::Terminal, None);
    let partition = Partition::from_text("a")?;
    let mut logs = count_logs(
        alloc,
        vec![in alloc; log_of(alloc, &partition, 7)?]?,
        &progress,
    )?;
    for log in &mut logs {
        let names = log.partitions(alloc).ok().ok_or("names")?;
        assert_eq!(rt; names.len(), 1);
        desk.millis.set(2_000);
        let records = log.read(alloc, &partition, 2, 3).ok().ok_or("records")?;
        assert_eq!(rt; records.list.len(), 3);
        assert!(rt; !records.end);
        assert_eq!(rt; log.faults(), 0);
        assert_eq!(rt; log.log().faults(), 0);
    }
    let mut store = CountedStore::over(SteadyStore::vacant(alloc), &progress);
    for key in [split_key(1), meta_key(1)] {
        store.create(alloc, &key, b"x").ok().ok_or("create")?;
        assert!(rt; store.create(alloc, &key, b"x").is_err());
    }
    assert_eq!(rt; store.faults(), 0);
    let mut clock = ProgressClock::over(ScriptClock::at(5), &progress);
    assert_eq!(rt; clock.now(), 5);
    progress.finish();
    let line = progress.line();
    Ok(format!(in alloc; "{line}")?)
}

#[test]
fn wrappers_count_and_give_on(rt: HostRuntime) -> Result<(), Fail> {
    for works in [true, false] {
        let line = line_behind_all(&rt, works)?;
        assert_eq!(rt;
            line.as_str(),
            "3 records, 1 split, 0 replies, 1 s",
            "{works}"
        );
    }
    Ok(())
}

fn is_told<H: LeafHold>(hold: &H, replies: u64) -> Result<(), Fail> {
    let client = Client::from_text("a").ok_or("client")?;
    hold.before_leaf(&client);
    for _ in 0..replies {
        hold.after_reply(&client);
    }
    Ok(())
}

#[test]
fn threads_count_together(rt: HostRuntime) -> Result<(), Fail> {
    let progress = Progress::begin(&rt, Kind::Quiet, None);
    let counting = || {
        for _ in 0..1_000u32 {
            progress.add_records(2);
        }
    };
    thread::join(&rt, &counting, &counting);
    is_told(&progress, 4)?;
    let line = progress.line();
    assert_eq!(rt; line.records, 4_000);
    assert_eq!(rt; line.replies, 4);
    Ok(())
}
