//! What was done so far, and when it is shown.

ghost use Rattle.std.specs.Prelude.{◌≡◌, IsTrue, false};

use crate::ProgressLine;
use byte_fields::Client;
use root_search::LeafHold;
use std::io::{IsTerminal, Write};
use std::sync::atomic::{AtomicU64, Ordering};
use std::time::{Clock, Duration};

/// How progress is shown.
#[derive(Clone, Copy, Debug, PartialEq, Eq)]
pub enum Kind {
    /// On one line of a terminal, which is written over each second.
    Terminal,
    /// On a line of its own each ten seconds.
    Lines,
    /// Not at all.
    Quiet,
}

impl Kind {
    /// A terminal has its one line. Elsewhere there are lines only where they were asked for.
    pub fn of(is_terminal: bool, is_asked: bool) -> Kind
        ensures terminal { IsTrue is_terminal → result ≡ Kind.Terminal }
        ensures asked { is_terminal ≡ false → IsTrue is_asked → result ≡ Kind.Lines }
        ensures other { is_terminal ≡ false → is_asked ≡ false → result ≡ Kind.Quiet }
    {
        match (is_terminal, is_asked) {
            (true, _) => Kind::Terminal,
            (false, true) => Kind::Lines,
            (false, false) => Kind::Quiet,
        }
    }

    /// As standard error is. It is to be asked before the program opens a file: the first one takes the place of a standard error that is
    /// closed, and lines would go into it.
    pub fn at<E: Write + IsTerminal>(error: &mut E, is_asked: bool) -> Kind {
        let is_open = error.write(&[]).is_ok();
        Kind::of(error.is_terminal(), is_asked && is_open)
    }

    /// So many seconds are between two lines, where there are any.
    fn seconds_between(self) -> Option<u64> {
        match self {
            Kind::Terminal => Some(1),
            Kind::Lines => Some(10),
            Kind::Quiet => None,
        }
    }
}

/// Stands for the seconds that were shown last where nothing will be shown any more: no second is behind it.
const FINISHED: u64 = u64::MAX;

/// What a run has done so far, counted by all of its threads. Whichever of them counts first behind the time shows it, and goes on
/// whether or not standard error took it. Contracts know nothing of the counts.
#[derive(Drop)]
pub struct Progress<'a, R: Eprint + Clock> {
    system: &'a R,
    kind: Kind,
    total: Option<u64>,
    began: Duration,
    records: AtomicU64,
    splits: AtomicU64,
    replies: AtomicU64,
    /// The seconds that were shown last, or `FINISHED`.
    shown: AtomicU64,
}

impl<'a, R: Eprint + Clock> Progress<'a, R> {
    /// Begins now, with nothing done. `total` is how many records there are to take in, where that is known.
    pub fn begin(system: &'a R, kind: Kind, total: Option<u64>) -> Progress<'a, R> {
        Progress {
            system,
            kind,
            total,
            began: time_of(system),
            records: AtomicU64::new(0),
            splits: AtomicU64::new(0),
            replies: AtomicU64::new(0),
            shown: AtomicU64::new(0),
        }
    }

    /// So many records were read.
    pub fn add_records(&self, count: u64) {
        self.records.fetch_add(count, Ordering::SeqCst);
        self.tick();
    }

    /// A split file was made.
    pub fn add_split(&self) {
        self.splits.fetch_add(1, Ordering::SeqCst);
        self.tick();
    }

    /// A client has a reply.
    pub fn add_reply(&self) {
        self.replies.fetch_add(1, Ordering::SeqCst);
        self.tick();
    }

    /// Shows what was done, where it is time to. One of several threads does.
    pub fn tick(&self) {
        let Some(between) = self.kind.seconds_between() else {
            return;
        };
        let seconds = self.seconds();
        let shown = self.shown.load(Ordering::SeqCst);
        if seconds.saturating_sub(shown) < between {
            return;
        }
        let taken = self
            .shown
            .compare_exchange(shown, seconds, Ordering::SeqCst, Ordering::SeqCst);
        if taken.is_ok() {
            self.show(seconds);
        }
    }

    /// Shows what was done for the last time. Another call does nothing.
    pub fn finish(&self) {
        if self.shown.swap(FINISHED, Ordering::SeqCst) == FINISHED {
            return;
        }
        self.show(self.seconds());
        if self.kind == Kind::Terminal {
            let _ = eprintln!(self.system; "");
        }
    }

    /// What was done so far.
    pub fn line(&self) -> ProgressLine {
        self.line_at(self.seconds())
    }

    fn line_at(&self, seconds: u64) -> ProgressLine {
        ProgressLine {
            records: self.records.load(Ordering::SeqCst),
            total: self.total,
            splits: self.splits.load(Ordering::SeqCst),
            replies: self.replies.load(Ordering::SeqCst),
            seconds,
        }
    }

    // What standard error doesn't take is lost. Behind the text the rest of a longer one before it is cleared.
    fn show(&self, seconds: u64) {
        let line = self.line_at(seconds);
        let _ = match self.kind {
            Kind::Terminal => eprint!(self.system; "\r{line}\x1b[K"),
            Kind::Lines => eprintln!(self.system; "{line}"),
            Kind::Quiet => Ok(()),
        };
    }

    // The whole seconds since it began.
    fn seconds(&self) -> u64 {
        time_of(self.system).saturating_sub(self.began).as_secs()
    }
}

// The time of a clock that never goes back; none has passed where it can't be read.
fn time_of<C: Clock>(clock: &C) -> Duration {
    clock.monotonic().unwrap_or(Duration::ZERO)
}

/// It holds nothing back.
impl<'a, R: Eprint + Clock + Sync> LeafHold for Progress<'a, R> {
    fn before_leaf(&self, _client: &Client) {
        self.tick();
    }

    fn after_reply(&self, _client: &Client) {
        self.add_reply();
    }
}
