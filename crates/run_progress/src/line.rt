//! The text of progress.

ghost use Rattle.std.specs.Prelude.{Some};
ghost use Rattle.std.specs.Fmt.{WritesOnOk};
ghost use Rattle.run_progress.specs.Numbers.{count_text, group_text, grouped, grouped_within, taken_text};

use std::fmt;

/// What is shown at one moment, as `12,000 of 100,000 records, 3 splits, 40 replies, 7 s`. Of how many records is said where that is
/// known.
#[derive(Clone, Copy)]
pub struct ProgressLine {
    pub records: u64,
    pub total: Option<u64>,
    pub splits: u64,
    pub replies: u64,
    pub seconds: u64,
}

impl fmt::Display for ProgressLine {
    ghost use Rattle.run_progress.specs.Line.{line_text};

    ghost output = { λ line. Some (line_text line) };

    fn fmt<W: fmt::Write>(&self, f: &mut fmt::Formatter<W>) -> fmt::Result {
        let taken = Taken {
            records: self.records,
            total: self.total,
        };
        let splits = Count {
            count: self.splits,
            one: "split",
            many: "splits",
        };
        let replies = Count {
            count: self.replies,
            one: "reply",
            many: "replies",
        };
        let seconds = Grouped(self.seconds);
        write!(f, "{taken}, {splits}, {replies}, {seconds} s")
    }
}

// Records that were taken in, of how many.
#[derive(Clone, Copy)]
struct Taken {
    records: u64,
    total: Option<u64>,
}

impl fmt::Display for Taken {
    ghost output = { λ taken. Some (taken_text taken.records taken.total) };

    fn fmt<W: fmt::Write>(&self, f: &mut fmt::Formatter<W>) -> fmt::Result {
        let records = Count {
            count: self.total.unwrap_or(self.records),
            one: "record",
            many: "records",
        };
        match self.total {
            None => write!(f, "{records}"),
            Some(_) => {
                let taken = Grouped(self.records);
                write!(f, "{taken} of {records}")
            }
        }
    }
}

// So many things, with their name where there is one and where there are others.
#[derive(Clone, Copy)]
struct Count<'a> {
    count: u64,
    one: &'a str,
    many: &'a str,
}

impl<'a> fmt::Display for Count<'a> {
    ghost output = { λ it. Some (count_text it.count it.one.now it.many.now) };

    fn fmt<W: fmt::Write>(&self, f: &mut fmt::Formatter<W>) -> fmt::Result {
        let count = Grouped(self.count);
        let name = if self.count == 1 { self.one } else { self.many };
        write!(f, "{count} {name}")
    }
}

// A number with a comma before each three digits at its end.
#[derive(Clone, Copy)]
struct Grouped(u64);

/// A number of 64 bits has at most so many commas.
const MOST_COMMAS: u8 = 6;

impl fmt::Display for Grouped {
    ghost output = { λ number. Some (grouped number.0) };

    fn fmt<W: fmt::Write>(&self, f: &mut fmt::Formatter<W>) -> fmt::Result {
        write_grouped(f, self.0, MOST_COMMAS)
    }
}

// A number with so many commas, or as many as it has.
fn write_grouped<W: fmt::Write>(f: &mut fmt::Formatter<W>, number: u64, commas: u8) -> fmt::Result
    ensures { WritesOnOk W.write_str_gives f.old result (grouped_within commas number) f.new }
{
    if commas == 0 || number < 1_000 {
        return write!(f, "{number}");
    }
    write_grouped(f, number / 1_000, commas - 1)?;
    write_group(f, number)
}

// A comma and the last three digits of a number.
fn write_group<W: fmt::Write>(f: &mut fmt::Formatter<W>, number: u64) -> fmt::Result
    ensures { WritesOnOk W.write_str_gives f.old result (group_text number) f.new }
{
    let hundreds = number / 100 % 10;
    let tens = number / 10 % 10;
    let ones = number % 10;
    write!(f, ",{hundreds}{tens}{ones}")
}
