//! Rows of the commands, from scripts, and a table of failing store calls.

use crate::collector_rows::COLLECTOR_ROWS;
use crate::delete_rows::DELETE_ROWS;
use crate::deleter_races::DELETER_RACES;
use crate::deleter_rows::DELETER_ROWS;
use crate::merger_rows::MERGER_ROWS;
use crate::report_rows::REPORT_ROWS;
use crate::run_rows::RUN_ROWS;
use crate::script::ROWS;
use crate::search_rows::SEARCH_ROWS;
use crate::serving::serve_with_logs;
use byte_fields::{Bytes, Failed, MemorySink, MemorySource};
use clock_time::ScriptClock;
use meta_journal::{Act, Entry, encode_entry, meta_key};
use object_store::{
    CreateError, GetError, Key, Keys, Landing, ListError, MemoryStore, ObjectStore, Piece,
};
use root_search::NoHold;
use source_checkpoint::Partition;
use source_log::{FaultyLog, MemoryLog};
use std::alloc::{AllocError, Global};
use std::process::Abort;
use std::sync::Wait;
use std::test::Fail;
use std::thread::Threads;
use std::{mem, str};

// The configuration of the index that is made: two fields of texts, of which `body` is asked by a clause without a field.
const CONFIG: &str =
    "version = \"0.9\"\nindex_id = \"logs\"\n[doc_mapping]\nmode = \"strict\"\n[[doc_mapping.field_mappings]]\nname = \"body\"\ntype = \"text\"\nrecord = \"position\"\n[[doc_mapping.field_mappings]]\nname = \"level\"\ntype = \"text\"\ntokenizer = \"raw\"\nfast = true\n[indexing_settings.merge_policy]\ntype = \"stable_log\"\nmin_level_num_docs = 100\nmerge_factor = 2\nmax_merge_factor = 4\n[search_settings]\ndefault_search_fields = [\"body\"]\n[upkeep]\nstaged_grace_secs = 200\ndeletion_grace_secs = 100\n";

// A client deletes.
const DELETE: &str = "client d {\"delete\":{\"query\":\"fox\"}}\nclient d\n";

// The bytes of a Create of that configuration, at moment 0.
fn new_entry(alloc: Global) -> Result<Bytes, AllocError> {
    let entry = Entry {
        moment: 0,
        act: Act::Create {
            config: Bytes::from_slice(alloc, CONFIG.as_bytes())?,
        },
    };
    encode_entry(alloc, &entry)
}

// A store in memory that counts how many bytes it gave of split files. Of what it holds it tells nothing.
#[derive(Drop)]
struct CountedStore {
    store: MemoryStore,
    given: u64,
}

impl CountedStore {
    fn vacant(alloc: Global) -> CountedStore {
        CountedStore {
            store: MemoryStore::vacant(alloc),
            given: 0,
        }
    }
}

impl ObjectStore for CountedStore {
    ghost use Rattle.std.specs.Prelude.{None};

    ghost told = { λ _. None };

    ghost fault_count = { λ s. s.store.plan.faults };

    ghost given = { λ s. s.store.given };

    fn create(&mut self, alloc: Global, key: &Key, content: &[u8]) -> Result<(), CreateError> {
        self.store.create(alloc, key, content)
    }

    fn get(&mut self, alloc: Global, key: &Key, from: u64, len: u64) -> Result<Piece, GetError> {
        let got = self.store.get(alloc, key, from, len);
        if let Ok(piece) = &got
            && key.as_bytes().starts_with(b"splits/")
        {
            self.given = self.given.saturating_add(piece.bytes.len() as u64);
        }
        got
    }

    fn delete(&mut self, key: &Key) -> Result<(), Failed> {
        self.store.delete(key)
    }

    fn list(
        &mut self,
        alloc: Global,
        prefix: &Key,
        after: Option<&Key>,
        max: u32,
    ) -> Result<Keys, ListError> {
        self.store.list(alloc, prefix, after, max)
    }

    fn faults(&self) -> u64 {
        self.store.faults()
    }
}

// A row as far as its script was read.
#[derive(Drop)]
struct Row {
    name: String,
    store: CountedStore,
    logs: Vec<MemoryLog>,
    words: Vec<String>,
    schedule: Vec<u8>,
    expected: Vec<u8>,
    room: Option<u64>,
    failing_log: Option<u64>,
    failing_read: Option<u64>,
    failing_write: Option<u64>,
}

impl Row {
    fn begin(alloc: Global, name: &str) -> Result<Row, Fail> {
        let name = String::from_str(alloc, name)?;
        let words = one_word(alloc, "drive")?;
        let store = index_store(alloc)?;
        Ok(Row {
            name,
            store,
            logs: Vec::new(alloc),
            words,
            schedule: Vec::new(alloc),
            expected: Vec::new(alloc),
            room: None,
            failing_log: None,
            failing_read: None,
            failing_write: None,
        })
    }

    // Takes a line of a script, and says whether what it says is so.
    fn take<Rt: Threads + Wait + Sync>(
        &mut self,
        rt: &Rt,
        alloc: Global,
        line: &str,
    ) -> Result<bool, Fail> {
        let (asked, rest) = halves(line);
        match asked {
            "run" => self.run(rt, alloc, rest),
            "size" => self.has_size(alloc, rest),
            "bytes" => self.has_bytes(alloc, rest),
            _ => {
                self.prepare(alloc, asked, rest)?;
                Ok(true)
            }
        }
    }

    // Whether an object has so many bytes.
    fn has_size(&mut self, alloc: Global, rest: &str) -> Result<bool, Fail> {
        let (size, key) = halves(rest);
        let size = number_of(size)?;
        let piece = self.store.get(alloc, &key_of(key)?, 0, 1000)?;
        Ok(piece.size == size)
    }

    // Whether an object has these bytes, which are given in digits.
    fn has_bytes(&mut self, alloc: Global, rest: &str) -> Result<bool, Fail> {
        let (wanted, key) = halves(rest);
        let piece = self.store.get(alloc, &key_of(key)?, 0, 1000)?;
        let found = digits_of(alloc, piece.bytes.as_slice())?;
        Ok(found.as_str() == wanted)
    }

    // What a line says of what stands.
    fn prepare(&mut self, alloc: Global, asked: &str, rest: &str) -> Result<(), Fail> {
        match asked {
            "row" => self.restart(alloc, rest),
            "vacant" => self.vacate(alloc),
            "object" => make_object(alloc, &mut self.store, rest),
            "cut" => cut_object(alloc, &mut self.store, rest),
            "log" => add_log(alloc, &mut self.logs),
            "record" => add_record(alloc, &mut self.logs, rest),
            "command" => self.command(alloc, rest),
            "word" => add_word(alloc, &mut self.words, rest),
            _ => self.fail(alloc, asked, rest),
        }
    }

    // What a line says of what is to fail.
    fn fail(&mut self, alloc: Global, asked: &str, rest: &str) -> Result<(), Fail> {
        match asked {
            "failkey" => fail_key(&mut self.store.store, rest),
            "failcall" => fail_call(&mut self.store.store, rest),
            "failread" => set_number(&mut self.failing_read, rest),
            "failwrite" => set_number(&mut self.failing_write, rest),
            "faillog" => set_number(&mut self.failing_log, rest),
            "room" => set_number(&mut self.room, rest),
            _ => self.write(alloc, asked, rest),
        }
    }

    // What a line says of the schedule and of what must be written.
    fn write(&mut self, alloc: Global, asked: &str, rest: &str) -> Result<(), Fail> {
        match asked {
            ">" => add_line(&mut self.schedule, rest),
            "<" => add_line(&mut self.expected, rest),
            ">>" => add_text(&mut self.schedule, rest),
            "<<" => add_text(&mut self.expected, rest),
            "config" => add_config(&mut self.schedule, rest),
            "long" => add_long(&mut self.schedule, rest),
            "clients" => self.restart_clients(alloc, rest),
            "deletes" => self.delete_foxes(alloc, rest),
            _ => Err(Fail::new("no line of a script")),
        }
    }

    fn restart(&mut self, alloc: Global, name: &str) -> Result<(), Fail> {
        let next = Row::begin(alloc, name)?;
        mem::drop(mem::replace(self, next));
        Ok(())
    }

    fn vacate(&mut self, alloc: Global) -> Result<(), Fail> {
        mem::drop(mem::replace(&mut self.store, CountedStore::vacant(alloc)));
        Ok(())
    }

    fn command(&mut self, alloc: Global, word: &str) -> Result<(), Fail> {
        self.words = one_word(alloc, word)?;
        Ok(())
    }

    fn restart_clients(&mut self, alloc: Global, rest: &str) -> Result<(), Fail> {
        for number in 0..number_of(rest)? {
            let name = format!(in alloc; "c{number}")?;
            self.restart_client(name.as_str())?;
        }
        Ok(())
    }

    fn restart_client(&mut self, name: &str) -> Result<(), Fail> {
        add_text(&mut self.schedule, "restart client ")?;
        add_line(&mut self.schedule, name)?;
        add_text(&mut self.expected, name)?;
        add_line(&mut self.expected, " restarted")
    }

    // A client deletes so often, each time by an entry more behind the one that made the index.
    fn delete_foxes(&mut self, alloc: Global, rest: &str) -> Result<(), Fail> {
        for opstamp in 1..number_of(rest)?.saturating_add(1) {
            let revision = opstamp.saturating_add(1);
            add_text(&mut self.schedule, DELETE)?;
            add_line(&mut self.expected, "d opened")?;
            let reply = format!(in alloc;
                "{{\"client\":\"d\",\"opstamp\":{opstamp},\"revision\":{revision}}}"
            )?;
            add_line(&mut self.expected, reply.as_str())?;
        }
        Ok(())
    }

    fn input(&self, alloc: Global) -> Result<MemorySource, Fail> {
        let schedule = Bytes::from_slice(alloc, self.schedule.as_slice())?;
        let mut input = MemorySource::from_bytes(schedule);
        if let Some(call) = self.failing_read {
            input.fail_call(call)?;
        }
        Ok(input)
    }

    fn output(&self, alloc: Global) -> Result<MemorySink, Fail> {
        let room = self.room.unwrap_or(8192) as usize;
        let mut output = MemorySink::with_room(alloc, room)?;
        if let Some(call) = self.failing_write {
            output.fail_call(call)?;
        }
        Ok(output)
    }

    // The logs, of which the first fails its call with a number. The row has none behind it.
    fn readers(&mut self, alloc: Global) -> Result<Vec<FaultyLog>, Fail> {
        let mut readers = Vec::new(alloc);
        for log in mem::replace(&mut self.logs, Vec::new(alloc)) {
            readers.push(FaultyLog::over(alloc, log))?;
        }
        if let Some(call) = self.failing_log
            && let Some(first) = readers.first_mut()
        {
            first.fail_call(call)?;
        }
        Ok(readers)
    }

    // Does the command over the row's store.
    fn does<Rt: Threads + Wait + Sync>(&mut self, rt: &Rt, alloc: Global) -> Result<Ended, Fail> {
        let input = self.input(alloc)?;
        let output = self.output(alloc)?;
        let logs = self.readers(alloc)?;
        let words = self.words.as_slice();
        Ok(done(rt, alloc, words, &mut self.store, logs, input, output))
    }

    // Does the command, and says whether it ends in this status and as the row says. What stands then is the store of a second
    // life, which has no log yet.
    fn run<Rt: Threads + Wait + Sync>(
        &mut self,
        rt: &Rt,
        alloc: Global,
        status: &str,
    ) -> Result<bool, Fail> {
        let status = number_of(status)?;
        let ended = self.does(rt, alloc)?;
        let is_right = self.is_right(&ended, status);
        mem::drop(ended);
        self.renew(alloc)?;
        Ok(is_right)
    }

    fn is_right(&self, ended: &Ended, status: u64) -> bool {
        let log_faults = u64::from(self.failing_log.is_some());
        ended.status == status
            && ended.told_log_faults == log_faults
            && ended.log_faults == log_faults
            && ended.written() == self.expected.as_slice()
    }

    fn renew(&mut self, alloc: Global) -> Result<(), Fail> {
        self.words = one_word(alloc, "drive")?;
        self.schedule = Vec::new(alloc);
        self.expected = Vec::new(alloc);
        self.room = None;
        self.failing_log = None;
        self.failing_read = None;
        self.failing_write = None;
        Ok(())
    }

    // Does the command over a log of three records, of which one is none of the index. Gives how many lines that were written
    // have these words.
    fn lines_with<Rt: Threads + Wait + Sync>(
        &mut self,
        rt: &Rt,
        alloc: Global,
        words: &str,
    ) -> Result<u32, Fail> {
        add_foxes(alloc, &mut self.logs)?;
        let ended = self.does(rt, alloc)?;
        let count = lines_with(ended.written(), words);
        mem::drop(ended);
        Ok(count)
    }
}

// What stands behind a command: its status, the faults of logs that it tells, those that the logs count, and what was written.
#[derive(Drop)]
struct Ended {
    status: u64,
    told_log_faults: u64,
    log_faults: u64,
    output: MemorySink,
}

impl Ended {
    fn written(&self) -> &[u8] {
        self.output.content()
    }
}

// Does the command of these words, and leaves the store as it then stands.
fn done<Rt: Threads + Wait + Sync>(
    rt: &Rt,
    alloc: Global,
    words: &[String],
    store: &mut CountedStore,
    logs: Vec<FaultyLog>,
    input: MemorySource,
    output: MemorySink,
) -> Ended {
    let (mut input, mut output) = (input, output);
    let held = mem::replace(store, CountedStore::vacant(alloc));
    let clock = ScriptClock::at(0);
    let (finished, logs) = serve_with_logs(
        rt,
        alloc,
        words,
        held,
        logs,
        clock,
        &NoHold,
        &mut input,
        &mut output,
    );
    mem::drop(mem::replace(store, finished.store));
    let log_faults = logs.faults();
    mem::drop(logs);
    Ended {
        status: u64::from(finished.status),
        told_log_faults: finished.log_faults,
        log_faults,
        output,
    }
}

// A store with the one entry that makes an index.
fn index_store(alloc: Global) -> Result<CountedStore, Fail> {
    let bytes = new_entry(alloc)?;
    let mut store = CountedStore::vacant(alloc);
    store.create(alloc, &meta_key(0), bytes.as_slice())?;
    Ok(store)
}

fn one_word(alloc: Global, word: &str) -> Result<Vec<String>, Fail> {
    let mut words = Vec::new(alloc);
    add_word(alloc, &mut words, word)?;
    Ok(words)
}

fn key_of(text: &str) -> Result<Key, Fail> {
    Ok(Key::from_text(text)?)
}

// Each byte in two digits of base 16.
fn digits_of(alloc: Global, bytes: &[u8]) -> Result<String, AllocError> {
    let mut digits = String::new(alloc);
    for byte in bytes {
        let two = format!(in alloc; "{byte:02x}")?;
        digits.push_str(two.as_str())?;
    }
    Ok(digits)
}

fn number_of(text: &str) -> Result<u64, Fail> {
    Ok(text.parse::<u64>()?)
}

// The two words of a line at their first space.
fn halves(line: &str) -> (&str, &str) {
    line.split_once(' ').unwrap_or((line, ""))
}

// When a create lands, and what stands behind that word.
fn landing_of(rest: &str) -> Result<(Landing, &str), Fail> {
    let (word, behind) = halves(rest);
    let landing = match word {
        "never" => Landing::Never,
        "once" => Landing::AtOnce,
        _ => Landing::AfterCalls(word.parse::<u32>()?),
    };
    Ok((landing, behind))
}

fn make_object(alloc: Global, store: &mut CountedStore, rest: &str) -> Result<(), Fail> {
    let (key, text) = halves(rest);
    Ok(store.create(alloc, &key_of(key)?, text.as_bytes())?)
}

// Takes the last byte of an object away.
fn cut_object(alloc: Global, store: &mut CountedStore, key: &str) -> Result<(), Fail> {
    let key = key_of(key)?;
    let piece = store.get(alloc, &key, 0, 1_000_000)?;
    make_anew(alloc, store, &key, piece.bytes.as_slice())
}

// Makes an object anew of its bytes but for the last.
fn make_anew(alloc: Global, store: &mut CountedStore, key: &Key, bytes: &[u8]) -> Result<(), Fail> {
    let (_, kept) = bytes.split_last().ok_or("no byte")?;
    store.delete(key).ok().ok_or("not deleted")?;
    Ok(store.create(alloc, key, kept)?)
}

fn fail_key(store: &mut MemoryStore, rest: &str) -> Result<(), Fail> {
    let (landing, key) = landing_of(rest)?;
    Ok(store.fail_key(key_of(key)?, landing)?)
}

fn fail_call(store: &mut MemoryStore, rest: &str) -> Result<(), Fail> {
    let (landing, call) = landing_of(rest)?;
    Ok(store.fail_call(number_of(call)?, landing)?)
}

fn set_number(number: &mut Option<u64>, rest: &str) -> Result<(), Fail> {
    *number = Some(number_of(rest)?);
    Ok(())
}

fn add_word(alloc: Global, words: &mut Vec<String>, word: &str) -> Result<(), Fail> {
    Ok(words.push(String::from_str(alloc, word)?)?)
}

fn add_log(alloc: Global, logs: &mut Vec<MemoryLog>) -> Result<(), Fail> {
    Ok(logs.push(MemoryLog::vacant(alloc))?)
}

fn add_record(alloc: Global, logs: &mut Vec<MemoryLog>, rest: &str) -> Result<(), Fail> {
    let (name, text) = halves(rest);
    let partition = Partition::from_text(name)?;
    if let Some(log) = logs.last_mut() {
        log.push(alloc, &partition, text.as_bytes())?;
    }
    Ok(())
}

// A log of three records, of which one is none of the index.
fn add_foxes(alloc: Global, logs: &mut Vec<MemoryLog>) -> Result<(), Fail> {
    add_log(alloc, logs)?;
    add_record(alloc, logs, "p0 {\"body\":\"red fox\"}")?;
    add_record(alloc, logs, "p0 oops")?;
    add_record(alloc, logs, "p0 {\"body\":\"red hen\"}")
}

fn add_text(text: &mut Vec<u8>, more: &str) -> Result<(), Fail> {
    Ok(text.extend_from_slice(more.as_bytes())?)
}

fn add_line(text: &mut Vec<u8>, line: &str) -> Result<(), Fail> {
    add_text(text, line)?;
    Ok(text.push(b'\n')?)
}

// The configuration, behind a line of its own if there is one.
fn add_config(text: &mut Vec<u8>, line: &str) -> Result<(), Fail> {
    if !line.is_empty() {
        add_line(text, line)?;
    }
    add_text(text, CONFIG)
}

// So many letters more.
fn add_long(text: &mut Vec<u8>, rest: &str) -> Result<(), Fail> {
    let len = text.len().saturating_add(number_of(rest)? as usize);
    Ok(text.resize(len, b'x')?)
}

// How many lines of a text have these words.
fn lines_with(text: &[u8], words: &str) -> u32 {
    let mut count = 0u32;
    for line in str::from_utf8(text).unwrap_or("").lines() {
        if line.contains(words) {
            count = count.saturating_add(1);
        }
    }
    count
}

// Does the rows of a script, which do so many commands.
fn do_rows<Rt: Threads + Wait + Sync + Abort>(
    rt: &Rt,
    alloc: Global,
    script: &str,
    wanted: u32,
) -> Result<(), Fail> {
    let mut row = Row::begin(alloc, "none")?;
    let runs = runs_from(rt, alloc, &mut row, script);
    mem::drop(row);
    let runs = runs?;
    assert_eq!(rt; runs, wanted);
    Ok(())
}

fn runs_from<Rt: Threads + Wait + Sync + Abort>(
    rt: &Rt,
    alloc: Global,
    row: &mut Row,
    script: &str,
) -> Result<u32, Fail> {
    let mut runs = 0u32;
    for line in script.lines() {
        let is_right = row.take(rt, alloc, line)?;
        assert!(rt; is_right, "{}", row.name);
        if line.starts_with("run ") {
            runs = runs.saturating_add(1);
        }
    }
    Ok(runs)
}

#[test]
fn rows_of_drive(rt: HostRuntime) -> Result<(), Fail> {
    do_rows(&rt, rt.alloc(), ROWS, 54)
}

#[test]
fn rows_of_reports(rt: HostRuntime) -> Result<(), Fail> {
    do_rows(&rt, rt.alloc(), REPORT_ROWS, 18)
}

#[test]
fn rows_of_searches(rt: HostRuntime) -> Result<(), Fail> {
    do_rows(&rt, rt.alloc(), SEARCH_ROWS, 25)
}

#[test]
fn rows_of_the_collector(rt: HostRuntime) -> Result<(), Fail> {
    do_rows(&rt, rt.alloc(), COLLECTOR_ROWS, 5)
}

#[test]
fn rows_of_the_merger(rt: HostRuntime) -> Result<(), Fail> {
    do_rows(&rt, rt.alloc(), MERGER_ROWS, 18)
}

#[test]
fn rows_of_deletes(rt: HostRuntime) -> Result<(), Fail> {
    do_rows(&rt, rt.alloc(), DELETE_ROWS, 22)
}

#[test]
fn rows_of_the_delete_worker(rt: HostRuntime) -> Result<(), Fail> {
    do_rows(&rt, rt.alloc(), DELETER_ROWS, 10)
}

#[test]
fn rows_of_the_delete_worker_beside_others(rt: HostRuntime) -> Result<(), Fail> {
    do_rows(&rt, rt.alloc(), DELETER_RACES, 10)
}

#[test]
fn rows_of_runs(rt: HostRuntime) -> Result<(), Fail> {
    do_rows(&rt, rt.alloc(), RUN_ROWS, 20)
}

const SCHEDULE: &str =
    "at 1000\nindexer 0\nindexer 0\nindexer 0\nindexer 0\nindexer 0\nindexer 0\nindexer 0\nindexer 0\nindexer 0\nindexer 0\nindexer 0\nindexer 0\nindexer 0\nindexer 0\nindexer 0\nindexer 0\nindexer 0\nindexer 0\nindexer 0\nindexer 0\nclient a {\"search\":{\"query\":\"red\"}}\nclient a\nclient a\nclient a\nclient a\nclient a\nclient a\nclient a\nclient a\n";

const BOTH: &str = "\"num_hits\":2,";

// Whether such a call failed; if so the same schedule in a next life finds both records.
fn fails_alone<Rt: Threads + Wait + Sync + Abort>(
    rt: &Rt,
    alloc: Global,
    number: u64,
    landing: Landing,
) -> Result<bool, Fail> {
    let mut row = Row::begin(alloc, "a call fails")?;
    let failed = fails_in(rt, alloc, &mut row, number, landing);
    mem::drop(row);
    failed
}

fn fails_in<Rt: Threads + Wait + Sync + Abort>(
    rt: &Rt,
    alloc: Global,
    row: &mut Row,
    number: u64,
    landing: Landing,
) -> Result<bool, Fail> {
    add_text(&mut row.schedule, SCHEDULE)?;
    row.store.store.fail_call(number, landing)?;
    row.lines_with(rt, alloc, BOTH)?;
    if row.store.faults() == 0 {
        return Ok(false);
    }
    let replies = row.lines_with(rt, alloc, BOTH)?;
    assert!(rt; replies > 0);
    Ok(true)
}

// Each call of the store fails alone, in each way to land. The same schedule in a next life finds both records.
#[test]
fn each_call_fails_alone(rt: HostRuntime) -> Result<(), Fail> {
    let alloc = rt.alloc();
    let landings = [
        Landing::AtOnce,
        Landing::AfterCalls(1),
        Landing::AfterCalls(3),
        Landing::Never,
    ];
    let mut failed = 0u32;
    for number in 2..14u64 {
        for landing in landings {
            if fails_alone(&rt, alloc, number, landing)? {
                failed = failed.saturating_add(1);
            }
        }
    }
    // In each way: a list and a get at opening, three creates of the indexer, and the search's gets of what stands behind the
    // footer, the footer, a block of the dictionary, a list, where the documents start, and the documents.
    assert_eq!(rt; failed, 44);
    Ok(())
}

const COUNT: &str =
    "client a {\"search\":{\"query\":\"fox\",\"max_hits\":0}}\nclient a\nclient a\nclient a\n";

// A schedule that publishes two of three records and then counts a word so often.
fn add_counts(schedule: &mut Vec<u8>, searches: u32) -> Result<(), Fail> {
    for line in SCHEDULE.lines() {
        if line.starts_with("indexer") {
            add_line(schedule, line)?;
        }
    }
    for _ in 0..searches {
        add_text(schedule, COUNT)?;
    }
    Ok(())
}

// What `serve` does of such a schedule: how many replies count one record, and how many bytes the store gave of split files.
fn counts_served<Rt: Threads + Wait + Sync>(
    rt: &Rt,
    alloc: Global,
    searches: u32,
) -> Result<(u32, u64), Fail> {
    let mut row = Row::begin(alloc, "a count")?;
    let replies = counts_in(rt, alloc, &mut row, searches);
    let given = row.store.given;
    mem::drop(row);
    Ok((replies?, given))
}

fn counts_in<Rt: Threads + Wait + Sync>(
    rt: &Rt,
    alloc: Global,
    row: &mut Row,
    searches: u32,
) -> Result<u32, Fail> {
    add_counts(&mut row.schedule, searches)?;
    row.lines_with(rt, alloc, "\"num_hits\":1,")
}

// Whether a number is greater than another one, by so much at most.
fn is_more(before: u64, number: u64, most: u64) -> bool {
    before < number && number <= before.saturating_add(most)
}

// So few bytes of split files are asked of the store where `serve` counts a word, and again.
#[test]
fn a_count_on_serve_fetches_little(rt: HostRuntime) -> Result<(), Fail> {
    let alloc = rt.alloc();
    let (none, before) = counts_served(&rt, alloc, 0)?;
    let (first, once) = counts_served(&rt, alloc, 1)?;
    let (second, twice) = counts_served(&rt, alloc, 2)?;
    assert_eq!(rt; [none, first, second], [0, 1, 2]);
    assert!(rt; is_more(before, once, 79));
    assert!(rt; is_more(once, twice, 45));
    Ok(())
}

// A log of forty records, each of some five hundred bytes and of a level of its own.
fn add_levels(alloc: Global, logs: &mut Vec<MemoryLog>) -> Result<(), Fail> {
    add_log(alloc, logs)?;
    for level in 10..50u32 {
        let level = format!(in alloc; "p0 {{\"level\":\"{level}\",\"body\":\"")?;
        let mut record = Vec::new(alloc);
        add_text(&mut record, level.as_str())?;
        add_long(&mut record, "500")?;
        add_text(&mut record, "\"}")?;
        add_record(alloc, logs, str::from_utf8(record.as_slice()).unwrap_or(""))?;
    }
    Ok(())
}

const PAGE: &str =
    "client a {\"search\":{\"query\":\"*\",\"sort_by\":\"level\",\"max_hits\":2}}\nclient a\nclient a\nclient a\n";

// What `serve` does of so many searches for a page of two of these records: how many replies find all forty, and how many bytes the
// store gave of split files.
fn pages_served<Rt: Threads + Wait + Sync>(
    rt: &Rt,
    alloc: Global,
    searches: u32,
) -> Result<(u32, u64), Fail> {
    let mut row = Row::begin(alloc, "a page")?;
    let replies = pages_in(rt, alloc, &mut row, searches);
    let given = row.store.given;
    mem::drop(row);
    Ok((replies?, given))
}

fn pages_in<Rt: Threads + Wait + Sync>(
    rt: &Rt,
    alloc: Global,
    row: &mut Row,
    searches: u32,
) -> Result<u32, Fail> {
    add_counts(&mut row.schedule, 0)?;
    for _ in 0..searches {
        add_text(&mut row.schedule, PAGE)?;
    }
    add_levels(alloc, &mut row.logs)?;
    let ended = row.does(rt, alloc)?;
    let replies = lines_with(ended.written(), "\"num_hits\":40,");
    mem::drop(ended);
    Ok(replies)
}

// The split has more than 20,000 bytes of documents. For a page of two in the order of a column so few are fetched: the two
// documents and where they stand, the footer and the column.
#[test]
fn a_page_on_serve_fetches_its_documents(rt: HostRuntime) -> Result<(), Fail> {
    let alloc = rt.alloc();
    let (none, before) = pages_served(&rt, alloc, 0)?;
    let (first, once) = pages_served(&rt, alloc, 1)?;
    assert_eq!(rt; [none, first], [0, 1]);
    assert!(rt; is_more(before, once, 3000));
    Ok(())
}
