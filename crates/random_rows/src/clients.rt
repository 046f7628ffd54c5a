//! What clients asked, and what they were answered.

use crate::asked::Asked;
use crate::plain::Plain;
use crate::shown::Shown;
use crate::wrong::Wrong;
use meta_journal::{Act, Entry};
use std::alloc::Global;
use std::mem;

/// The name of the client with a number.
pub fn name_of(number: usize) -> &'static str {
    match number {
        0 => "a",
        1 => "b",
        _ => "c",
    }
}

/// A request.
#[derive(Clone, Copy)]
pub enum Request {
    Search(Asked),
    Delete(Asked),
}

// A client: the request that it waits for, and the last revision that it saw.
#[derive(Clone, Copy)]
struct Asker {
    waits: Option<Request>,
    seen: u64,
}

// An answer: to which client, of what it asked, and its text.
#[derive(Drop)]
struct Answer {
    number: usize,
    asked: Asked,
    revision: u64,
    text: String,
}

// A delete that was answered: the task that it is said to be, and the number of entries up to it.
#[derive(Drop)]
struct Deleted {
    asked: Asked,
    opstamp: u64,
    revision: u64,
    text: String,
}

/// What clients asked, what they saw, and all answers.
#[derive(Drop)]
pub struct Clients {
    alloc: Global,
    askers: [Asker; 3],
    answers: Vec<Answer>,
    deleted: Vec<Deleted>,
    // Each delete that was asked for, answered or not.
    deletes: Vec<Asked>,
    deletion_grace: u64,
    /// How many answers were errors of the store, or came too late.
    pub failed: u64,
}

// The number behind a word of an answer.
fn number_behind(text: &str, word: &str) -> Option<u64> {
    let (_, behind) = text.split_once(word)?;
    let end = behind
        .find(|sign: char| !sign.is_ascii_digit())
        .unwrap_or(behind.len());
    let (digits, _) = behind.split_at_checked(end)?;
    digits.parse::<u64>().ok()
}

impl Clients {
    pub fn new(alloc: Global, deletion_grace: u64) -> Clients {
        let asker = Asker {
            waits: None,
            seen: 0,
        };
        Clients {
            alloc,
            askers: [asker; 3],
            answers: Vec::new(alloc),
            deleted: Vec::new(alloc),
            deletes: Vec::new(alloc),
            deletion_grace,
            failed: 0,
        }
    }

    /// How many searches were answered.
    pub fn answered(&self) -> usize {
        self.answers.len()
    }

    /// How many deletes were answered.
    pub fn deleted(&self) -> usize {
        self.deleted.len()
    }

    /// Drops what is asked, as a node does where it begins anew.
    pub fn restart(&mut self) {
        for asker in self.askers.iter_mut() {
            asker.waits = None;
        }
    }

    /// Drops what a client asks.
    pub fn restart_client(&mut self, number: usize) {
        if let Some(asker) = self.askers.get_mut(number) {
            asker.waits = None;
        }
    }

    /// The client asks, where it waits for nothing.
    pub fn ask(&mut self, number: usize, request: Request) -> Result<(), Wrong> {
        if let Some(asker) = self.askers.get_mut(number) {
            asker.waits = Some(request);
        }
        if let Request::Delete(asked) = request {
            self.deletes.push(asked)?;
        }
        Ok(())
    }

    // An answer that is an error: of the store, or because it came too late.
    fn take_error(&mut self, text: &str) -> Result<(), Wrong> {
        self.failed = self.failed.saturating_add(1);
        if text.contains("\"kind\":\"StoreFault\"") {
            return Ok(());
        }
        let planned = number_behind(text, "\"planned_at\":");
        let now = number_behind(text, "\"now\":");
        match (planned, now) {
            (Some(planned), Some(now))
                if text.contains("\"kind\":\"Expired\"")
                    && planned.saturating_add(self.deletion_grace) <= now => { Ok(()) }
            _ => Err(Wrong::seen(self.alloc, "answered", text)),
        }
    }

    /// Takes an answer to a client. What it found is judged when the whole journal is known.
    pub fn take(&mut self, number: usize, text: String) -> Result<(), Wrong> {
        let Some(asker) = self.askers.get_mut(number) else {
            return Ok(());
        };
        let Some(request) = mem::replace(&mut asker.waits, None) else {
            return Err(Wrong::seen(self.alloc, "not asked:", text.as_str()));
        };
        let Some(revision) = number_behind(text.as_str(), "\"revision\":") else {
            return Err(Wrong::seen(self.alloc, "without a revision:", text.as_str()));
        };
        if text.contains("\"error\":") {
            return self.take_error(text.as_str());
        }
        let first = match request {
            Request::Search(_) => asker.seen,
            Request::Delete(_) => asker.seen.saturating_add(1),
        };
        if revision < first {
            return Err(Wrong::seen(self.alloc, "older than what was seen:", text.as_str()));
        }
        asker.seen = revision;
        self.keep(number, request, revision, text)
    }

    fn keep(
        &mut self,
        number: usize,
        request: Request,
        revision: u64,
        text: String,
    ) -> Result<(), Wrong> {
        match request {
            Request::Search(asked) => self.answers.push(Answer {
                number,
                asked,
                revision,
                text,
            })?,
            Request::Delete(asked) => self.keep_delete(number, asked, revision, text)?,
        }
        Ok(())
    }

    // The answer to a delete has the client, the opstamp and the revision, and nothing else.
    fn keep_delete(
        &mut self,
        number: usize,
        asked: Asked,
        revision: u64,
        text: String,
    ) -> Result<(), Wrong> {
        let name = name_of(number);
        let opstamp = number_behind(text.as_str(), "\"opstamp\":").unwrap_or(0);
        let wanted = format!(in self.alloc;
            "{{\"client\":\"{name}\",\"opstamp\":{opstamp},\"revision\":{revision}}}"
        )?;
        if wanted.as_str() != text.as_str() {
            return Err(Wrong::seen(self.alloc, "no answer to a delete:", text.as_str()));
        }
        self.deleted.push(Deleted {
            asked,
            opstamp,
            revision,
            text,
        })?;
        Ok(())
    }

    /// Whether each answer is the one that the plain list gives at its revision, and each task was asked for.
    pub fn judge(&self, plain: &Plain, entries: &[Entry]) -> Result<(), Wrong> {
        for answer in self.answers.as_slice() {
            self.judge_answer(plain, entries, answer)?;
        }
        let shown = Shown::by(self.alloc, entries)?;
        for deleted in self.deleted.as_slice() {
            self.judge_delete(&shown, entries, deleted)?;
        }
        for opstamp in 1..shown.kinds.deletes.saturating_add(1) {
            self.judge_task(&shown, opstamp)?;
        }
        Ok(())
    }

    fn judge_answer(&self, plain: &Plain, entries: &[Entry], answer: &Answer) -> Result<(), Wrong> {
        let Some(first) = entries.get(..answer.revision as usize) else {
            return Err(Wrong::seen(self.alloc, "behind the journal:", answer.text.as_str()));
        };
        let shown = Shown::by(self.alloc, first)?;
        let found = plain.found(&shown, answer.asked)?;
        let (hits, count) = (found.text.as_str(), found.count);
        let (name, revision) = (name_of(answer.number), answer.revision);
        let wanted = format!(in self.alloc;
            "{{\"aggregations\":{{}},\"client\":\"{name}\",\"hits\":[{hits}],\"num_hits\":{count},\"revision\":{revision}}}"
        )?;
        if wanted.as_str() != answer.text.as_str() {
            let both = format!(in self.alloc; "{wanted} was wanted, and answered")?;
            return Err(Wrong::seen(self.alloc, both.as_str(), answer.text.as_str()));
        }
        Ok(())
    }

    // The last entry of a delete's revision is its task, which asks for what the client did.
    fn judge_delete(
        &self,
        shown: &Shown,
        entries: &[Entry],
        deleted: &Deleted,
    ) -> Result<(), Wrong> {
        let place = deleted.revision.saturating_sub(1) as usize;
        let is_task = match entries.get(place) {
            Some(entry) => {
                matches!(&entry.act, Act::Task { opstamp, .. } if *opstamp == deleted.opstamp)
            }
            None => false,
        };
        let is_asked = match shown.task(deleted.opstamp) {
            Some(asked) => asked == deleted.asked,
            None => false,
        };
        if is_task && is_asked {
            Ok(())
        } else {
            Err(Wrong::seen(self.alloc, "not the task:", deleted.text.as_str()))
        }
    }

    fn judge_task(&self, shown: &Shown, opstamp: u64) -> Result<(), Wrong> {
        let is_asked = match shown.task(opstamp) {
            Some(task) => self.deletes.iter().any(|asked| *asked == task),
            None => false,
        };
        if is_asked {
            return Ok(());
        }
        let text = format!(in self.alloc; "{opstamp}")?;
        Err(Wrong::seen(self.alloc, "nobody asked for task", text.as_str()))
    }
}
