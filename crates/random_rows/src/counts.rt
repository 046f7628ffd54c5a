//! What schedules came to.

/// How much of each thing there was.
#[derive(Clone, Copy)]
pub struct Counts {
    pub entries: u64,
    pub answers: u64,
    pub faults: u64,
    pub merges: u64,
    pub deletes: u64,
    pub raises: u64,
    /// Rows that took the place of another one without what tasks remove.
    pub removals: u64,
    pub documents: u64,
    pub removed: u64,
    /// Schedules in which a document was removed and another one was left.
    pub parted: u64,
}

impl Counts {
    pub fn none() -> Counts {
        Counts {
            entries: 0,
            answers: 0,
            faults: 0,
            merges: 0,
            deletes: 0,
            raises: 0,
            removals: 0,
            documents: 0,
            removed: 0,
            parted: 0,
        }
    }

    pub fn add(&mut self, more: &Counts) {
        self.entries = self.entries.saturating_add(more.entries);
        self.answers = self.answers.saturating_add(more.answers);
        self.faults = self.faults.saturating_add(more.faults);
        self.merges = self.merges.saturating_add(more.merges);
        self.deletes = self.deletes.saturating_add(more.deletes);
        self.raises = self.raises.saturating_add(more.raises);
        self.removals = self.removals.saturating_add(more.removals);
        self.documents = self.documents.saturating_add(more.documents);
        self.removed = self.removed.saturating_add(more.removed);
        self.parted = self.parted.saturating_add(more.parted);
    }
}
