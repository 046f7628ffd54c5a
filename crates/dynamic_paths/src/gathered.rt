ghost use Rattle.std.specs.Prelude.{◌≡◌, OnOk};
ghost use Rattle.dynamic_paths.specs.Walk as spec;

use crate::fault::LeafFault;
use crate::leaf::{fits, leaf_text};
use doc_value::{List, Text};
use std::alloc::{AllocError, Global};

/// How many leaves a record may have, also those whose leaf text is dropped.
pub const MAX_LEAVES: usize = 65_536;

/// Leaf texts, in the order in which their leaves stand in a record.
pub type Leaves = List<Text>;

/// The leaf texts that fit, so far, and how many leaves there were.
#[derive(Drop)]
pub struct Gathered {
    pub texts: Leaves,
    pub count: usize,
}

impl Gathered {
    pub fn none(alloc: Global) -> Gathered
        ensures { result ≡ spec.nothing }
    {
        Gathered {
            texts: Leaves::vacant(alloc),
            count: 0,
        }
    }

    /// Counts a leaf, and keeps its leaf text if it fits. Past the most leaves no text is kept.
    pub fn note(&mut self, alloc: Global, path: &str, text: &str) -> Result<(), AllocError>
        ensures { OnOk result (self.new ≡ spec.noted (path.now, text.now) self.old) }
    {
        if self.count < MAX_LEAVES && fits(path, text) {
            self.texts.push(leaf_text(alloc, path, text)?)?;
        }
        self.count = self.count.saturating_add(1);
        Ok(())
    }

    pub fn finish(self) -> Result<Leaves, LeafFault>
        ensures { result ≡ spec.finished self }
    {
        let Gathered { texts, count } = self;
        if count > MAX_LEAVES {
            return Err(LeafFault::TooManyLeaves { count });
        }
        Ok(texts)
    }
}
