ghost use Rattle.std.specs.Prelude.{◌≡◌, Ok, Err, MatchResult};
ghost use Rattle.doc_mapping.specs.Answer.{answer, IsMemory};

use crate::accepting::accept_by;
use crate::finder::Finder;
use crate::reject::Reject;
use doc_value::Doc;
use index_config::IndexConfig;
use std::alloc::Global;
use std::marker::Model;

/// A configuration whose paths were looked at once, for many records.
#[derive(Drop)]
pub struct Mapping {
    config: IndexConfig,
    finder: Finder,
}

impl Model for Mapping {
    ghost use Rattle.std.specs.Prelude.{IsTrue};
    ghost use Rattle.doc_mapping.specs.Walk.{AreFlat, AreRegular};
    ghost use Rattle.index_config.specs.declared.config.IndexConfig.{IndexConfig};

    ghost Value = { IndexConfig };

    ghost view = { λ m. m.config };

    ghost invariant = { λ m. (IsTrue m.finder.regular → AreRegular m.config.schema.fields) × (IsTrue m.finder.flat → AreFlat m.config.schema.fields) };
}

impl Mapping {
    pub fn new(config: IndexConfig) -> Mapping
        ensures { result ≡ config }
    {
        let finder = Finder::for_many(&config.schema.fields);
        Mapping { config, finder }
    }

    pub fn config(&self) -> &IndexConfig
        ensures { result.now ≡ self.now }
    {
        &self.config
    }

    /// The document of a record, or the first refusal, as `accept` gives them.
    pub fn accept(&self, alloc: Global, bytes: &[u8]) -> Result<Doc, Reject>
        ensures { MatchResult result
            (λ doc. answer self.now bytes.now ≡ Ok doc)
            (λ refusal. ¬ IsMemory refusal → answer self.now bytes.now ≡ Err refusal) }
    {
        accept_by(alloc, &self.config, &self.finder, bytes)
    }
}
