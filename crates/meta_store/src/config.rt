//! What is kept of the configuration, and what the readers of texts say of an entry.

use byte_fields::{Bytes, Text, Texts};
use index_config::{ConfigError, IndexConfig};
use query_ast::Query;
use query_reader::QueryError;
use std::marker::Model;

/// What a configuration says: the configuration that was read and, where there is one, the age in seconds at which
/// documents are retired.
#[derive(Drop)]
pub struct Settings {
    pub index: IndexConfig,
    pub period: Option<u64>,
}

/// The bytes of a configuration as they were given, with what they say.
#[derive(Drop)]
pub struct Config {
    pub text: Bytes,
    pub settings: Settings,
}

/// A task as it was asked for: the text of its query, and the paths of its default fields.
#[derive(Drop)]
pub struct TaskAsk {
    pub text: Text,
    pub fields: Texts,
}

/// What the readers of texts say of one entry: of a Create what its configuration says, or what is wrong with its
/// bytes; of a Task its query, read under the configuration so far with its fields as default fields, or why there
/// is none. Of other entries nothing is read, and what stands here is not looked at. A reader that found no memory
/// has said nothing: its caller answers that, and does not hand it in here.
#[derive(Drop)]
pub struct Reading {
    pub config: Result<Settings, ConfigError>,
    pub query: Result<Query, QueryError>,
}

impl Model for Reading {
    ghost use Rattle.std.specs.Coded.{codes, Coded};
    ghost use Rattle.std.specs.Prelude.{List};
    ghost use Rattle.delete_tasks.specs.Stored.{sought_code, Mark};
    ghost use Rattle.meta_store.specs.Said.{Said, sought_in};

    ghost Value = { Said };

    ghost coded = { let stored : Coded (List Mark) = Prim.hlevel codes in Prim.hlevel (codes, sought_code stored) };

    ghost view = { λ r. record { config = r.config; query = sought_in r.query } };
}
