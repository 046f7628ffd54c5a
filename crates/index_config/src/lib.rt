//! The configuration of an index.
#![tactic(auto)]

mod building;
mod checks;
pub mod config;
pub mod config_error;
mod durations;
mod fields;
mod keys;
pub mod laws;
pub mod lists;
mod names;
pub mod raw;
mod reading;
pub mod rule;
mod tables;
mod whole;

pub use config::{Formats, IndexConfig, Mode, Policy};
pub use config_error::ConfigError;
pub use lists::{FieldFormats, FieldNumbers};
pub use reading::read_config;
