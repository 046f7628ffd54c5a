ghost use Rattle.std.specs.Prelude.{◌≡◌, IfOk, Ok, Err, None, Some, MatchResult, slice_get};
ghost use Rattle.toml.specs.View.{view};
ghost use Rattle.index_config.specs.Answer.{config_answer, read_answer, IsMemory};
ghost use Rattle.index_config.specs.Tables.{table_faults};
ghost use Rattle.index_config.specs.Fields.{all_raws, whole_faults};

use crate::building::config_of;
use crate::config::IndexConfig;
use crate::config_error::ConfigError;
use crate::fields::{dynamic_raws, push_fields};
use crate::raw::{Faults, RawField, RawFields};
use crate::tables::{MAX_LEVELS, check_tables};
use crate::whole::{check_whole, mapping_items, mode_of};
use doc_value::Text;
use std::alloc::{AllocError, Global};
use std::{mem, str};
use toml::Value;

/// The configuration of a TOML text, or the first thing that is wrong with it.
pub fn read_config(alloc: Global, text: &[u8]) -> Result<IndexConfig, ConfigError>
    ensures { MatchResult result
        (λ config. config_answer text.now ≡ Ok config)
        (λ refusal. ¬ IsMemory refusal → config_answer text.now ≡ Err refusal) }
{
    let Ok(text) = str::from_utf8(text) else {
        return Err(ConfigError::NotToml);
    };
    match toml::table_from_str(alloc, text) {
        Ok(table) => read_root(alloc, &Value::Table(table)),
        Err(error) => {
            if error.is_memory() {
                Err(ConfigError::Memory(AllocError))
            } else {
                Err(ConfigError::NotToml)
            }
        }
    }
}

fn read_root(alloc: Global, root: &Value) -> Result<IndexConfig, ConfigError>
    ensures { MatchResult result
        (λ config. read_answer (Some (view root.now)) ≡ Ok config)
        (λ refusal. ¬ IsMemory refusal → read_answer (Some (view root.now)) ≡ Err refusal) }
{
    match first_in_tables(alloc, root) {
        Ok(None) => read_fields(alloc, root),
        Ok(Some(fault)) => Err(fault),
        Err(error) => Err(ConfigError::Memory(error)),
    }
}

/// The first thing that is wrong with the tables. Behind it the names of fields are of their form, and no longer than that allows.
fn first_in_tables(alloc: Global, root: &Value) -> Result<Option<ConfigError>, AllocError>
    ensures { IfOk result (λ fault. fault ≡ slice_get (table_faults (view root.now)) 0) }
{
    let mut faults = Faults::vacant(alloc);
    match check_tables(alloc, &mut faults, root) {
        Ok(()) => Ok(faults.into_first()),
        Err(error) => {
            mem::drop(faults);
            Err(error)
        }
    }
}

/// The configuration of tables with which nothing is wrong, or the first thing that is wrong with it as a whole.
fn read_fields(alloc: Global, root: &Value) -> Result<IndexConfig, ConfigError>
    requires { slice_get (table_faults (view root.now)) 0 ≡ None }
    ensures { MatchResult result
        (λ config. read_answer (Some (view root.now)) ≡ Ok config)
        (λ refusal. ¬ IsMemory refusal → read_answer (Some (view root.now)) ≡ Err refusal) }
{
    let raws = raws_of(alloc, root)?;
    match first_of_whole(alloc, root, raws.as_slice()) {
        Ok(None) => Ok(config_of(alloc, root, raws)?),
        Ok(Some(fault)) => {
            mem::drop(raws);
            Err(fault)
        }
        Err(error) => {
            mem::drop(raws);
            Err(ConfigError::Memory(error))
        }
    }
}

/// The first thing that is wrong with a configuration of these fields as a whole.
fn first_of_whole(
    alloc: Global,
    root: &Value,
    raws: &[RawField],
) -> Result<Option<ConfigError>, AllocError>
    ensures { IfOk result (λ fault. fault ≡ slice_get (whole_faults (view root.now) raws.now) 0) }
{
    let mut faults = Faults::vacant(alloc);
    match check_whole(alloc, &mut faults, root, raws) {
        Ok(()) => Ok(faults.into_first()),
        Err(error) => {
            mem::drop(faults);
            Err(error)
        }
    }
}

/// The fields and objects of a configuration in reading order, behind the field that its mode adds.
fn raws_of(alloc: Global, root: &Value) -> Result<RawFields, AllocError>
    ensures { IfOk result (λ raws. raws ≡ all_raws (view root.now)) }
{
    let place = Text::from_str(alloc, "doc_mapping.field_mappings")?;
    let path = Text::vacant(alloc);
    let items = mapping_items(root, "field_mappings");
    let mut raws = dynamic_raws(alloc, mode_of(root))?;
    let pushed = push_fields(alloc, &mut raws, MAX_LEVELS, &place, &path, items);
    mem::drop(place);
    mem::drop(path);
    match pushed {
        Ok(()) => Ok(raws),
        Err(error) => {
            mem::drop(raws);
            Err(error)
        }
    }
}
