//! The configurations that lines name.

/// No fields.
const NONE: &str = "index_id='none'\n[doc_mapping]\nmode='lenient'\nfield_mappings=[]";

/// body, a text with positions, and level, a fast raw text and a tag.
const TWO: &str =
    "index_id='two'\n[doc_mapping]\nmode='lenient'\ntag_fields=['level']\nfield_mappings=[{name='body',type='text',record='position'},{name='level',type='text',tokenizer='raw',fast=true}]";

/// The same and n, a number that is a tag, and ts, the timestamp.
const TIMED: &str =
    "index_id='timed'\n[doc_mapping]\nmode='lenient'\ntimestamp_field='ts'\ntag_fields=['level','n']\nfield_mappings=[{name='body',type='text',record='position'},{name='level',type='text',tokenizer='raw',fast=true},{name='n',type='u64',fast=true},{name='ts',type='datetime',fast=true}]";

/// body, a text with positions and the default field; level, a fast raw text; size, a fast number; ts, the timestamp.
const LOGS: &str =
    "index_id='logs'\n[doc_mapping]\nmode='strict'\ntimestamp_field='ts'\nfield_mappings=[{name='body',type='text',record='position'},{name='level',type='text',tokenizer='raw',fast=true},{name='size',type='i64',fast=true},{name='ts',type='datetime',fast=true}]\n[search_settings]\ndefault_search_fields=['body']";

/// The text of the configuration with this name.
pub fn config_text(name: &str) -> &'static str {
    match name {
        "logs" => LOGS,
        "two" => TWO,
        "timed" => TIMED,
        _ => NONE,
    }
}
