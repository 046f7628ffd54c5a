//! The answer of one split to a search, from its dictionary, its lists and its columns.
#![tactic(auto)]

mod bit_words;
mod bits;
mod dictionary_lookup;
mod distances;
mod key_walks;
mod laws;
mod leaf_error;
mod lists;
mod lookups;
mod phrases;
mod places;
mod sets;
mod text_lookups;
mod texts;
mod value_columns;
mod values;
mod wanted;
mod words;

pub use bits::DocBits;
pub use dictionary_lookup::{Lookup, Lookups};
pub use key_walks::prefix_documents;
pub use laws::{
    each_by_keys, phrase_by_keys, prefix_by_dictionary, prefix_by_keys, presence_by_keys,
    value_by_keys, word_by_keys,
};
pub use leaf_error::LeafError;
pub use lookups::term_at;
pub use sets::{add_other, all_documents, keep_both, no_documents, take_others};
pub use text_lookups::{
    add_items, add_text, one_token, prefix_lookup, presence_lookup, range_lookup,
};
pub use texts::{quoted_documents, some_documents, word_documents};
pub use value_columns::range_documents;
pub use values::present_documents;
pub use wanted::{NumberRange, Wanted};
