//! Laws of documents: in what is printed keys rise, and it reads back; how heavy the document of a record is.
#![tactic(auto)]

mod laws;
mod weights;

pub use laws::{printing_laws, record_laws};
pub use weights::{number_laws, weight_laws};
