//! What stands in a record at paths that no field has, and the texts under which a dynamic index lists it.
#![tactic(auto)]

pub mod fault;
mod gathered;
pub mod laws;
mod leaf;
mod mapped;
mod walk;

pub use fault::LeafFault;
pub use gathered::{Leaves, MAX_LEAVES};
pub use leaf::{MAX_LEAF_TEXT, leaf_text};
pub use mapped::{is_dynamic, is_object};
pub use walk::leaves;
