//! What columns and documents say of some documents of a split: aggregations, times and the first hits.
#![tactic(auto)]

mod by_column;
mod classes;
mod column_values;
mod columns;
mod each;
mod field_column;
mod fields;
mod first_values;
mod hit_order;
mod hits;
mod laws;
mod least;
mod metric;
mod near;
mod order;
mod partials;
mod places;
mod repeats;
mod span;
mod tables;
mod times;

pub use hit_order::HitOrder;
pub use hits::first_hits;
pub use laws::{merged_firsts, shares_suffice};
pub use near::near_of;
pub use order::comes_before;
pub use partials::partial_of;
pub use repeats::valueless_partial;
pub use times::within_times;
