//! Counts, sums and extremes of whole numbers, which are added one at a time or in parts.
#![tactic(auto)]

mod laws;
pub mod metric_part;

pub use laws::few_have_room;
pub use metric_part::MetricPart;
