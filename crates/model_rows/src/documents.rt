//! Configurations, records, tokens and datetimes.

pub mod answers;
mod dates;
mod records;
mod tokens;
