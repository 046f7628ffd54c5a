//! The fields of aggregations.

ghost use Rattle.std.specs.Prelude.{◌≡◌, IfOk};
ghost use Rattle.agg_nested.specs.Checking.{field_of};
ghost use Rattle.doc_tallies.specs.AggColumns.{fields_of};

use agg_model::Agg;
use agg_nested::{FlatAgg, NestedAgg};
use std::alloc::{AllocError, Global};

// The field that an aggregation is over.
fn field_of(agg: &FlatAgg) -> u32
    ensures { result ≡ field_of agg.now }
{
    match agg {
        FlatAgg::Counted(Agg::Terms { field, .. } | Agg::Histogram { field, .. }) => *field,
        FlatAgg::Metric { field, .. } | FlatAgg::Ranges { field, .. } => *field,
    }
}

/// Its field, then those of its nested ones, in order.
pub(crate) fn fields_of(alloc: Global, asked: &NestedAgg) -> Result<Vec<u32>, AllocError>
    ensures { IfOk result (λ fields. fields.items ≡ fields_of asked.now) }
{
    let mut fields = Vec::new(alloc);
    fields.push(field_of(&asked.agg))?;
    for named in asked.nested.as_slice() {
        fields.push(field_of(&named.agg))?;
    }
    Ok(fields)
}
