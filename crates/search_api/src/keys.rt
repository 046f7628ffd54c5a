//! Which keys stand where in a request.

ghost use Rattle.std.specs.Prelude.{◌≡◌};
ghost use Rattle.std.specs.Str.{bytes_eq};
ghost use Rattle.search_api.specs.Keys as spec;

/// Which kind an aggregation has.
#[derive(Clone, Copy)]
pub enum AggKind {
    DateHistogram,
    Histogram,
    Max,
    Min,
    Range,
    Sum,
    Terms,
    ValueCount,
}

/// The kinds of aggregations, in byte order of their keys.
pub const ALL_KINDS: [AggKind; 8] = [
    AggKind::DateHistogram,
    AggKind::Histogram,
    AggKind::Max,
    AggKind::Min,
    AggKind::Range,
    AggKind::Sum,
    AggKind::Terms,
    AggKind::ValueCount,
];

/// The key under which a kind stands.
pub fn key_of(kind: AggKind) -> &'static str
    ensures { result.now ≡ spec.key_of kind }
{
    match kind {
        AggKind::DateHistogram => "date_histogram",
        AggKind::Histogram => "histogram",
        AggKind::Max => "max",
        AggKind::Min => "min",
        AggKind::Range => "range",
        AggKind::Sum => "sum",
        AggKind::Terms => "terms",
        AggKind::ValueCount => "value_count",
    }
}

/// The objects of a request.
#[derive(Clone, Copy)]
pub enum KeyPlace {
    /// The whole, where a search is asked.
    AroundSearch,
    /// The whole, where a delete is asked.
    AroundDelete,
    Search,
    Delete,
    /// An aggregation that has no nested ones.
    Aggregation,
    /// An aggregation with buckets, which may have nested ones.
    Nesting,
    Kind(AggKind),
    /// One of the ranges.
    Edges,
}

fn is_same(key: &[u8], word: &[u8]) -> bool
    ensures { result ≡ bytes_eq key.now word.now }
{
    key == word
}

fn is_selection_key(key: &[u8]) -> bool
    ensures { result ≡ spec.is_selection_key key.now }
{
    is_same(key, b"query")
        || is_same(key, b"search_field")
        || is_same(key, b"start_timestamp")
        || is_same(key, b"end_timestamp")
}

fn is_search_key(key: &[u8]) -> bool
    ensures { result ≡ spec.is_search_key key.now }
{
    is_selection_key(key)
        || is_same(key, b"start_offset")
        || is_same(key, b"max_hits")
        || is_same(key, b"sort_by")
        || is_same(key, b"aggs")
}

fn is_bucket_key(key: &[u8]) -> bool
    ensures { result ≡ spec.is_bucket_key key.now }
{
    is_same(key, b"terms")
        || is_same(key, b"histogram")
        || is_same(key, b"date_histogram")
        || is_same(key, b"range")
}

fn is_metric_key(key: &[u8]) -> bool
    ensures { result ≡ spec.is_metric_key key.now }
{
    is_same(key, b"min")
        || is_same(key, b"max")
        || is_same(key, b"sum")
        || is_same(key, b"value_count")
}

fn is_kind_key(key: &[u8]) -> bool
    ensures { result ≡ spec.is_kind_key key.now }
{
    is_bucket_key(key) || is_metric_key(key)
}

fn is_terms_key(key: &[u8]) -> bool
    ensures { result ≡ spec.is_terms_key key.now }
{
    is_same(key, b"field") || is_same(key, b"size")
}

fn is_histogram_key(key: &[u8]) -> bool
    ensures { result ≡ spec.is_histogram_key key.now }
{
    is_same(key, b"field")
        || is_same(key, b"interval")
        || is_same(key, b"offset")
        || is_same(key, b"min_doc_count")
}

fn is_date_histogram_key(key: &[u8]) -> bool
    ensures { result ≡ spec.is_date_histogram_key key.now }
{
    is_same(key, b"field")
        || is_same(key, b"fixed_interval")
        || is_same(key, b"offset")
        || is_same(key, b"min_doc_count")
}

fn is_range_key(key: &[u8]) -> bool
    ensures { result ≡ spec.is_range_key key.now }
{
    is_same(key, b"field") || is_same(key, b"ranges")
}

fn is_key_in(kind: AggKind, key: &[u8]) -> bool
    ensures { result ≡ spec.is_key_in kind key.now }
{
    match kind {
        AggKind::DateHistogram => is_date_histogram_key(key),
        AggKind::Histogram => is_histogram_key(key),
        AggKind::Range => is_range_key(key),
        AggKind::Terms => is_terms_key(key),
        AggKind::Max | AggKind::Min | AggKind::Sum | AggKind::ValueCount => is_same(key, b"field"),
    }
}

/// Whether a key stands at this place.
pub fn is_known(place: KeyPlace, key: &[u8]) -> bool
    ensures { result ≡ spec.is_known place key.now }
{
    match place {
        KeyPlace::AroundSearch => is_same(key, b"search"),
        KeyPlace::AroundDelete => is_same(key, b"delete"),
        KeyPlace::Search => is_search_key(key),
        KeyPlace::Delete => is_selection_key(key),
        KeyPlace::Aggregation => is_kind_key(key),
        KeyPlace::Nesting => is_kind_key(key) || is_same(key, b"aggs"),
        KeyPlace::Kind(kind) => is_key_in(kind, key),
        KeyPlace::Edges => is_same(key, b"from") || is_same(key, b"to"),
    }
}
