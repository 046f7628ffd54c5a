// Laws of replies, over their definitions alone.

ghost use Rattle.std.specs.Prelude.{List};
ghost use Rattle.agg_model.specs.declared.answer.Bucket.{Bucket};
ghost use Rattle.agg_nested.specs.declared.answer.RangeBucket.{RangeBucket};
ghost use Rattle.search_api.specs.declared.bucket_pairs.Pair.{Pair};
ghost use Rattle.search_api.specs.Replies.{among, range_pairs, value_pairs, StandInOrder};

/// The keys of a bucket, its own and the names of its nested answers.
pub fn keys_stand_in_order()
    // They are in byte order together where those names are.
    ensures values { (b : Bucket) (nested : List Pair) → StandInOrder nested → StandInOrder (among (value_pairs b) nested) }
    ensures ranges { (b : RangeBucket) (nested : List Pair) → StandInOrder nested → StandInOrder (among (range_pairs b) nested) }
{}
