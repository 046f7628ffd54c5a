//! The rows of searches, in the words of the script.

pub const SEARCH_ROWS: &str = r#"row a histogram has its empty buckets, and refusals of aggregations
vacant
command create
> version = "0.9"
> index_id = "logs"
> [doc_mapping]
> mode = "strict"
> [[doc_mapping.field_mappings]]
> name = "body"
> type = "text"
> record = "position"
> [[doc_mapping.field_mappings]]
> name = "level"
> type = "text"
> tokenizer = "raw"
> fast = true
> [[doc_mapping.field_mappings]]
> name = "size"
> type = "i64"
> fast = true
> [indexing_settings.merge_policy]
> type = "stable_log"
> min_level_num_docs = 100
> merge_factor = 2
> max_merge_factor = 4
> [search_settings]
> default_search_fields = ["body"]
> [upkeep]
> staged_grace_secs = 200
> deletion_grace_secs = 100
< created
run 0
log
record p0 {"size":-1}
record p0 {"size":25}
> at 1000
> indexer 0
> indexer 0
> indexer 0
> indexer 0
> indexer 0
> client a {"search":{"query":"*","max_hits":0,"aggs":{"h":{"histogram":{"field":"size","interval":10}}}}}
> client a
> client a
> client a
> client a {"search":{"query":"*","aggs":{"h":{"histogram":{"field":"size","interval":0}}}}}
> client a
> client a {"search":{"query":"*","aggs":{"h":{"terms":{"field":"body"}}}}}
> client a
> client a {"search":{"query":"*","sort_by":"-size"}}
> client a
> client a
> client a
> client a {"search":{"query":"size:[0 TO *]","sort_by":"size","start_offset":1,"max_hits":1}}
> client a
> client a
> client a
< at 1000
< indexer 0 checkpoint
< indexer 0 read 2
< indexer 0 staged 1
< indexer 0 uploaded 1
< indexer 0 published 1
< a opened
< a planned 3 1
< a fetched 1
< {"aggregations":{"h":{"buckets":[{"doc_count":1,"key":-10},{"doc_count":0,"key":0},{"doc_count":0,"key":10},{"doc_count":1,"key":20}]}},"client":"a","hits":[],"num_hits":2,"revision":3}
< a opened
< {"client":"a","error":{"kind":"BadInterval","name":"h"},"revision":3}
< a opened
< {"client":"a","error":{"field":"body","kind":"NotFast"},"revision":3}
< a opened
< a planned 3 1
< a fetched 1
< {"aggregations":{},"client":"a","hits":[{"size":25},{"size":-1}],"num_hits":2,"revision":3}
< a opened
< a planned 3 1
< a fetched 1
< {"aggregations":{},"client":"a","hits":[],"num_hits":1,"revision":3}
run 0
row the greatest terms, ties by their bytes
vacant
command create
> version = "0.9"
> index_id = "logs"
> [doc_mapping]
> mode = "strict"
> [[doc_mapping.field_mappings]]
> name = "body"
> type = "text"
> record = "position"
> [[doc_mapping.field_mappings]]
> name = "level"
> type = "text"
> tokenizer = "raw"
> fast = true
> [[doc_mapping.field_mappings]]
> name = "size"
> type = "i64"
> fast = true
> [indexing_settings.merge_policy]
> type = "stable_log"
> min_level_num_docs = 100
> merge_factor = 2
> max_merge_factor = 4
> [search_settings]
> default_search_fields = ["body"]
> [upkeep]
> staged_grace_secs = 200
> deletion_grace_secs = 100
< created
run 0
log
record p0 {"level":"a"}
record p0 {"level":"a"}
record p0 {"level":"b"}
record p0 {"level":"c"}
record p0 {"level":"c"}
record p0 {"level":"d"}
> at 1000
> indexer 0
> indexer 0
> indexer 0
> indexer 0
> indexer 0
> client a {"search":{"query":"*","max_hits":0,"aggs":{"t":{"terms":{"field":"level","size":2}}}}}
> client a
> client a
> client a
> client a {"search":{"query":"*","max_hits":0,"aggs":{}}}
> client a
> client a
> client a
< at 1000
< indexer 0 checkpoint
< indexer 0 read 6
< indexer 0 staged 1
< indexer 0 uploaded 1
< indexer 0 published 1
< a opened
< a planned 3 1
< a fetched 1
< {"aggregations":{"t":{"buckets":[{"doc_count":2,"key":"a"},{"doc_count":2,"key":"c"}],"doc_count_error_upper_bound":0,"sum_other_doc_count":2}},"client":"a","hits":[],"num_hits":6,"revision":3}
< a opened
< a planned 3 1
< a fetched 1
< {"aggregations":{},"client":"a","hits":[],"num_hits":6,"revision":3}
run 0
row one bucket too many
vacant
command create
> version = "0.9"
> index_id = "logs"
> [doc_mapping]
> mode = "strict"
> [[doc_mapping.field_mappings]]
> name = "body"
> type = "text"
> record = "position"
> [[doc_mapping.field_mappings]]
> name = "level"
> type = "text"
> tokenizer = "raw"
> fast = true
> [[doc_mapping.field_mappings]]
> name = "size"
> type = "i64"
> fast = true
> [indexing_settings.merge_policy]
> type = "stable_log"
> min_level_num_docs = 100
> merge_factor = 2
> max_merge_factor = 4
> [search_settings]
> default_search_fields = ["body"]
> [upkeep]
> staged_grace_secs = 200
> deletion_grace_secs = 100
< created
run 0
log
record p0 {"size":0}
record p1 {"size":65000}
> at 1000
> indexer 0
> indexer 0
> indexer 0
> indexer 0
> indexer 0
> indexer 0
> client a {"search":{"query":"*","max_hits":0,"aggs":{"h":{"histogram":{"field":"size","interval":1}}}}}
> client a
> client a
> client a
< at 1000
< indexer 0 checkpoint
< indexer 0 read 1
< indexer 0 read 1
< indexer 0 staged 1
< indexer 0 uploaded 1
< indexer 0 published 1
< a opened
< a planned 3 1
< a fetched 1
< {"client":"a","error":{"count":65001,"kind":"TooManyBuckets"},"revision":3}
run 0
row nested buckets are counted too
vacant
command create
> version = "0.9"
> index_id = "logs"
> [doc_mapping]
> mode = "strict"
> [[doc_mapping.field_mappings]]
> name = "body"
> type = "text"
> record = "position"
> [[doc_mapping.field_mappings]]
> name = "level"
> type = "text"
> tokenizer = "raw"
> fast = true
> [[doc_mapping.field_mappings]]
> name = "size"
> type = "i64"
> fast = true
> [indexing_settings.merge_policy]
> type = "stable_log"
> min_level_num_docs = 100
> merge_factor = 2
> max_merge_factor = 4
> [search_settings]
> default_search_fields = ["body"]
> [upkeep]
> staged_grace_secs = 200
> deletion_grace_secs = 100
< created
run 0
log
record p0 {"level":"a","size":0}
record p1 {"level":"b","size":64999}
> at 1000
> indexer 0
> indexer 0
> indexer 0
> indexer 0
> indexer 0
> indexer 0
> client a {"search":{"query":"*","max_hits":0,"aggs":{"h":{"histogram":{"field":"size","interval":1},"aggs":{"t":{"terms":{"field":"level"}}}}}}}
> client a
> client a
> client a
< at 1000
< indexer 0 checkpoint
< indexer 0 read 1
< indexer 0 read 1
< indexer 0 staged 1
< indexer 0 uploaded 1
< indexer 0 published 1
< a opened
< a planned 3 1
< a fetched 1
< {"client":"a","error":{"count":65002,"kind":"TooManyBuckets"},"revision":3}
run 0
row metrics, ranges, and what is nested in buckets
vacant
command create
> version = "0.9"
> index_id = "logs"
> [doc_mapping]
> mode = "strict"
> [[doc_mapping.field_mappings]]
> name = "body"
> type = "text"
> record = "position"
> [[doc_mapping.field_mappings]]
> name = "level"
> type = "text"
> tokenizer = "raw"
> fast = true
> [[doc_mapping.field_mappings]]
> name = "size"
> type = "i64"
> fast = true
> [indexing_settings.merge_policy]
> type = "stable_log"
> min_level_num_docs = 100
> merge_factor = 2
> max_merge_factor = 4
> [search_settings]
> default_search_fields = ["body"]
> [upkeep]
> staged_grace_secs = 200
> deletion_grace_secs = 100
< created
run 0
log
record p0 {"level":"a","size":1}
record p0 {"level":"a","size":5}
record p0 {"level":"b","size":12}
> at 1000
> indexer 0
> indexer 0
> indexer 0
> indexer 0
> indexer 0
> client a {"search":{"query":"*","max_hits":0,"aggs":{"l":{"terms":{"field":"level"},"aggs":{"s":{"sum":{"field":"size"}},"m":{"max":{"field":"size"}}}}}}}
> client a
> client a
> client a
> client a {"search":{"query":"*","max_hits":0,"aggs":{"r":{"range":{"field":"size","ranges":[{"to":5},{"from":5,"to":12},{"from":12}]}}}}}
> client a
> client a
> client a
> client a {"search":{"query":"level:z","max_hits":0,"aggs":{"c":{"value_count":{"field":"size"}},"m":{"min":{"field":"size"}}}}}
> client a
> client a
> client a
> client a {"search":{"query":"*","max_hits":0,"aggs":{"h":{"histogram":{"field":"size","interval":4},"aggs":{"m":{"max":{"field":"size"}},"t":{"terms":{"field":"level"}}}}}}}
> client a
> client a
> client a
> client a {"search":{"query":"*","max_hits":0,"aggs":{"r":{"range":{"field":"size","ranges":[{"from":5}]},"aggs":{"f":{"min":{"field":"size"}},"z":{"sum":{"field":"size"}}}}}}}
> client a
> client a
> client a
> client a {"search":{"query":"*","aggs":{"l":{"terms":{"field":"level"},"aggs":{"key":{"sum":{"field":"size"}}}}}}}
> client a
> client a {"search":{"query":"*","aggs":{"l":{"terms":{"field":"level"},"aggs":{"s":{"sum":{"field":"level"}}}}}}}
> client a
> client a {"search":{"query":"*","aggs":{"s":{"sum":{"field":"body"}}}}}
> client a
> client a {"search":{"query":"*","aggs":{"r":{"range":{"field":"size","ranges":[{"from":5,"to":5}]}}}}}
> client a
> client a {"search":{"query":"*","aggs":{"s":{"sum":{"field":"size"},"aggs":{}}}}}
> client a
< at 1000
< indexer 0 checkpoint
< indexer 0 read 3
< indexer 0 staged 1
< indexer 0 uploaded 1
< indexer 0 published 1
< a opened
< a planned 3 1
< a fetched 1
< {"aggregations":{"l":{"buckets":[{"doc_count":2,"key":"a","m":{"value":5},"s":{"value":6}},{"doc_count":1,"key":"b","m":{"value":12},"s":{"value":12}}],"doc_count_error_upper_bound":0,"sum_other_doc_count":0}},"client":"a","hits":[],"num_hits":3,"revision":3}
< a opened
< a planned 3 1
< a fetched 1
< {"aggregations":{"r":{"buckets":[{"doc_count":1,"key":"*-5","to":5},{"doc_count":1,"from":5,"key":"5-12","to":12},{"doc_count":1,"from":12,"key":"12-*"}]}},"client":"a","hits":[],"num_hits":3,"revision":3}
< a opened
< a planned 3 1
< a fetched 1
< {"aggregations":{"c":{"value":0},"m":{"value":null}},"client":"a","hits":[],"num_hits":0,"revision":3}
< a opened
< a planned 3 1
< a fetched 1
< {"aggregations":{"h":{"buckets":[{"doc_count":1,"key":0,"m":{"value":1},"t":{"buckets":[{"doc_count":1,"key":"a"}],"doc_count_error_upper_bound":0,"sum_other_doc_count":0}},{"doc_count":1,"key":4,"m":{"value":5},"t":{"buckets":[{"doc_count":1,"key":"a"}],"doc_count_error_upper_bound":0,"sum_other_doc_count":0}},{"doc_count":0,"key":8,"m":{"value":null},"t":{"buckets":[],"doc_count_error_upper_bound":0,"sum_other_doc_count":0}},{"doc_count":1,"key":12,"m":{"value":12},"t":{"buckets":[{"doc_count":1,"key":"b"}],"doc_count_error_upper_bound":0,"sum_other_doc_count":0}}]}},"client":"a","hits":[],"num_hits":3,"revision":3}
< a opened
< a planned 3 1
< a fetched 1
< {"aggregations":{"r":{"buckets":[{"doc_count":2,"f":{"value":5},"from":5,"key":"5-*","z":{"value":17}}]}},"client":"a","hits":[],"num_hits":3,"revision":3}
< a opened
< {"client":"a","error":{"kind":"WrongKind","name":"key"},"revision":3}
< a opened
< {"client":"a","error":{"field":"level","kind":"NotFast"},"revision":3}
< a opened
< {"client":"a","error":{"field":"body","kind":"NotFast"},"revision":3}
< a opened
< {"client":"a","error":{"kind":"BadInterval","name":"r"},"revision":3}
< a opened
< {"client":"a","error":{"kind":"UnknownKey","name":"aggs"},"revision":3}
run 0
row what two splits count is joined, in each bucket too
vacant
command create
> version = "0.9"
> index_id = "logs"
> [doc_mapping]
> mode = "strict"
> [[doc_mapping.field_mappings]]
> name = "body"
> type = "text"
> record = "position"
> [[doc_mapping.field_mappings]]
> name = "level"
> type = "text"
> tokenizer = "raw"
> fast = true
> [[doc_mapping.field_mappings]]
> name = "size"
> type = "i64"
> fast = true
> [indexing_settings.merge_policy]
> type = "stable_log"
> min_level_num_docs = 100
> merge_factor = 2
> max_merge_factor = 4
> [search_settings]
> default_search_fields = ["body"]
> [upkeep]
> staged_grace_secs = 200
> deletion_grace_secs = 100
< created
run 0
log
record p0 {"level":"a","size":1}
record p0 {"level":"b","size":12}
record p1 {"level":"a","size":5}
log
record p0 {"level":"a","size":1}
record p0 {"level":"b","size":12}
record p1 {"level":"a","size":5}
> at 1000
> assign 0 p0
> assign 1 p1
> indexer 0
> indexer 0
> indexer 0
> indexer 0
> indexer 0
> indexer 1
> indexer 1
> indexer 1
> indexer 1
> indexer 1
> client a {"search":{"query":"*","max_hits":0,"aggs":{"c":{"value_count":{"field":"size"}},"l":{"terms":{"field":"level"},"aggs":{"s":{"sum":{"field":"size"}},"m":{"max":{"field":"size"}}}}}}}
> client a
> client a
> client a
> client a
< at 1000
< indexer 0 assigned 1
< indexer 1 assigned 1
< indexer 0 checkpoint
< indexer 0 read 2
< indexer 0 staged 1
< indexer 0 uploaded 1
< indexer 0 published 1
< indexer 1 checkpoint
< indexer 1 read 1
< indexer 1 staged 2
< indexer 1 uploaded 2
< indexer 1 published 2
< a opened
< a planned 5 2
< a fetched 1
< a fetched 2
< {"aggregations":{"c":{"value":3},"l":{"buckets":[{"doc_count":2,"key":"a","m":{"value":5},"s":{"value":6}},{"doc_count":1,"key":"b","m":{"value":12},"s":{"value":12}}],"doc_count_error_upper_bound":0,"sum_other_doc_count":0}},"client":"a","hits":[],"num_hits":3,"revision":5}
run 0
row a split whose greatest time is where the times begin is searched, and one whose least is where they end is not
vacant
command create
> version = "0.9"
> index_id = "logs"
> [doc_mapping]
> mode = "strict"
> timestamp_field = "ts"
> [[doc_mapping.field_mappings]]
> name = "body"
> type = "text"
> record = "position"
> [[doc_mapping.field_mappings]]
> name = "level"
> type = "text"
> tokenizer = "raw"
> fast = true
> [[doc_mapping.field_mappings]]
> name = "ts"
> type = "datetime"
> fast = true
> [indexing_settings.merge_policy]
> type = "stable_log"
> min_level_num_docs = 100
> merge_factor = 2
> max_merge_factor = 4
> [search_settings]
> default_search_fields = ["body"]
> [upkeep]
> staged_grace_secs = 200
> deletion_grace_secs = 100
< created
run 0
log
record p0 {"ts":900,"body":"red fox"}
record p0 {"ts":1000,"body":"red hen"}
> at 1000
> indexer 0
> indexer 0
> indexer 0
> indexer 0
> indexer 0
> client a {"search":{"query":"red","max_hits":0,"start_timestamp":1000}}
> client a
> client a
> client a
> client a {"search":{"query":"red","max_hits":0,"end_timestamp":900}}
> client a
> client a
< at 1000
< indexer 0 checkpoint
< indexer 0 read 2
< indexer 0 staged 1
< indexer 0 uploaded 1
< indexer 0 published 1
< a opened
< a planned 3 1
< a fetched 1
< {"aggregations":{},"client":"a","hits":[],"num_hits":1,"revision":3}
< a opened
< a planned 3 0
< {"aggregations":{},"client":"a","hits":[],"num_hits":0,"revision":3}
run 0
row a split file and an object of the journal without their last bytes
log
record p0 {"body":"red fox"}
record p0 oops
record p0 {"body":"red hen"}
> at 1000
> indexer 0
> indexer 0
> indexer 0
> indexer 0
> indexer 0
< at 1000
< indexer 0 checkpoint
< indexer 0 read 3
< indexer 0 staged 1
< indexer 0 uploaded 1
< indexer 0 published 1
run 0
cut splits/00000000000000000001
> client a {"search":{"query":"red"}}
> client a
> client a
< a opened
< a planned 3 1
< {"client":"a","error":{"key":"splits/00000000000000000001","kind":"Corrupt"},"revision":3}
run 0
cut meta/00000000000000000002
> at 5
< error 7 corrupt meta/00000000000000000002
run 7
> at 5
< error 7 corrupt meta/00000000000000000002
run 7
row words that are of no command
word --
< error 1 badwords
run 1
command run
word --help
< error 1 badwords
run 1
command run
word --indexers
word 0
word --searchers
word 1
word --turns
word 0
< error 1 badwords
run 1
row a dynamic index is asked by paths that are no field
vacant
command create
> version = "0.9"
> index_id = "logs"
> [doc_mapping]
> mode = "dynamic"
> [[doc_mapping.field_mappings]]
> name = "body"
> type = "text"
> record = "position"
> [[doc_mapping.field_mappings]]
> name = "level"
> type = "text"
> tokenizer = "raw"
> fast = true
> [indexing_settings.merge_policy]
> type = "stable_log"
> min_level_num_docs = 100
> merge_factor = 2
> max_merge_factor = 4
> [search_settings]
> default_search_fields = ["body"]
> [upkeep]
> staged_grace_secs = 200
> deletion_grace_secs = 100
< created
run 0
log
record p0 {"body":"red","user":{"id":7,"ok":true},"f":1.5,"tags":["x","y"]}
> at 1000
> indexer 0
> indexer 0
> indexer 0
> indexer 0
> indexer 0
> client a {"search":{"query":"user.id:7"}}
> client a
> client a
> client a
> client a {"search":{"query":"user.id:8"}}
> client a
> client a
> client a
> client a {"search":{"query":"f:*"}}
> client a
> client a
> client a
> client a {"search":{"query":"tags: IN [y z]"}}
> client a
> client a
> client a
> client a {"search":{"query":"user.ok:tr*"}}
> client a
> client a
> client a
> client a {"search":{"query":"user.id:[1 TO 9]"}}
> client a
> client a {"search":{"query":"*","sort_by":"user.id"}}
> client a
< at 1000
< indexer 0 checkpoint
< indexer 0 read 1
< indexer 0 staged 1
< indexer 0 uploaded 1
< indexer 0 published 1
< a opened
< a planned 3 1
< a fetched 1
< {"aggregations":{},"client":"a","hits":[{"_dynamic":["4:tags:x","4:tags:y","7:user.id:7","7:user.ok:true"],"body":"red"}],"num_hits":1,"revision":3}
< a opened
< a planned 3 1
< a fetched 1
< {"aggregations":{},"client":"a","hits":[],"num_hits":0,"revision":3}
< a opened
< a planned 3 1
< a fetched 1
< {"aggregations":{},"client":"a","hits":[],"num_hits":0,"revision":3}
< a opened
< a planned 3 1
< a fetched 1
< {"aggregations":{},"client":"a","hits":[{"_dynamic":["4:tags:x","4:tags:y","7:user.id:7","7:user.ok:true"],"body":"red"}],"num_hits":1,"revision":3}
< a opened
< a planned 3 1
< a fetched 1
< {"aggregations":{},"client":"a","hits":[{"_dynamic":["4:tags:x","4:tags:y","7:user.id:7","7:user.ok:true"],"body":"red"}],"num_hits":1,"revision":3}
< a opened
< {"client":"a","error":{"at":8,"kind":"BadValue"},"revision":3}
< a opened
< {"client":"a","error":{"kind":"UnknownField","name":"user.id"},"revision":3}
run 0
row without a mode nothing is lost of a record that no field takes
vacant
command create
> version = "0.9"
> index_id = "logs"
> [doc_mapping]
> [[doc_mapping.field_mappings]]
> name = "body"
> type = "text"
> record = "position"
> [[doc_mapping.field_mappings]]
> name = "level"
> type = "text"
> tokenizer = "raw"
> fast = true
> [indexing_settings.merge_policy]
> type = "stable_log"
> min_level_num_docs = 100
> merge_factor = 2
> max_merge_factor = 4
> [search_settings]
> default_search_fields = ["body"]
> [upkeep]
> staged_grace_secs = 200
> deletion_grace_secs = 100
< created
run 0
log
record p0 {"n":18446744073709551615}
record p0 {"body":{"a":1}}
> at 1000
> indexer 0
> indexer 0
> indexer 0
> indexer 0
> indexer 0
> client a {"search":{"query":"n:18446744073709551615"}}
> client a
> client a
> client a
< at 1000
< indexer 0 checkpoint
< indexer 0 read 2
< indexer 0 staged 1
< indexer 0 uploaded 1
< indexer 0 published 1
< a opened
< a planned 3 1
< a fetched 1
< {"aggregations":{},"client":"a","hits":[{"_dynamic":["1:n:18446744073709551615"]}],"num_hits":1,"revision":3}
run 0
"#;
