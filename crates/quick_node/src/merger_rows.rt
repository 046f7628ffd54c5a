//! The rows of the merger, as src/script.rt has those of the other lines.

pub const MERGER_ROWS: &str = r#"row two splits are merged, and given up behind their grace
log
record p0 {"body":"red fox"}
record p1 {"body":"red fox"}
log
record p0 {"body":"red fox"}
record p1 {"body":"red fox"}
> at 1000
> assign 0 p0
> assign 1 p1
> indexer 0
> indexer 0
> indexer 0
> indexer 0
> indexer 0
> indexer 1
> indexer 1
> indexer 1
> indexer 1
> indexer 1
> merger
> merger
> merger
> merger
> merger
> merger
> merger
> client a {"search":{"query":"fox"}}
> client a
> client a
> client a
< at 1000
< indexer 0 assigned 1
< indexer 1 assigned 1
< indexer 0 checkpoint
< indexer 0 read 1
< indexer 0 staged 1
< indexer 0 uploaded 1
< indexer 0 published 1
< indexer 1 checkpoint
< indexer 1 read 1
< indexer 1 staged 2
< indexer 1 uploaded 2
< indexer 1 published 2
< merger planned 2
< merger fetched 1
< merger fetched 2
< merger staged 3
< merger uploaded 3
< merger replaced 3
< merger nothing
< a opened
< a planned 7 1
< a fetched 3
< {"aggregations":{},"client":"a","hits":[{"body":"red fox"},{"body":"red fox"}],"num_hits":2,"revision":7}
run 0
command splits
< 1 marked docs 1 rejected 0 merges 0 times none spans p0:0-1:0:0
< 2 marked docs 1 rejected 0 merges 0 times none spans p1:0-1:0:0
< 3 published docs 2 rejected 0 merges 1 times none spans p0:0-1:0:0 p1:0-1:0:0
run 0
> at 1099
> collector
> at 1100
> collector
> collector
> collector
> collector
< at 1099
< collector nothing
< at 1100
< collector doomed 1
< collector doomed 2
< collector removed 2
< collector nothing
run 0
command splits
< 3 published docs 2 rejected 0 merges 1 times none spans p0:0-1:0:0 p1:0-1:0:0
run 0
row three splits of one level are merged at once
log
record p0 {"body":"red fox"}
record p1 {"body":"red hen"}
record p2 {"body":"red fox"}
log
record p0 {"body":"red fox"}
record p1 {"body":"red hen"}
record p2 {"body":"red fox"}
log
record p0 {"body":"red fox"}
record p1 {"body":"red hen"}
record p2 {"body":"red fox"}
> at 1000
> assign 0 p0
> assign 1 p1
> assign 2 p2
> indexer 0
> indexer 0
> indexer 0
> indexer 0
> indexer 0
> indexer 1
> indexer 1
> indexer 1
> indexer 1
> indexer 1
> indexer 2
> indexer 2
> indexer 2
> indexer 2
> indexer 2
> merger
> merger
> merger
> merger
> merger
> merger
> merger
> merger
> client a {"search":{"query":"red"}}
> client a
> client a
> client a
< at 1000
< indexer 0 assigned 1
< indexer 1 assigned 1
< indexer 2 assigned 1
< indexer 0 checkpoint
< indexer 0 read 1
< indexer 0 staged 1
< indexer 0 uploaded 1
< indexer 0 published 1
< indexer 1 checkpoint
< indexer 1 read 1
< indexer 1 staged 2
< indexer 1 uploaded 2
< indexer 1 published 2
< indexer 2 checkpoint
< indexer 2 read 1
< indexer 2 staged 3
< indexer 2 uploaded 3
< indexer 2 published 3
< merger planned 3
< merger fetched 1
< merger fetched 2
< merger fetched 3
< merger staged 4
< merger uploaded 4
< merger replaced 4
< merger nothing
< a opened
< a planned 9 1
< a fetched 4
< {"aggregations":{},"client":"a","hits":[{"body":"red fox"},{"body":"red hen"},{"body":"red fox"}],"num_hits":3,"revision":9}
run 0
row a merger is restarted, and what it staged goes stale
log
record p0 {"body":"red fox"}
record p1 {"body":"red hen"}
log
record p0 {"body":"red fox"}
record p1 {"body":"red hen"}
> at 1000
> assign 0 p0
> assign 1 p1
> indexer 0
> indexer 0
> indexer 0
> indexer 0
> indexer 0
> indexer 1
> indexer 1
> indexer 1
> indexer 1
> indexer 1
> merger
> merger
> merger
> merger
> restart merger
> merger
> merger
> merger
> merger
> merger
> merger
> merger
> at 1200
> collector
> collector
< at 1000
< indexer 0 assigned 1
< indexer 1 assigned 1
< indexer 0 checkpoint
< indexer 0 read 1
< indexer 0 staged 1
< indexer 0 uploaded 1
< indexer 0 published 1
< indexer 1 checkpoint
< indexer 1 read 1
< indexer 1 staged 2
< indexer 1 uploaded 2
< indexer 1 published 2
< merger planned 2
< merger fetched 1
< merger fetched 2
< merger staged 3
< merger restarted
< merger planned 2
< merger fetched 1
< merger fetched 2
< merger staged 4
< merger uploaded 4
< merger replaced 4
< merger nothing
< at 1200
< collector marked 1
< collector doomed 1
run 0
row the collector marks a row under its merger's hands
log
record p0 {"body":"red fox"}
record p1 {"body":"red hen"}
log
record p0 {"body":"red fox"}
record p1 {"body":"red hen"}
> at 1000
> assign 0 p0
> assign 1 p1
> indexer 0
> indexer 0
> indexer 0
> indexer 0
> indexer 0
> indexer 1
> indexer 1
> indexer 1
> indexer 1
> indexer 1
> merger
> merger
> merger
> merger
> at 1200
> collector
> merger
> merger
> merger
< at 1000
< indexer 0 assigned 1
< indexer 1 assigned 1
< indexer 0 checkpoint
< indexer 0 read 1
< indexer 0 staged 1
< indexer 0 uploaded 1
< indexer 0 published 1
< indexer 1 checkpoint
< indexer 1 read 1
< indexer 1 staged 2
< indexer 1 uploaded 2
< indexer 1 published 2
< merger planned 2
< merger fetched 1
< merger fetched 2
< merger staged 3
< at 1200
< collector marked 1
< merger uploaded 3
< merger lost 3 notstaged 3
< merger planned 2
run 0
row a Replace lands in the next life, behind a plan
log
record p0 {"body":"red fox"}
record p1 {"body":"red fox"}
log
record p0 {"body":"red fox"}
record p1 {"body":"red fox"}
failkey 8 meta/00000000000000000006
> at 1000
> assign 0 p0
> assign 1 p1
> indexer 0
> indexer 0
> indexer 0
> indexer 0
> indexer 0
> indexer 1
> indexer 1
> indexer 1
> indexer 1
> indexer 1
> merger
> merger
> merger
> merger
> merger
> merger
< at 1000
< indexer 0 assigned 1
< indexer 1 assigned 1
< indexer 0 checkpoint
< indexer 0 read 1
< indexer 0 staged 1
< indexer 0 uploaded 1
< indexer 0 published 1
< indexer 1 checkpoint
< indexer 1 read 1
< indexer 1 staged 2
< indexer 1 uploaded 2
< indexer 1 published 2
< merger planned 2
< merger fetched 1
< merger fetched 2
< merger staged 3
< merger uploaded 3
< merger storefault 0 1
run 0
> at 5000
> client a {"search":{"query":"fox"}}
> client a
> collector
> client a
> client a
> client a
> at 5099
> collector
> at 5100
> collector
< at 5000
< a opened
< a planned 6 2
< collector nothing
< a fetched 1
< a fetched 2
< {"aggregations":{},"client":"a","hits":[{"body":"red fox"},{"body":"red fox"}],"num_hits":2,"revision":6}
< at 5099
< collector nothing
< at 5100
< collector doomed 1
run 0
row a Replace lands in the next life, under the hands of its merger
log
record p0 {"body":"red fox"}
record p1 {"body":"red hen"}
log
record p0 {"body":"red fox"}
record p1 {"body":"red hen"}
failkey 10 meta/00000000000000000006
> at 1000
> assign 0 p0
> assign 1 p1
> indexer 0
> indexer 0
> indexer 0
> indexer 0
> indexer 0
> indexer 1
> indexer 1
> indexer 1
> indexer 1
> indexer 1
> merger
> merger
> merger
> merger
> merger
> merger
< at 1000
< indexer 0 assigned 1
< indexer 1 assigned 1
< indexer 0 checkpoint
< indexer 0 read 1
< indexer 0 staged 1
< indexer 0 uploaded 1
< indexer 0 published 1
< indexer 1 checkpoint
< indexer 1 read 1
< indexer 1 staged 2
< indexer 1 uploaded 2
< indexer 1 published 2
< merger planned 2
< merger fetched 1
< merger fetched 2
< merger staged 3
< merger uploaded 3
< merger storefault 0 1
run 0
> merger
> merger
> merger
> merger
> merger
> merger
> merger
> client a {"search":{"query":"red"}}
> client a
> client a
> client a
< merger planned 2
< merger fetched 1
< merger fetched 2
< merger staged 4
< merger uploaded 4
< merger lost 4 notpublished 1
< merger nothing
< a opened
< a planned 8 1
< a fetched 3
< {"aggregations":{},"client":"a","hits":[{"body":"red fox"},{"body":"red hen"}],"num_hits":2,"revision":8}
run 0
row splits of no documents, of a refused record and of a removed one, are merged
vacant
command create
> index_id = "none"
> [doc_mapping]
> mode = "strict"
> [[doc_mapping.field_mappings]]
> name = "body"
> type = "text"
> [indexing_settings.merge_policy]
> type = "stable_log"
> min_level_num_docs = 100
> merge_factor = 2
> max_merge_factor = 4
> [search_settings]
> default_search_fields = ["body"]
< created
run 0
log
record p0 oops
record p1 {"body":"red fox"}
log
record p0 oops
record p1 {"body":"red fox"}
> at 1000
> assign 0 p0
> assign 1 p1
> indexer 0
> indexer 0
> indexer 0
> indexer 0
> indexer 0
> indexer 1
> indexer 1
> indexer 1
> indexer 1
> indexer 1
> client d {"delete":{"query":"fox"}}
> client d
> deleter
> deleter
> deleter
> deleter
> deleter
> deleter
> deleter
> deleter
> deleter
< at 1000
< indexer 0 assigned 1
< indexer 1 assigned 1
< indexer 0 checkpoint
< indexer 0 read 1
< indexer 0 staged 1
< indexer 0 uploaded 1
< indexer 0 published 1
< indexer 1 checkpoint
< indexer 1 read 1
< indexer 1 staged 2
< indexer 1 uploaded 2
< indexer 1 published 2
< d opened
< {"client":"d","opstamp":1,"revision":6}
< deleter planned 1
< deleter fetched 1
< deleter raised 1
< deleter planned 1
< deleter fetched 2
< deleter staged 3
< deleter uploaded 3
< deleter replaced 3
< deleter nothing
run 0
bytes 515753020000000000000000000800000000000000000a0000000000000051574602 splits/00000000000000000001
bytes 515753020000000000000000000800000000000000000a0000000000000051574602 splits/00000000000000000003
> merger
> merger
> merger
> merger
> merger
> merger
> merger
< merger planned 2
< merger fetched 1
< merger fetched 3
< merger staged 4
< merger uploaded 4
< merger replaced 4
< merger nothing
run 0
bytes 515753020000000000000000000800000000000000000a0000000000000051574602 splits/00000000000000000004
command splits
< 1 marked docs 0 rejected 1 merges 0 times none spans p0:0-1:0:1
< 2 marked docs 1 rejected 0 merges 0 times none spans p1:0-1:0:0
< 3 marked docs 0 rejected 0 merges 0 times none spans p1:0-1:0:1
< 4 published docs 0 rejected 1 merges 1 times none spans p0:0-1:0:1 p1:0-1:0:1
run 0
row a split of no documents is cut, and a merger tells it
vacant
command create
> index_id = "none"
> [doc_mapping]
> mode = "strict"
> [[doc_mapping.field_mappings]]
> name = "body"
> type = "text"
> [indexing_settings.merge_policy]
> type = "stable_log"
> min_level_num_docs = 100
> merge_factor = 2
> max_merge_factor = 4
> [search_settings]
> default_search_fields = ["body"]
< created
run 0
log
record p0 oops
record p1 oops
log
record p0 oops
record p1 oops
> at 1000
> assign 0 p0
> assign 1 p1
> indexer 0
> indexer 0
> indexer 0
> indexer 0
> indexer 0
> indexer 1
> indexer 1
> indexer 1
> indexer 1
> indexer 1
< at 1000
< indexer 0 assigned 1
< indexer 1 assigned 1
< indexer 0 checkpoint
< indexer 0 read 1
< indexer 0 staged 1
< indexer 0 uploaded 1
< indexer 0 published 1
< indexer 1 checkpoint
< indexer 1 read 1
< indexer 1 staged 2
< indexer 1 uploaded 2
< indexer 1 published 2
run 0
bytes 515753020000000000000000000800000000000000000a0000000000000051574602 splits/00000000000000000002
cut splits/00000000000000000002
bytes 515753020000000000000000000800000000000000000a00000000000000515746 splits/00000000000000000002
> merger
> merger
> merger
> merger
< merger planned 2
< merger fetched 1
< merger corrupt splits/00000000000000000002
< merger planned 2
run 0
"#;
