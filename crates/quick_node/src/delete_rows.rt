//! The rows of what clients delete, in the words of the script.

pub const DELETE_ROWS: &str =
    r#"row a delete adopts a Replace that lands in the next life, behind a plan
log
record p0 {"body":"red fox"}
record p1 {"body":"red fox"}
log
record p0 {"body":"red fox"}
record p1 {"body":"red fox"}
failkey 8 meta/00000000000000000006
> at 1000
> assign 0 p0
> assign 1 p1
> indexer 0
> indexer 0
> indexer 0
> indexer 0
> indexer 0
> indexer 1
> indexer 1
> indexer 1
> indexer 1
> indexer 1
> merger
> merger
> merger
> merger
> merger
> merger
< at 1000
< indexer 0 assigned 1
< indexer 1 assigned 1
< indexer 0 checkpoint
< indexer 0 read 1
< indexer 0 staged 1
< indexer 0 uploaded 1
< indexer 0 published 1
< indexer 1 checkpoint
< indexer 1 read 1
< indexer 1 staged 2
< indexer 1 uploaded 2
< indexer 1 published 2
< merger planned 2
< merger fetched 1
< merger fetched 2
< merger staged 3
< merger uploaded 3
< merger storefault 0 1
run 0
> at 5000
> client a {"search":{"query":"fox"}}
> client a
> client d {"delete":{"query":"hen"}}
> client d
> collector
> client a
> client a
> client a
> at 5099
> collector
> at 5100
> collector
> deleter
> deleter
> deleter
> deleter
< at 5000
< a opened
< a planned 6 2
< d opened
< {"client":"d","opstamp":1,"revision":8}
< collector nothing
< a fetched 1
< a fetched 2
< {"aggregations":{},"client":"a","hits":[{"body":"red fox"},{"body":"red fox"}],"num_hits":2,"revision":6}
< at 5099
< collector nothing
< at 5100
< collector doomed 1
< deleter planned 1
< deleter fetched 3
< deleter raised 3
< deleter nothing
run 0
command splits
< 1 marked docs 1 rejected 0 merges 0 times none spans p0:0-1:0:0
< 2 marked docs 1 rejected 0 merges 0 times none spans p1:0-1:0:0
< 3 published docs 2 rejected 0 merges 1 times none spans p0:0-1:0:1 p1:0-1:0:1
run 0
row a client deletes twice, and searches between
log
record p0 {"body":"red fox","level":"info"}
record p0 oops
record p0 {"body":"red hen","level":"warn"}
record p0 {"body":"old owl","level":"info"}
> at 1000
> indexer 0
> indexer 0
> indexer 0
> indexer 0
> indexer 0
> indexer 0
> indexer 0
> indexer 0
> client d {"delete":{"query":"fox"}}
> client d
> client d {"search":{"query":"red"}}
> client d
> client d
> client d
> client d {"delete":{"query":"hen"}}
> client d
> client d
> deleter
> deleter
> deleter
> deleter
> deleter
> deleter
> client d {"search":{"query":"red"}}
> client d
> client d
> client d
> client d {"search":{"query":"*","aggs":{"levels":{"terms":{"field":"level"}}}}}
> client d
> client d
> client d
> client d {"delete":{"query":"cow"}}
> client d
> deleter
> deleter
> deleter
> deleter
< at 1000
< indexer 0 checkpoint
< indexer 0 read 4
< indexer 0 staged 1
< indexer 0 uploaded 1
< indexer 0 published 1
< indexer 0 checkpoint
< indexer 0 read 0
< indexer 0 caughtup
< d opened
< {"client":"d","opstamp":1,"revision":4}
< d opened
< d planned 4 1
< d fetched 1
< {"aggregations":{},"client":"d","hits":[{"body":"red fox","level":"info"},{"body":"red hen","level":"warn"}],"num_hits":2,"revision":4}
< d opened
< {"client":"d","opstamp":2,"revision":5}
< d idle
< deleter planned 1
< deleter fetched 1
< deleter staged 2
< deleter uploaded 2
< deleter replaced 2
< deleter nothing
< d opened
< d planned 7 1
< d fetched 2
< {"aggregations":{},"client":"d","hits":[],"num_hits":0,"revision":7}
< d opened
< d planned 7 1
< d fetched 2
< {"aggregations":{"levels":{"buckets":[{"doc_count":1,"key":"info"}],"doc_count_error_upper_bound":0,"sum_other_doc_count":0}},"client":"d","hits":[{"body":"old owl","level":"info"}],"num_hits":1,"revision":7}
< d opened
< {"client":"d","opstamp":3,"revision":8}
< deleter planned 1
< deleter fetched 2
< deleter raised 2
< deleter nothing
run 0
command splits
< 1 marked docs 3 rejected 1 merges 0 times none spans p0:0-4:0:0
< 2 published docs 1 rejected 1 merges 0 times none spans p0:0-4:0:3
run 0
command describe
< revision 9
< opstamp 3
< staged 0 published 1 marked 1
< docs 1 rejected 1
< checkpoint p0 4
run 0
row a delete of an index without records, and of a record that is published behind it
log
record p0 {"body":"red fox"}
> at 1000
> client d {"delete":{"query":"fox"}}
> client d
> deleter
> indexer 0
> indexer 0
> indexer 0
> client d {"delete":{"query":"red"}}
> client d
> deleter
> indexer 0
> indexer 0
> deleter
> deleter
> deleter
> deleter
> deleter
> deleter
> client a {"search":{"query":"*"}}
> client a
> client a
< at 1000
< d opened
< {"client":"d","opstamp":1,"revision":2}
< deleter nothing
< indexer 0 checkpoint
< indexer 0 read 1
< indexer 0 staged 1
< d opened
< {"client":"d","opstamp":2,"revision":4}
< deleter nothing
< indexer 0 uploaded 1
< indexer 0 published 1
< deleter planned 1
< deleter fetched 1
< deleter staged 2
< deleter uploaded 2
< deleter replaced 2
< deleter nothing
< a opened
< a planned 7 0
< {"aggregations":{},"client":"a","hits":[],"num_hits":0,"revision":7}
run 0
command splits
< 1 marked docs 1 rejected 0 merges 0 times none spans p0:0-1:1:1
< 2 published docs 0 rejected 0 merges 0 times none spans p0:0-1:1:2
run 0
row refusals of a delete in their order
log
> client a red
> client a
> client a ["delete"]
> client a
> client a {}
> client a
> client a {"delete":{"query":"fox"},"search":{"query":"fox"}}
> client a
> client a {"delete":{"limit":1,"query":"("},"further":7}
> client a
> client a {"delete":{"limit":1,"query":7}}
> client a
> client a {"delete":{"max_hits":1,"query":"fox"}}
> client a
> client a {"delete":{"query":"fox","sort_by":"level"}}
> client a
> client a {"delete":"fox"}
> client a
> client a {"delete":{"search_field":7}}
> client a
> client a {"delete":{"end_timestamp":"now","query":7}}
> client a
> client a {"delete":{"end_timestamp":"now","query":"(","search_field":"size"}}
> client a
> client a {"delete":{"query":"(","search_field":"size","start_timestamp":1}}
> client a
> client a {"delete":{"query":"(","start_timestamp":1}}
> client a
> client a {"delete":{"query":"fox","end_timestamp":1}}
> client a
> client a {"delete":{"query":"("}}
> client a
> client a {"delete":{"query":"size:1 level:[a TO b]"}}
> client a
> client a {"delete":{"query":"level:[a TO b]"}}
> client a
> client a
> client a {"delete":{"query":"fox"}}
> client a
> client a {"delete":{"query":""}}
> client a
< a opened
< {"client":"a","error":{"kind":"NotJson"},"revision":1}
< a opened
< {"client":"a","error":{"kind":"WrongKind","name":"request"},"revision":1}
< a opened
< {"client":"a","error":{"kind":"MissingKey","name":"search"},"revision":1}
< a opened
< {"client":"a","error":{"kind":"UnknownKey","name":"search"},"revision":1}
< a opened
< {"client":"a","error":{"kind":"UnknownKey","name":"further"},"revision":1}
< a opened
< {"client":"a","error":{"kind":"UnknownKey","name":"limit"},"revision":1}
< a opened
< {"client":"a","error":{"kind":"UnknownKey","name":"max_hits"},"revision":1}
< a opened
< {"client":"a","error":{"kind":"UnknownKey","name":"sort_by"},"revision":1}
< a opened
< {"client":"a","error":{"kind":"WrongKind","name":"delete"},"revision":1}
< a opened
< {"client":"a","error":{"kind":"MissingKey","name":"query"},"revision":1}
< a opened
< {"client":"a","error":{"kind":"WrongKind","name":"query"},"revision":1}
< a opened
< {"client":"a","error":{"kind":"WrongKind","name":"end_timestamp"},"revision":1}
< a opened
< {"client":"a","error":{"kind":"UnknownField","name":"size"},"revision":1}
< a opened
< {"client":"a","error":{"kind":"NoTimestampField"},"revision":1}
< a opened
< {"client":"a","error":{"kind":"NoTimestampField"},"revision":1}
< a opened
< {"client":"a","error":{"at":1,"kind":"Syntax"},"revision":1}
< a opened
< {"client":"a","error":{"kind":"UnknownField","name":"size"},"revision":1}
< a opened
< {"client":"a","error":{"at":6,"kind":"BadValue"},"revision":1}
< a idle
< a opened
< {"client":"a","opstamp":1,"revision":2}
< a opened
< {"client":"a","error":{"at":0,"kind":"Syntax"},"revision":2}
run 0
row a delete asks the fields that it names
log
record p0 {"body":"red fox","level":"info"}
record p0 {"body":"red hen","level":"fox"}
record p0 {"body":"old owl","level":"hen"}
> at 1000
> indexer 0
> indexer 0
> indexer 0
> indexer 0
> indexer 0
> client d {"delete":{"query":"fox","search_field":"level"}}
> client d
> deleter
> deleter
> deleter
> deleter
> deleter
> deleter
> client a {"search":{"query":"*"}}
> client a
> client a
> client a
> client d {"delete":{"query":"NOT level:info"}}
> client d
> deleter
> deleter
> deleter
> deleter
> deleter
> deleter
> client a {"search":{"query":"*"}}
> client a
> client a
> client a
< at 1000
< indexer 0 checkpoint
< indexer 0 read 3
< indexer 0 staged 1
< indexer 0 uploaded 1
< indexer 0 published 1
< d opened
< {"client":"d","opstamp":1,"revision":4}
< deleter planned 1
< deleter fetched 1
< deleter staged 2
< deleter uploaded 2
< deleter replaced 2
< deleter nothing
< a opened
< a planned 6 1
< a fetched 2
< {"aggregations":{},"client":"a","hits":[{"body":"red fox","level":"info"},{"body":"old owl","level":"hen"}],"num_hits":2,"revision":6}
< d opened
< {"client":"d","opstamp":2,"revision":7}
< deleter planned 1
< deleter fetched 2
< deleter staged 3
< deleter uploaded 3
< deleter replaced 3
< deleter nothing
< a opened
< a planned 9 1
< a fetched 3
< {"aggregations":{},"client":"a","hits":[{"body":"red fox","level":"info"}],"num_hits":1,"revision":9}
run 0
row a delete with times
vacant
command create
> index_id = "logs"
> [doc_mapping]
> mode = "strict"
> timestamp_field = "ts"
> [[doc_mapping.field_mappings]]
> name = "ts"
> type = "datetime"
> fast = true
> [[doc_mapping.field_mappings]]
> name = "body"
> type = "text"
> [search_settings]
> default_search_fields = ["body"]
< created
run 0
log
record p0 {"body":"red fox","ts":10}
record p0 {"body":"red fox","ts":20}
record p0 {"body":"red hen","ts":20}
record p0 {"body":"red fox","ts":30}
> at 1000
> indexer 0
> indexer 0
> indexer 0
> indexer 0
> indexer 0
> client d {"delete":{"query":"fox","start_timestamp":20,"end_timestamp":30}}
> client d
> deleter
> deleter
> deleter
> deleter
> deleter
> deleter
> client a {"search":{"query":"*"}}
> client a
> client a
> client a
> client d {"delete":{"query":"*","end_timestamp":20}}
> client d
> deleter
> deleter
> deleter
> deleter
> deleter
> deleter
> client a {"search":{"query":"*"}}
> client a
> client a
> client a
> client d {"delete":{"query":"fox","start_timestamp":31}}
> client d
> deleter
> deleter
> deleter
> deleter
< at 1000
< indexer 0 checkpoint
< indexer 0 read 4
< indexer 0 staged 1
< indexer 0 uploaded 1
< indexer 0 published 1
< d opened
< {"client":"d","opstamp":1,"revision":4}
< deleter planned 1
< deleter fetched 1
< deleter staged 2
< deleter uploaded 2
< deleter replaced 2
< deleter nothing
< a opened
< a planned 6 1
< a fetched 2
< {"aggregations":{},"client":"a","hits":[{"body":"red fox","ts":10},{"body":"red hen","ts":20},{"body":"red fox","ts":30}],"num_hits":3,"revision":6}
< d opened
< {"client":"d","opstamp":2,"revision":7}
< deleter planned 1
< deleter fetched 2
< deleter staged 3
< deleter uploaded 3
< deleter replaced 3
< deleter nothing
< a opened
< a planned 9 1
< a fetched 3
< {"aggregations":{},"client":"a","hits":[{"body":"red hen","ts":20},{"body":"red fox","ts":30}],"num_hits":2,"revision":9}
< d opened
< {"client":"d","opstamp":3,"revision":10}
< deleter planned 1
< deleter fetched 3
< deleter raised 3
< deleter nothing
run 0
command splits
< 1 marked docs 4 rejected 0 merges 0 times 10..30 spans p0:0-4:0:0
< 2 marked docs 3 rejected 0 merges 0 times 10..30 spans p0:0-4:0:1
< 3 published docs 2 rejected 0 merges 0 times 20..30 spans p0:0-4:0:3
run 0
row a search that was planned before a delete is answered behind it
log
record p0 {"body":"red fox"}
record p0 oops
record p0 {"body":"red hen"}
> at 1000
> indexer 0
> indexer 0
> indexer 0
> indexer 0
> indexer 0
> client a {"search":{"query":"red"}}
> client a
> client d {"delete":{"query":"fox"}}
> client d
> deleter
> deleter
> deleter
> deleter
> deleter
> deleter
> client d {"search":{"query":"red"}}
> client d
> client d
> client d
> at 1099
> collector
> client a
> client a
> client a {"search":{"query":"red"}}
> client a
> client a
> client a
> at 1100
> collector
> collector
> collector
< at 1000
< indexer 0 checkpoint
< indexer 0 read 3
< indexer 0 staged 1
< indexer 0 uploaded 1
< indexer 0 published 1
< a opened
< a planned 3 1
< d opened
< {"client":"d","opstamp":1,"revision":4}
< deleter planned 1
< deleter fetched 1
< deleter staged 2
< deleter uploaded 2
< deleter replaced 2
< deleter nothing
< d opened
< d planned 6 1
< d fetched 2
< {"aggregations":{},"client":"d","hits":[{"body":"red hen"}],"num_hits":1,"revision":6}
< at 1099
< collector nothing
< a fetched 1
< {"aggregations":{},"client":"a","hits":[{"body":"red fox"},{"body":"red hen"}],"num_hits":2,"revision":3}
< a opened
< a planned 6 1
< a fetched 2
< {"aggregations":{},"client":"a","hits":[{"body":"red hen"}],"num_hits":1,"revision":6}
< at 1100
< collector doomed 1
< collector removed 1
< collector nothing
run 0
row a delete whose create fails lands a call later, and is adopted
log
record p0 {"body":"red fox"}
record p0 oops
record p0 {"body":"red hen"}
failkey 1 meta/00000000000000000003
> at 1000
> indexer 0
> indexer 0
> indexer 0
> indexer 0
> indexer 0
> client d {"delete":{"query":"fox"}}
> client d
> client d {"search":{"query":"red"}}
> client d
> client d
> client d
> client d {"delete":{"query":"hen"}}
> client d
> deleter
> deleter
> deleter
> deleter
> deleter
> deleter
> client d {"search":{"query":"red"}}
> client d
> client d
< at 1000
< indexer 0 checkpoint
< indexer 0 read 3
< indexer 0 staged 1
< indexer 0 uploaded 1
< indexer 0 published 1
< d opened
< {"client":"d","error":{"after":1,"before":0,"kind":"StoreFault"},"revision":0}
< d opened
< d planned 4 1
< d fetched 1
< {"aggregations":{},"client":"d","hits":[{"body":"red fox"},{"body":"red hen"}],"num_hits":2,"revision":4}
< d opened
< {"client":"d","opstamp":2,"revision":5}
< deleter planned 1
< deleter fetched 1
< deleter staged 2
< deleter uploaded 2
< deleter replaced 2
< deleter nothing
< d opened
< d planned 7 0
< {"aggregations":{},"client":"d","hits":[],"num_hits":0,"revision":7}
run 0
command splits
< 1 marked docs 2 rejected 1 merges 0 times none spans p0:0-3:0:0
< 2 published docs 0 rejected 1 merges 0 times none spans p0:0-3:0:2
run 0
row a delete whose create fails never lands
log
record p0 {"body":"red fox"}
record p0 oops
record p0 {"body":"red hen"}
failkey never meta/00000000000000000003
> at 1000
> indexer 0
> indexer 0
> indexer 0
> indexer 0
> indexer 0
> client d {"search":{"query":"hen"}}
> client d
> client d
> client d
> client d {"delete":{"query":"fox"}}
> client d
> deleter
> client d {"search":{"query":"red"}}
> client d
> client d
> client d
> client d {"delete":{"query":"fox"}}
> client d
> deleter
> deleter
> deleter
> deleter
> deleter
> deleter
> client d {"search":{"query":"red"}}
> client d
> client d
> client d
< at 1000
< indexer 0 checkpoint
< indexer 0 read 3
< indexer 0 staged 1
< indexer 0 uploaded 1
< indexer 0 published 1
< d opened
< d planned 3 1
< d fetched 1
< {"aggregations":{},"client":"d","hits":[{"body":"red hen"}],"num_hits":1,"revision":3}
< d opened
< {"client":"d","error":{"after":1,"before":0,"kind":"StoreFault"},"revision":3}
< deleter nothing
< d opened
< d planned 4 1
< d fetched 1
< {"aggregations":{},"client":"d","hits":[{"body":"red fox"},{"body":"red hen"}],"num_hits":2,"revision":4}
< d opened
< {"client":"d","opstamp":1,"revision":5}
< deleter planned 1
< deleter fetched 1
< deleter staged 2
< deleter uploaded 2
< deleter replaced 2
< deleter nothing
< d opened
< d planned 7 1
< d fetched 2
< {"aggregations":{},"client":"d","hits":[{"body":"red hen"}],"num_hits":1,"revision":7}
run 0
row a delete that is late lands in the next life, and another one adopts it
log
record p0 {"body":"red fox"}
record p0 oops
record p0 {"body":"red hen"}
failkey 5 meta/00000000000000000003
> at 1000
> indexer 0
> indexer 0
> indexer 0
> indexer 0
> indexer 0
> client d {"delete":{"query":"fox"}}
> client d
< at 1000
< indexer 0 checkpoint
< indexer 0 read 3
< indexer 0 staged 1
< indexer 0 uploaded 1
< indexer 0 published 1
< d opened
< {"client":"d","error":{"after":1,"before":0,"kind":"StoreFault"},"revision":0}
run 0
> at 1000
> client d {"delete":{"query":"cow"}}
> client d
> deleter
> deleter
> deleter
> deleter
> deleter
> deleter
> client d {"search":{"query":"red"}}
> client d
> client d
> client d
< at 1000
< d opened
< {"client":"d","opstamp":2,"revision":5}
< deleter planned 1
< deleter fetched 1
< deleter staged 2
< deleter uploaded 2
< deleter replaced 2
< deleter nothing
< d opened
< d planned 7 1
< d fetched 2
< {"aggregations":{},"client":"d","hits":[{"body":"red hen"}],"num_hits":1,"revision":7}
run 0
row a node that is down deletes nothing
log
failcall never 4
> restart node
> client d {"delete":{"query":"fox"}}
> client d
> deleter
> restart deleter
> restart node
> client d
> deleter
> client d {"delete":{"query":"fox"}}
> client d {"delete":{"query":"hen"}}
> restart client d
> client d
> client d {"delete":{"query":"owl"}}
> client d
< node storefault 0 1
< d opened
< d down
< deleter down
< deleter restarted
< node restarted 1
< d idle
< deleter nothing
< d opened
< d busy
< d restarted
< d idle
< d opened
< {"client":"d","opstamp":1,"revision":2}
run 0
command describe
< revision 2
< opstamp 1
< staged 0 published 0 marked 0
< docs 0 rejected 0
run 0
row a delete too many
room 1000000
log
deletes 10000
> client d {"delete":{"query":"hen"}}
> client d
> deleter
< d opened
< {"client":"d","error":{"count":10000,"kind":"TooManyTasks"},"revision":10001}
< deleter nothing
run 0
"#;
