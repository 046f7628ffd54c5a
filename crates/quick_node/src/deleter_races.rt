//! The rows of the delete worker beside the merger and the collector, in the words of the script.

pub const DELETER_RACES: &str =
    r#"row a merge of records from before a delete and behind it, of which those from before are removed
log
record p0 {"body":"red fox"}
record p1 {"body":"red fox"}
log
record p0 {"body":"red fox"}
record p1 {"body":"red fox"}
> at 1000
> assign 0 p0
> assign 1 p1
> indexer 0
> indexer 0
> indexer 0
> indexer 0
> indexer 0
> client d {"delete":{"query":"fox"}}
> client d
> indexer 1
> indexer 1
> indexer 1
> indexer 1
> indexer 1
> merger
> merger
> merger
> merger
> merger
> merger
> deleter
> deleter
> deleter
> deleter
> deleter
> client a {"search":{"query":"fox"}}
> client a
> client a
> client a
< at 1000
< indexer 0 assigned 1
< indexer 1 assigned 1
< indexer 0 checkpoint
< indexer 0 read 1
< indexer 0 staged 1
< indexer 0 uploaded 1
< indexer 0 published 1
< d opened
< {"client":"d","opstamp":1,"revision":4}
< indexer 1 checkpoint
< indexer 1 read 1
< indexer 1 staged 2
< indexer 1 uploaded 2
< indexer 1 published 2
< merger planned 2
< merger fetched 1
< merger fetched 2
< merger staged 3
< merger uploaded 3
< merger replaced 3
< deleter planned 1
< deleter fetched 3
< deleter staged 4
< deleter uploaded 4
< deleter replaced 4
< a opened
< a planned 10 1
< a fetched 4
< {"aggregations":{},"client":"a","hits":[{"body":"red fox"}],"num_hits":1,"revision":10}
run 0
command splits
< 1 marked docs 1 rejected 0 merges 0 times none spans p0:0-1:0:0
< 2 marked docs 1 rejected 0 merges 0 times none spans p1:0-1:1:1
< 3 marked docs 2 rejected 0 merges 1 times none spans p0:0-1:0:0 p1:0-1:1:1
< 4 published docs 1 rejected 0 merges 1 times none spans p0:0-1:0:1 p1:0-1:1:1
run 0
> at 1099
> collector
> at 1100
> collector
> collector
> collector
> collector
< at 1099
< collector nothing
< at 1100
< collector doomed 1
< collector doomed 2
< collector doomed 3
< collector removed 3
run 0
command splits
< 4 published docs 1 rejected 0 merges 1 times none spans p0:0-1:0:1 p1:0-1:1:1
run 0
row a merger loses to the delete worker, which raises what has nothing to remove
log
record p0 {"body":"red fox"}
record p1 {"body":"red hen"}
log
record p0 {"body":"red fox"}
record p1 {"body":"red hen"}
> at 1000
> assign 0 p0
> assign 1 p1
> indexer 0
> indexer 0
> indexer 0
> indexer 0
> indexer 0
> indexer 1
> indexer 1
> indexer 1
> indexer 1
> indexer 1
> client d {"delete":{"query":"fox"}}
> client d
> merger
> merger
> merger
> merger
> deleter
> deleter
> deleter
> deleter
> deleter
> merger
> merger
> deleter
> deleter
> deleter
> deleter
> client a {"search":{"query":"*"}}
> client a
> client a
> client a
< at 1000
< indexer 0 assigned 1
< indexer 1 assigned 1
< indexer 0 checkpoint
< indexer 0 read 1
< indexer 0 staged 1
< indexer 0 uploaded 1
< indexer 0 published 1
< indexer 1 checkpoint
< indexer 1 read 1
< indexer 1 staged 2
< indexer 1 uploaded 2
< indexer 1 published 2
< d opened
< {"client":"d","opstamp":1,"revision":6}
< merger planned 2
< merger fetched 1
< merger fetched 2
< merger staged 3
< deleter planned 1
< deleter fetched 1
< deleter staged 4
< deleter uploaded 4
< deleter replaced 4
< merger uploaded 3
< merger lost 3 notpublished 1
< deleter planned 1
< deleter fetched 2
< deleter raised 2
< deleter nothing
< a opened
< a planned 10 1
< a fetched 2
< {"aggregations":{},"client":"a","hits":[{"body":"red hen"}],"num_hits":1,"revision":10}
run 0
command splits
< 1 marked docs 1 rejected 0 merges 0 times none spans p0:0-1:0:0
< 2 published docs 1 rejected 0 merges 0 times none spans p1:0-1:0:1
< 3 staged docs 2 rejected 0 merges 0 times none spans none
< 4 published docs 0 rejected 0 merges 0 times none spans p0:0-1:0:1
run 0
row the collector marks a row under the hands of its delete worker
log
record p0 {"body":"red fox"}
record p0 oops
record p0 {"body":"red hen"}
> at 1000
> indexer 0
> indexer 0
> indexer 0
> indexer 0
> indexer 0
> client d {"delete":{"query":"fox"}}
> client d
> deleter
> deleter
> deleter
> at 1200
> collector
> deleter
> deleter
> deleter
> at 1299
> deleter
> deleter
> deleter
> deleter
> deleter
< at 1000
< indexer 0 checkpoint
< indexer 0 read 3
< indexer 0 staged 1
< indexer 0 uploaded 1
< indexer 0 published 1
< d opened
< {"client":"d","opstamp":1,"revision":4}
< deleter planned 1
< deleter fetched 1
< deleter staged 2
< at 1200
< collector marked 1
< deleter uploaded 2
< deleter lost 2 notstaged 2
< deleter planned 1
< at 1299
< deleter fetched 1
< deleter staged 3
< deleter uploaded 3
< deleter replaced 3
< deleter nothing
run 0
row a merger is before the delete worker
log
record p0 {"body":"red fox"}
record p1 {"body":"red hen"}
log
record p0 {"body":"red fox"}
record p1 {"body":"red hen"}
> at 1000
> assign 0 p0
> assign 1 p1
> indexer 0
> indexer 0
> indexer 0
> indexer 0
> indexer 0
> indexer 1
> indexer 1
> indexer 1
> indexer 1
> indexer 1
> client d {"delete":{"query":"fox"}}
> client d
> deleter
> deleter
> deleter
> merger
> merger
> merger
> merger
> merger
> merger
> deleter
> deleter
> client a {"search":{"query":"*"}}
> client a
> client a
> client a
> deleter
> deleter
> deleter
> deleter
> deleter
> deleter
> client a {"search":{"query":"*"}}
> client a
> client a
> client a
< at 1000
< indexer 0 assigned 1
< indexer 1 assigned 1
< indexer 0 checkpoint
< indexer 0 read 1
< indexer 0 staged 1
< indexer 0 uploaded 1
< indexer 0 published 1
< indexer 1 checkpoint
< indexer 1 read 1
< indexer 1 staged 2
< indexer 1 uploaded 2
< indexer 1 published 2
< d opened
< {"client":"d","opstamp":1,"revision":6}
< deleter planned 1
< deleter fetched 1
< deleter staged 3
< merger planned 2
< merger fetched 1
< merger fetched 2
< merger staged 4
< merger uploaded 4
< merger replaced 4
< deleter uploaded 3
< deleter lost 3 notpublished 1
< a opened
< a planned 9 1
< a fetched 4
< {"aggregations":{},"client":"a","hits":[{"body":"red fox"},{"body":"red hen"}],"num_hits":2,"revision":9}
< deleter planned 1
< deleter fetched 4
< deleter staged 5
< deleter uploaded 5
< deleter replaced 5
< deleter nothing
< a opened
< a planned 11 1
< a fetched 5
< {"aggregations":{},"client":"a","hits":[{"body":"red hen"}],"num_hits":1,"revision":11}
run 0
row a merger is before the delete worker, which would raise
log
record p0 {"body":"red hen"}
record p1 {"body":"red owl"}
log
record p0 {"body":"red hen"}
record p1 {"body":"red owl"}
> at 1000
> assign 0 p0
> assign 1 p1
> indexer 0
> indexer 0
> indexer 0
> indexer 0
> indexer 0
> indexer 1
> indexer 1
> indexer 1
> indexer 1
> indexer 1
> client d {"delete":{"query":"fox"}}
> client d
> deleter
> deleter
> merger
> merger
> merger
> merger
> merger
> merger
> deleter
> deleter
> deleter
> deleter
> deleter
< at 1000
< indexer 0 assigned 1
< indexer 1 assigned 1
< indexer 0 checkpoint
< indexer 0 read 1
< indexer 0 staged 1
< indexer 0 uploaded 1
< indexer 0 published 1
< indexer 1 checkpoint
< indexer 1 read 1
< indexer 1 staged 2
< indexer 1 uploaded 2
< indexer 1 published 2
< d opened
< {"client":"d","opstamp":1,"revision":6}
< deleter planned 1
< deleter fetched 1
< merger planned 2
< merger fetched 1
< merger fetched 2
< merger staged 3
< merger uploaded 3
< merger replaced 3
< deleter lost 1 notpublished 1
< deleter planned 1
< deleter fetched 3
< deleter raised 3
< deleter nothing
run 0
command splits
< 1 marked docs 1 rejected 0 merges 0 times none spans p0:0-1:0:0
< 2 marked docs 1 rejected 0 merges 0 times none spans p1:0-1:0:0
< 3 published docs 2 rejected 0 merges 1 times none spans p0:0-1:0:1 p1:0-1:0:1
run 0
"#;
