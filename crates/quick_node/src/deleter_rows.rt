//! The rows of the delete worker, as src/script.rt has those of the other lines.

pub const DELETER_ROWS: &str =
    r#"row a record staged before a delete is removed, and one staged behind it stays
log
record p0 {"body":"red fox"}
record p1 {"body":"red fox"}
log
record p0 {"body":"red fox"}
record p1 {"body":"red fox"}
> at 1000
> assign 0 p0
> assign 1 p1
> indexer 0
> indexer 0
> indexer 0
> client d {"delete":{"query":"fox"}}
> client d
> indexer 0
> indexer 0
> indexer 1
> indexer 1
> indexer 1
> indexer 1
> indexer 1
> client a {"search":{"query":"fox"}}
> client a
> client a
> client a
> client a
> deleter
> deleter
> deleter
> deleter
> deleter
> deleter
> client a {"search":{"query":"fox"}}
> client a
> client a
> client a
< at 1000
< indexer 0 assigned 1
< indexer 1 assigned 1
< indexer 0 checkpoint
< indexer 0 read 1
< indexer 0 staged 1
< d opened
< {"client":"d","opstamp":1,"revision":3}
< indexer 0 uploaded 1
< indexer 0 published 1
< indexer 1 checkpoint
< indexer 1 read 1
< indexer 1 staged 2
< indexer 1 uploaded 2
< indexer 1 published 2
< a opened
< a planned 6 2
< a fetched 1
< a fetched 2
< {"aggregations":{},"client":"a","hits":[{"body":"red fox"},{"body":"red fox"}],"num_hits":2,"revision":6}
< deleter planned 1
< deleter fetched 1
< deleter staged 3
< deleter uploaded 3
< deleter replaced 3
< deleter nothing
< a opened
< a planned 8 1
< a fetched 2
< {"aggregations":{},"client":"a","hits":[{"body":"red fox"}],"num_hits":1,"revision":8}
run 0
command splits
< 1 marked docs 1 rejected 0 merges 0 times none spans p0:0-1:0:0
< 2 published docs 1 rejected 0 merges 0 times none spans p1:0-1:1:1
< 3 published docs 0 rejected 0 merges 0 times none spans p0:0-1:0:1
run 0
command describe
< revision 8
< opstamp 1
< staged 0 published 2 marked 1
< docs 1 rejected 0
< checkpoint p0 1
< checkpoint p1 1
run 0
row one delete is applied to a split before the next one is asked for
log
record p0 {"body":"red fox"}
record p0 {"body":"red hen"}
> at 1000
> indexer 0
> indexer 0
> indexer 0
> indexer 0
> indexer 0
> client d {"delete":{"query":"fox"}}
> client d
> deleter
> client d {"delete":{"query":"hen"}}
> client d
> deleter
> deleter
> deleter
> deleter
> client a {"search":{"query":"*"}}
> client a
> client a
> client a
> deleter
> deleter
> deleter
> deleter
> deleter
> deleter
> client a {"search":{"query":"*"}}
> client a
> client a
> client d {"delete":{"query":"*"}}
> client d
> deleter
> deleter
> deleter
> deleter
< at 1000
< indexer 0 checkpoint
< indexer 0 read 2
< indexer 0 staged 1
< indexer 0 uploaded 1
< indexer 0 published 1
< d opened
< {"client":"d","opstamp":1,"revision":4}
< deleter planned 1
< d opened
< {"client":"d","opstamp":2,"revision":5}
< deleter fetched 1
< deleter staged 2
< deleter uploaded 2
< deleter replaced 2
< a opened
< a planned 7 1
< a fetched 2
< {"aggregations":{},"client":"a","hits":[{"body":"red hen"}],"num_hits":1,"revision":7}
< deleter planned 1
< deleter fetched 2
< deleter staged 3
< deleter uploaded 3
< deleter replaced 3
< deleter nothing
< a opened
< a planned 9 0
< {"aggregations":{},"client":"a","hits":[],"num_hits":0,"revision":9}
< d opened
< {"client":"d","opstamp":3,"revision":10}
< deleter planned 1
< deleter fetched 3
< deleter raised 3
< deleter nothing
run 0
command splits
< 1 marked docs 2 rejected 0 merges 0 times none spans p0:0-2:0:0
< 2 marked docs 1 rejected 0 merges 0 times none spans p0:0-2:0:1
< 3 published docs 0 rejected 0 merges 0 times none spans p0:0-2:0:3
run 0
row each split that has not all tasks is planned once, by number
log
record p0 {"body":"red fox"}
record p1 {"body":"red hen"}
record p2 {"body":"old fox"}
log
record p0 {"body":"red fox"}
record p1 {"body":"red hen"}
record p2 {"body":"old fox"}
log
record p0 {"body":"red fox"}
record p1 {"body":"red hen"}
record p2 {"body":"old fox"}
> at 1000
> assign 0 p0
> assign 1 p1
> assign 2 p2
> indexer 0
> indexer 0
> indexer 0
> indexer 0
> indexer 0
> indexer 1
> indexer 1
> indexer 1
> indexer 1
> indexer 1
> indexer 2
> indexer 2
> indexer 2
> indexer 2
> indexer 2
> client d {"delete":{"query":"body:fox"}}
> client d
> deleter
> deleter
> deleter
> deleter
> deleter
> deleter
> deleter
> deleter
> deleter
> deleter
> deleter
> deleter
> deleter
> deleter
> client a {"search":{"query":"*"}}
> client a
> client a
> client a
< at 1000
< indexer 0 assigned 1
< indexer 1 assigned 1
< indexer 2 assigned 1
< indexer 0 checkpoint
< indexer 0 read 1
< indexer 0 staged 1
< indexer 0 uploaded 1
< indexer 0 published 1
< indexer 1 checkpoint
< indexer 1 read 1
< indexer 1 staged 2
< indexer 1 uploaded 2
< indexer 1 published 2
< indexer 2 checkpoint
< indexer 2 read 1
< indexer 2 staged 3
< indexer 2 uploaded 3
< indexer 2 published 3
< d opened
< {"client":"d","opstamp":1,"revision":8}
< deleter planned 1
< deleter fetched 1
< deleter staged 4
< deleter uploaded 4
< deleter replaced 4
< deleter planned 1
< deleter fetched 2
< deleter raised 2
< deleter planned 1
< deleter fetched 3
< deleter staged 5
< deleter uploaded 5
< deleter replaced 5
< deleter nothing
< a opened
< a planned 13 1
< a fetched 2
< {"aggregations":{},"client":"a","hits":[{"body":"red hen"}],"num_hits":1,"revision":13}
run 0
row a Replace of the delete worker lands a call later
log
record p0 {"body":"red fox"}
record p0 oops
record p0 {"body":"red hen"}
failkey 1 meta/00000000000000000005
> at 1000
> indexer 0
> indexer 0
> indexer 0
> indexer 0
> indexer 0
> client d {"delete":{"query":"fox"}}
> client d
> deleter
> deleter
> deleter
> deleter
> deleter
> deleter
> client a {"search":{"query":"red"}}
> client a
> client a
> client a
< at 1000
< indexer 0 checkpoint
< indexer 0 read 3
< indexer 0 staged 1
< indexer 0 uploaded 1
< indexer 0 published 1
< d opened
< {"client":"d","opstamp":1,"revision":4}
< deleter planned 1
< deleter fetched 1
< deleter staged 2
< deleter uploaded 2
< deleter storefault 0 1
< deleter nothing
< a opened
< a planned 6 1
< a fetched 2
< {"aggregations":{},"client":"a","hits":[{"body":"red hen"}],"num_hits":1,"revision":6}
run 0
row a delete worker is restarted, and what it staged goes stale
log
record p0 {"body":"red fox"}
record p0 oops
record p0 {"body":"red hen"}
> at 1000
> indexer 0
> indexer 0
> indexer 0
> indexer 0
> indexer 0
> client d {"delete":{"query":"fox"}}
> client d
> deleter
> deleter
> deleter
> restart deleter
> deleter
> restart deleter
> deleter
> deleter
> deleter
> deleter
> restart node
> deleter
> deleter
> deleter
> deleter
> deleter
> deleter
> client a {"search":{"query":"red"}}
> client a
> client a
> client a
> at 1099
> collector
> at 1100
> collector
> collector
> collector
> at 1200
> collector
> at 1300
> collector
> collector
> collector
> collector
> deleter
< at 1000
< indexer 0 checkpoint
< indexer 0 read 3
< indexer 0 staged 1
< indexer 0 uploaded 1
< indexer 0 published 1
< d opened
< {"client":"d","opstamp":1,"revision":4}
< deleter planned 1
< deleter fetched 1
< deleter staged 2
< deleter restarted
< deleter planned 1
< deleter restarted
< deleter planned 1
< deleter fetched 1
< deleter staged 3
< deleter uploaded 3
< node restarted 6
< deleter planned 1
< deleter fetched 1
< deleter staged 4
< deleter uploaded 4
< deleter replaced 4
< deleter nothing
< a opened
< a planned 8 1
< a fetched 4
< {"aggregations":{},"client":"a","hits":[{"body":"red hen"}],"num_hits":1,"revision":8}
< at 1099
< collector nothing
< at 1100
< collector doomed 1
< collector removed 1
< collector nothing
< at 1200
< collector marked 2
< at 1300
< collector doomed 2
< collector doomed 3
< collector removed 2
< collector nothing
< deleter nothing
run 0
command splits
< 4 published docs 1 rejected 1 merges 0 times none spans p0:0-3:0:1
run 0
row a fetch of the delete worker comes too late
log
record p0 {"body":"red fox"}
record p0 oops
record p0 {"body":"red hen"}
> at 1000
> indexer 0
> indexer 0
> indexer 0
> indexer 0
> indexer 0
> client d {"delete":{"query":"fox"}}
> client d
> deleter
> at 1100
> deleter
> deleter
> deleter
> deleter
> deleter
> deleter
> deleter
< at 1000
< indexer 0 checkpoint
< indexer 0 read 3
< indexer 0 staged 1
< indexer 0 uploaded 1
< indexer 0 published 1
< d opened
< {"client":"d","opstamp":1,"revision":4}
< deleter planned 1
< at 1100
< deleter expired 1000 1100
< deleter planned 1
< deleter fetched 1
< deleter staged 2
< deleter uploaded 2
< deleter replaced 2
< deleter nothing
run 0
"#;
