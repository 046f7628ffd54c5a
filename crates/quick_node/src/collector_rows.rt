//! The rows of the collector, as src/script.rt has those of the other lines.

pub const COLLECTOR_ROWS: &str = r#"row an indexer that was restarted leaves a staged row
log
record p0 {"body":"red fox"}
record p0 oops
record p0 {"body":"red hen"}
> at 1000
> indexer 0
> indexer 0
> indexer 0
> indexer 0
> restart indexer 0
> indexer 0
> indexer 0
> indexer 0
> indexer 0
> indexer 0
> at 1199
> collector
> at 1200
> collector
> at 1299
> collector
> at 1300
> collector
> collector
> collector
> client a {"search":{"query":"red"}}
> client a
> client a
> client a
< at 1000
< indexer 0 checkpoint
< indexer 0 read 3
< indexer 0 staged 1
< indexer 0 uploaded 1
< indexer 0 restarted
< indexer 0 checkpoint
< indexer 0 read 3
< indexer 0 staged 2
< indexer 0 uploaded 2
< indexer 0 published 2
< at 1199
< collector nothing
< at 1200
< collector marked 1
< at 1299
< collector nothing
< at 1300
< collector doomed 1
< collector removed 1
< collector nothing
< a opened
< a planned 6 1
< a fetched 2
< {"aggregations":{},"client":"a","hits":[{"body":"red fox"},{"body":"red hen"}],"num_hits":2,"revision":6}
run 0
row a search that is too late
log
record p0 {"body":"red fox"}
record p0 oops
record p0 {"body":"red hen"}
> at 1000
> indexer 0
> indexer 0
> indexer 0
> indexer 0
> indexer 0
> indexer 0
> indexer 0
> indexer 0
> client a {"search":{"query":"red"}}
> client a
> client b {"search":{"query":"red"}}
> client b
> at 1099
> client a
> at 1100
> client b
> client a
> client b
< at 1000
< indexer 0 checkpoint
< indexer 0 read 3
< indexer 0 staged 1
< indexer 0 uploaded 1
< indexer 0 published 1
< indexer 0 checkpoint
< indexer 0 read 0
< indexer 0 caughtup
< a opened
< a planned 3 1
< b opened
< b planned 3 1
< at 1099
< a fetched 1
< at 1100
< {"client":"b","error":{"kind":"Expired","now":1100,"planned_at":1000},"revision":3}
< {"aggregations":{},"client":"a","hits":[{"body":"red fox"},{"body":"red hen"}],"num_hits":2,"revision":3}
< b idle
run 0
row a row is marked and removed under its indexer's hands
log
record p0 {"body":"red fox"}
record p0 oops
record p0 {"body":"red hen"}
> at 1000
> indexer 0
> indexer 0
> indexer 0
> at 1200
> collector
> at 1300
> collector
> collector
> indexer 0
> indexer 0
> collector
> indexer 0
> indexer 0
> indexer 0
> indexer 0
> indexer 0
> restart node
< at 1000
< indexer 0 checkpoint
< indexer 0 read 3
< indexer 0 staged 1
< at 1200
< collector marked 1
< at 1300
< collector doomed 1
< collector removed 1
< indexer 0 uploaded 1
< indexer 0 lost 1 norow 1
< collector swept 1
< indexer 0 checkpoint
< indexer 0 read 3
< indexer 0 staged 2
< indexer 0 uploaded 2
< indexer 0 published 2
< node restarted 6
run 0
row a row is marked under its indexer's hands
log
record p0 {"body":"red fox"}
record p0 oops
record p0 {"body":"red hen"}
> at 1000
> indexer 0
> indexer 0
> indexer 0
> at 1200
> collector
> indexer 0
> indexer 0
< at 1000
< indexer 0 checkpoint
< indexer 0 read 3
< indexer 0 staged 1
< at 1200
< collector marked 1
< indexer 0 uploaded 1
< indexer 0 lost 1 notstaged 1
run 0
row marks at their times
log
record p0 {"body":"red fox"}
record p0 oops
record p0 {"body":"red hen"}
> at 1000
> indexer 0
> indexer 0
> indexer 0
> indexer 0
> restart indexer 0
> at 1050
> indexer 0
> indexer 0
> indexer 0
> restart indexer 0
> at 1200
> collector
> collector
> at 1249
> collector
> at 1250
> collector
> at 1299
> collector
> at 1300
> collector
> at 1350
> collector
> collector
> collector
> restart node
< at 1000
< indexer 0 checkpoint
< indexer 0 read 3
< indexer 0 staged 1
< indexer 0 uploaded 1
< indexer 0 restarted
< at 1050
< indexer 0 checkpoint
< indexer 0 read 3
< indexer 0 staged 2
< indexer 0 restarted
< at 1200
< collector marked 1
< collector nothing
< at 1249
< collector nothing
< at 1250
< collector marked 1
< at 1299
< collector nothing
< at 1300
< collector doomed 1
< at 1350
< collector doomed 2
< collector removed 2
< collector nothing
< node restarted 6
run 0
"#;
