//! The rows of `run`, in the words of the script. What threads write beside one another does not hang on their turns in any of them.

pub const RUN_ROWS: &str = r#"row three records, and no request
log
record p0 {"body":"red fox"}
record p0 oops
record p0 {"body":"red hen"}
command run
word --turns=5
word --searchers
word 1
word --indexers
word +1
< indexer 0 caughtup
< merger nothing
< deleter nothing
< collector nothing
run 0
command describe
< revision 3
< opstamp 0
< staged 0 published 1 marked 0
< docs 2 rejected 1
< checkpoint p0 3
run 0
log
record p0 {"body":"red fox"}
record p0 oops
record p0 {"body":"red hen"}
log
record p0 {"body":"red fox"}
record p0 oops
record p0 {"body":"red hen"}
command run
word --indexers=1
word --searchers=2
word --turns=1
> a {"search":{"query":"*"}}
> b {"search":{"query":"fox"}}
> a {"search":{"query":"hen"}}
> b oops
>> b 
< {"aggregations":{},"client":"a","hits":[{"body":"red fox"},{"body":"red hen"}],"num_hits":2,"revision":3}
< {"aggregations":{},"client":"b","hits":[{"body":"red fox"}],"num_hits":1,"revision":3}
< {"aggregations":{},"client":"a","hits":[{"body":"red hen"}],"num_hits":1,"revision":3}
< {"client":"b","error":{"kind":"NotJson"},"revision":3}
< {"client":"b","error":{"kind":"NotJson"},"revision":3}
< indexer 0 caughtup
< merger nothing
< deleter nothing
< collector nothing
run 0
log
record p0 {"body":"red fox"}
record p0 oops
record p0 {"body":"red hen"}
command run
word --indexers=1
word --searchers=1
word --turns=0
> a {"delete":{"query":"fox"}}
> a {"search":{"query":"*"}}
> b {"delete":{"query":"red"}}
> a {"search":{"query":"*"}}
< {"client":"a","opstamp":1,"revision":4}
< {"aggregations":{},"client":"a","hits":[{"body":"red fox"},{"body":"red hen"}],"num_hits":2,"revision":4}
< {"client":"b","opstamp":2,"revision":5}
< {"aggregations":{},"client":"a","hits":[{"body":"red fox"},{"body":"red hen"}],"num_hits":2,"revision":4}
< indexer 0 caughtup
< merger turns
< deleter turns
< collector turns
run 0
row words that ask for no run
log
command run
word --indexers
word 0
word --searchers
word 1
word --turns
word 0
< error 1 badwords
run 1
log
command run
word --help
< error 1 badwords
run 1
log
command run
word --indexers=3
word --searchers=1
word --turns=0
log
< error 1 badwords
run 1
row a line that is no request leaves the index as it was
log
record p0 {"body":"red fox"}
command run
word --indexers=1
word --searchers=1
word --turns=5
> a {"delete":{"query":"fox"}}
> b
> c
< error 3 badline 2
run 3
log
record p0 {"body":"red fox"}
command run
word --indexers=1
word --searchers=1
word --turns=5
failread 1
> a {"delete":{"query":"fox"}}
< error 5 readfault
run 5
command describe
< revision 1
< opstamp 0
< staged 0 published 0 marked 0
< docs 0 rejected 0
run 0
row an output that fails in a line
log
record p0 {"body":"red fox"}
command run
word --indexers=1
word --searchers=1
word --turns=0
room 22
< indexer 0 caughtup
<< mer
run 6
command splits
< 1 published docs 1 rejected 0 merges 0 times none spans p0:0-1:0:0
run 0
row no index, and a log that fails
vacant
log
command run
word --indexers=1
word --searchers=1
word --turns=0
> oops
< error 8 noindex
run 8
row the names of the partitions are not read
log
record p0 {"body":"red fox"}
command run
word --indexers=1
word --searchers=1
word --turns=1
faillog 1
< indexer 0 sourcefault 0 1
< merger nothing
< deleter nothing
< collector nothing
run 0
row two indexers, and an index that is settled
log
record p0 {"body":"red fox"}
record p0 {"body":"red owl"}
record p1 {"body":"red hen"}
log
record p0 {"body":"red fox"}
record p0 {"body":"red owl"}
record p1 {"body":"red hen"}
command run
word --indexers=2
word --searchers=1
word --turns=0
< indexer 0 caughtup
< indexer 1 caughtup
< merger turns
< deleter turns
< collector turns
run 0
log
record p0 {"body":"red fox"}
record p0 {"body":"red owl"}
record p1 {"body":"red hen"}
log
record p0 {"body":"red fox"}
record p0 {"body":"red owl"}
record p1 {"body":"red hen"}
command run
word --settle
word --indexers=2
word --searchers=1
word --turns=0
> a {"delete":{"query":"fox"}}
> a {"search":{"query":"*","max_hits":0}}
< {"client":"a","opstamp":1,"revision":6}
< {"aggregations":{},"client":"a","hits":[],"num_hits":3,"revision":6}
< indexer 0 caughtup
< indexer 1 caughtup
< merger turns
< deleter turns
< collector turns
< settled
run 0
command describe
< revision 11
< opstamp 1
< staged 0 published 1 marked 3
< docs 2 rejected 0
< checkpoint p0 2
< checkpoint p1 1
run 0
row each span is applied where an index is settled
log
record p0 {"body":"red fox"}
record p0 {"body":"red owl"}
record p1 {"body":"red hen"}
command run
word --indexers=1
word --searchers=1
word --turns=0
< indexer 0 caughtup
< merger turns
< deleter turns
< collector turns
run 0
log
command run
word --settle
word --indexers=1
word --searchers=1
word --turns=0
> a {"delete":{"query":"fox"}}
< {"client":"a","opstamp":1,"revision":4}
< indexer 0 caughtup
< merger turns
< deleter turns
< collector turns
< settled
run 0
command splits
< 1 marked docs 3 rejected 0 merges 0 times none spans p0:0-2:0:0 p1:0-1:0:0
< 2 published docs 2 rejected 0 merges 0 times none spans p0:0-2:0:1 p1:0-1:0:1
run 0
"#;
