//! The rows of the reports, in the words of the script.

pub const REPORT_ROWS: &str = r#"row three records, of which one is refused
log
record p0 {"body":"red fox"}
record p0 oops
record p0 {"body":"red hen"}
> at 1000
> indexer 0
> indexer 0
> indexer 0
> indexer 0
> indexer 0
< at 1000
< indexer 0 checkpoint
< indexer 0 read 3
< indexer 0 staged 1
< indexer 0 uploaded 1
< indexer 0 published 1
run 0
command splits
< 1 published docs 2 rejected 1 merges 0 times none spans p0:0-3:0:0
run 0
command describe
< revision 3
< opstamp 0
< staged 0 published 1 marked 0
< docs 2 rejected 1
< checkpoint p0 3
run 0
row one stale part
log
record p0 {"body":"red"}
record p1 {"body":"red"}
log
record p0 {"body":"red"}
record p1 {"body":"red"}
> at 1000
> assign 1 p1
> indexer 0
> indexer 0
> indexer 0
> indexer 1
> indexer 1
> indexer 1
> indexer 1
> indexer 1
> indexer 0
> indexer 0
> indexer 0
< at 1000
< indexer 1 assigned 1
< indexer 0 checkpoint
< indexer 0 read 1
< indexer 0 read 1
< indexer 1 checkpoint
< indexer 1 read 1
< indexer 1 staged 1
< indexer 1 uploaded 1
< indexer 1 published 1
< indexer 0 staged 2
< indexer 0 uploaded 2
< indexer 0 stale p1 1 0
run 0
command describe
< revision 4
< opstamp 0
< staged 1 published 1 marked 0
< docs 1 rejected 0
< checkpoint p1 1
run 0
command splits
< 1 published docs 1 rejected 0 merges 0 times none spans p1:0-1:0:0
< 2 staged docs 2 rejected 0 merges 0 times none spans p0:0-1:0:0 p1:0-1:0:0
run 0
row a publish that lands behind the listing is in the next report
log
record p0 {"body":"red fox"}
failkey 2 meta/00000000000000000002
> at 1000
> indexer 0
> indexer 0
> indexer 0
> indexer 0
> indexer 0
< at 1000
< indexer 0 checkpoint
< indexer 0 read 1
< indexer 0 staged 1
< indexer 0 uploaded 1
< indexer 0 storefault 0 1
run 0
command describe
< revision 2
< opstamp 0
< staged 1 published 0 marked 0
< docs 0 rejected 0
run 0
command describe
< revision 3
< opstamp 0
< staged 0 published 1 marked 0
< docs 1 rejected 0
< checkpoint p0 1
run 0
row a new index, and nothing is read
command splits
failread 1
> at 5
run 0
command describe
failread 1
> at 5
< revision 1
< opstamp 0
< staged 0 published 0 marked 0
< docs 0 rejected 0
run 0
row no index
vacant
command splits
< error 8 noindex
run 8
command describe
< error 8 noindex
run 8
row a key that is no entry's
object meta/a QWJ
command splits
< error 7 foreign meta/a
run 7
row the store fails, a word more, and an output that fails
command describe
failcall never 2
< error 4 storefault 0 1
run 4
command splits
word describe
< error 1 badwords
run 1
command describe
failwrite 1
run 6
command describe
room 13
< revision 1
<< op
run 6
"#;
