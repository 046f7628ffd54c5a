//! The rows of the tests.
//!
//! A line `row` begins one, with a new index, no log and nothing that is to fail. `vacant` takes an empty store in its place,
//! `object` makes an object in it, and `cut` takes the last byte of one away. `command` takes another command than `drive`, and
//! `word` a word more. `log` adds a log, and `record` a record at its end. `failkey`, `failcall`, `failread`, `failwrite` and
//! `faillog` make the create of a key, or the call with a number, fail, of a create with when it lands; `room` bounds the output.
//! `>` is a line of the input, and `<` one that must be written; `>>` and `<<` are the same without a line feed; `config` is the
//! configuration of an index, behind a line of its own if there is one. `clients` starts so many clients anew, and `deletes` lets
//! one delete so often, with what is written. `run` does the command with this input, and compares what was written, the status,
//! and the counts of faults; what stands then is the store of a second life. `size` says how many bytes an object has, and `bytes`
//! which, in digits.

pub const ROWS: &str = r#"row two hits
log
record p0 {"body":"red fox"}
record p0 oops
record p0 {"body":"red hen"}
> at 1000
> indexer 0
> indexer 0
> indexer 0
> indexer 0
> indexer 0
> indexer 0
> indexer 0
> indexer 0
> client a {"search":{"query":"red"}}
> client a
> client a
> client a
< at 1000
< indexer 0 checkpoint
< indexer 0 read 3
< indexer 0 staged 1
< indexer 0 uploaded 1
< indexer 0 published 1
< indexer 0 checkpoint
< indexer 0 read 0
< indexer 0 caughtup
< a opened
< a planned 3 1
< a fetched 1
< {"aggregations":{},"client":"a","hits":[{"body":"red fox"},{"body":"red hen"}],"num_hits":2,"revision":3}
run 0
size 156 splits/00000000000000000001
row an empty batch waits
log
record p2 {"body":"red"}
> at 1000
> assign 0 p0 p1 p2
> indexer 0
> indexer 0
> at 1060
> indexer 0
> indexer 0
> indexer 0
> indexer 0
> indexer 0
< at 1000
< indexer 0 assigned 3
< indexer 0 checkpoint
< indexer 0 read 0
< at 1060
< indexer 0 read 0
< indexer 0 read 1
< indexer 0 staged 1
< indexer 0 uploaded 1
< indexer 0 published 1
run 0
row a publish lands in the next life, as its first append begins
log
record p0 {"body":"red fox"}
record p0 oops
record p0 {"body":"red hen"}
failkey 4 meta/00000000000000000002
> at 1000
> indexer 0
> indexer 0
> indexer 0
> indexer 0
> indexer 0
< at 1000
< indexer 0 checkpoint
< indexer 0 read 3
< indexer 0 staged 1
< indexer 0 uploaded 1
< indexer 0 storefault 0 1
run 0
log
record p0 {"body":"red fox"}
record p0 oops
record p0 {"body":"red hen"}
> at 1000
> indexer 0
> indexer 0
> indexer 0
> indexer 0
> indexer 0
> client a {"search":{"query":"red"}}
> client a
> client a
> client a
< at 1000
< indexer 0 checkpoint
< indexer 0 read 3
< indexer 0 staged 2
< indexer 0 uploaded 2
< indexer 0 stale p0 3 0
< a opened
< a planned 4 1
< a fetched 1
< {"aggregations":{},"client":"a","hits":[{"body":"red fox"},{"body":"red hen"}],"num_hits":2,"revision":4}
run 0
row an indexer restarts
log
record p0 {"body":"red fox"}
record p0 oops
record p0 {"body":"red hen"}
> at 1000
> indexer 0
> indexer 0
> indexer 0
> indexer 0
> restart indexer 0
> indexer 0
> indexer 0
> indexer 0
> indexer 0
> indexer 0
< at 1000
< indexer 0 checkpoint
< indexer 0 read 3
< indexer 0 staged 1
< indexer 0 uploaded 1
< indexer 0 restarted
< indexer 0 checkpoint
< indexer 0 read 3
< indexer 0 staged 2
< indexer 0 uploaded 2
< indexer 0 published 2
run 0
row a node restarts
log
record p0 {"body":"red fox"}
record p0 oops
record p0 {"body":"red hen"}
> at 1000
> indexer 0
> indexer 0
> indexer 0
> indexer 0
> restart node
> indexer 0
> indexer 0
> indexer 0
> indexer 0
> indexer 0
> client a {"search":{"query":"red"}}
> client a
> client a
> client a
< at 1000
< indexer 0 checkpoint
< indexer 0 read 3
< indexer 0 staged 1
< indexer 0 uploaded 1
< node restarted 2
< indexer 0 checkpoint
< indexer 0 read 3
< indexer 0 staged 2
< indexer 0 uploaded 2
< indexer 0 published 2
< a opened
< a planned 4 1
< a fetched 2
< {"aggregations":{},"client":"a","hits":[{"body":"red fox"},{"body":"red hen"}],"num_hits":2,"revision":4}
run 0
row two words are both asked, and no hits are shown where none are wanted
log
record p0 {"body":"red fox"}
record p0 oops
record p0 {"body":"red hen"}
> at 1000
> indexer 0
> indexer 0
> indexer 0
> indexer 0
> indexer 0
> client a {"search":{"query":"red fox"}}
> client a
> client a
> client a
> client a {"search":{"query":"*","max_hits":0}}
> client a
> client a
> client a
< at 1000
< indexer 0 checkpoint
< indexer 0 read 3
< indexer 0 staged 1
< indexer 0 uploaded 1
< indexer 0 published 1
< a opened
< a planned 3 1
< a fetched 1
< {"aggregations":{},"client":"a","hits":[{"body":"red fox"}],"num_hits":1,"revision":3}
< a opened
< a planned 3 1
< a fetched 1
< {"aggregations":{},"client":"a","hits":[],"num_hits":2,"revision":3}
run 0
row a late reader is stale
log
record p0 {"body":"red fox"}
record p0 oops
record p0 {"body":"red hen"}
log
record p0 {"body":"red fox"}
record p0 oops
record p0 {"body":"red hen"}
> at 1000
> indexer 0
> indexer 1
> indexer 0
> indexer 1
> indexer 0
> indexer 1
> indexer 0
> indexer 1
> indexer 0
> indexer 1
> client a {"search":{"query":"red"}}
> client a
> client a
> client a
< at 1000
< indexer 0 checkpoint
< indexer 1 checkpoint
< indexer 0 read 3
< indexer 1 read 3
< indexer 0 staged 1
< indexer 1 staged 2
< indexer 0 uploaded 1
< indexer 1 uploaded 2
< indexer 0 published 1
< indexer 1 stale p0 3 0
< a opened
< a planned 4 1
< a fetched 1
< {"aggregations":{},"client":"a","hits":[{"body":"red fox"},{"body":"red hen"}],"num_hits":2,"revision":4}
run 0
row one stale part
log
record p0 {"body":"red"}
record p1 {"body":"red"}
log
record p0 {"body":"red"}
record p1 {"body":"red"}
> at 1000
> assign 1 p1
> indexer 0
> indexer 0
> indexer 0
> indexer 1
> indexer 1
> indexer 1
> indexer 1
> indexer 1
> indexer 0
> indexer 0
> indexer 0
> client a {"search":{"query":"red"}}
> client a
> client a
> client a
< at 1000
< indexer 1 assigned 1
< indexer 0 checkpoint
< indexer 0 read 1
< indexer 0 read 1
< indexer 1 checkpoint
< indexer 1 read 1
< indexer 1 staged 1
< indexer 1 uploaded 1
< indexer 1 published 1
< indexer 0 staged 2
< indexer 0 uploaded 2
< indexer 0 stale p1 1 0
< a opened
< a planned 4 1
< a fetched 1
< {"aggregations":{},"client":"a","hits":[{"body":"red"}],"num_hits":1,"revision":4}
run 0
row a publish lands a call later
log
record p0 {"body":"red fox"}
record p0 oops
record p0 {"body":"red hen"}
failkey 1 meta/00000000000000000002
> at 1000
> indexer 0
> indexer 0
> indexer 0
> indexer 0
> indexer 0
> indexer 0
> indexer 0
> indexer 0
> client a {"search":{"query":"red"}}
> client a
> client a
> client a
< at 1000
< indexer 0 checkpoint
< indexer 0 read 3
< indexer 0 staged 1
< indexer 0 uploaded 1
< indexer 0 storefault 0 1
< indexer 0 checkpoint
< indexer 0 read 0
< indexer 0 caughtup
< a opened
< a planned 3 1
< a fetched 1
< {"aggregations":{},"client":"a","hits":[{"body":"red fox"},{"body":"red hen"}],"num_hits":2,"revision":3}
run 0
row a publish never lands
log
record p0 {"body":"red fox"}
record p0 oops
record p0 {"body":"red hen"}
failkey never meta/00000000000000000002
> at 1000
> indexer 0
> indexer 0
> indexer 0
> indexer 0
> indexer 0
> indexer 0
> indexer 0
> indexer 0
> indexer 0
> indexer 0
> client a {"search":{"query":"red"}}
> client a
> client a
> client a
< at 1000
< indexer 0 checkpoint
< indexer 0 read 3
< indexer 0 staged 1
< indexer 0 uploaded 1
< indexer 0 storefault 0 1
< indexer 0 checkpoint
< indexer 0 read 3
< indexer 0 staged 2
< indexer 0 uploaded 2
< indexer 0 published 2
< a opened
< a planned 5 1
< a fetched 2
< {"aggregations":{},"client":"a","hits":[{"body":"red fox"},{"body":"red hen"}],"num_hits":2,"revision":5}
run 0
row an upload never lands
log
record p0 {"body":"red fox"}
record p0 oops
record p0 {"body":"red hen"}
failkey never splits/00000000000000000001
> at 1000
> indexer 0
> indexer 0
> indexer 0
> indexer 0
> indexer 0
> indexer 0
> indexer 0
> indexer 0
> indexer 0
> client a {"search":{"query":"red"}}
> client a
> client a
> client a
< at 1000
< indexer 0 checkpoint
< indexer 0 read 3
< indexer 0 staged 1
< indexer 0 storefault 0 1
< indexer 0 checkpoint
< indexer 0 read 3
< indexer 0 staged 2
< indexer 0 uploaded 2
< indexer 0 published 2
< a opened
< a planned 4 1
< a fetched 2
< {"aggregations":{},"client":"a","hits":[{"body":"red fox"},{"body":"red hen"}],"num_hits":2,"revision":4}
run 0
row a fetch fails
log
record p0 {"body":"red fox"}
record p0 oops
record p0 {"body":"red hen"}
failcall never 7
> at 1000
> indexer 0
> indexer 0
> indexer 0
> indexer 0
> indexer 0
> client a {"search":{"query":"red"}}
> client a
> client a
> client a {"search":{"query":"red"}}
> client a
> client a
> client a
< at 1000
< indexer 0 checkpoint
< indexer 0 read 3
< indexer 0 staged 1
< indexer 0 uploaded 1
< indexer 0 published 1
< a opened
< a planned 3 1
< {"client":"a","error":{"after":1,"before":0,"kind":"StoreFault"},"revision":3}
< a opened
< a planned 3 1
< a fetched 1
< {"aggregations":{},"client":"a","hits":[{"body":"red fox"},{"body":"red hen"}],"num_hits":2,"revision":3}
run 0
row a restart fails
log
record p0 {"body":"red fox"}
record p0 oops
record p0 {"body":"red hen"}
failcall never 4
> restart node
> indexer 0
> collector
> restart collector
> restart node
> collector
< node storefault 0 1
< indexer 0 down
< collector down
< collector restarted
< node restarted 1
< collector nothing
run 0
row a source fails, and is given back with its count
log
record p0 {"body":"red fox"}
record p0 oops
record p0 {"body":"red hen"}
faillog 1
> indexer 0
< indexer 0 sourcefault 0 1
run 0
row words that name no command
log
record p0 {"body":"red fox"}
record p0 oops
record p0 {"body":"red hen"}
word on
> at 5
< error 1 badwords
run 1
row a word that is none
log
record p0 {"body":"red fox"}
record p0 oops
record p0 {"body":"red hen"}
> at 5
> jump
< at 5
< error 3 badline 2
run 3
row a moment that falls
log
record p0 {"body":"red fox"}
record p0 oops
record p0 {"body":"red hen"}
> at 5
> at 4
< at 5
< error 3 badline 2
run 3
row an indexer that is none
log
record p0 {"body":"red fox"}
record p0 oops
record p0 {"body":"red hen"}
> indexer 1
< error 3 badline 1
run 3
row a partition twice
log
record p0 {"body":"red fox"}
record p0 oops
record p0 {"body":"red hen"}
> assign 0 p0 p0
< error 3 badline 1
run 3
row a number with a zero before it
log
record p0 {"body":"red fox"}
record p0 oops
record p0 {"body":"red hen"}
> at 05
< error 3 badline 1
run 3
row an empty line
log
record p0 {"body":"red fox"}
record p0 oops
record p0 {"body":"red hen"}
> 
< error 3 badline 1
run 3
row the store fails while opening
log
record p0 {"body":"red fox"}
record p0 oops
record p0 {"body":"red hen"}
failcall never 2
> at 5
< error 4 storefault 0 1
run 4
row the first read fails
log
record p0 {"body":"red fox"}
record p0 oops
record p0 {"body":"red hen"}
failread 1
> at 5
< error 5 readfault
run 5
row the second read fails
log
record p0 {"body":"red fox"}
record p0 oops
record p0 {"body":"red hen"}
failread 2
> at 5
< at 5
< error 5 readfault
run 5
row behind a last line without a line feed nothing is read
log
record p0 {"body":"red fox"}
record p0 oops
record p0 {"body":"red hen"}
failread 3
>> at 5
< at 5
run 0
row the second write fails
log
record p0 {"body":"red fox"}
record p0 oops
record p0 {"body":"red hen"}
failwrite 2
> at 5
> at 6
< at 5
run 6
row the output has room for seven bytes
log
record p0 {"body":"red fox"}
record p0 oops
record p0 {"body":"red hen"}
room 7
> at 5
> at 6
< at 5
<< at
run 6
row no index
vacant
log
record p0 {"body":"red fox"}
record p0 oops
record p0 {"body":"red hen"}
> at 5
< error 8 noindex
run 8
row a key that is no entry's
object meta/a QWJ
log
record p0 {"body":"red fox"}
record p0 oops
record p0 {"body":"red hen"}
> at 5
< error 7 foreign meta/a
run 7
row an object that is no entry
vacant
object meta/00000000000000000000 QWJ
log
record p0 {"body":"red fox"}
record p0 oops
record p0 {"body":"red hen"}
> at 5
< error 7 corrupt meta/00000000000000000000
run 7
row a run of 255 letters is a token, and one of 256 is none
log
record p0 {"body":"aaaaaaaaaaaaaaaaaaaaaaaaaaaaaaaaaaaaaaaaaaaaaaaaaaaaaaaaaaaaaaaaaaaaaaaaaaaaaaaaaaaaaaaaaaaaaaaaaaaaaaaaaaaaaaaaaaaaaaaaaaaaaaaaaaaaaaaaaaaaaaaaaaaaaaaaaaaaaaaaaaaaaaaaaaaaaaaaaaaaaaaaaaaaaaaaaaaaaaaaaaaaaaaaaaaaaaaaaaaaaaaaaaaaaaaaaaaaaaaaaaaaaaaaaaaaaaa fox"}
record p1 {"body":"aaaaaaaaaaaaaaaaaaaaaaaaaaaaaaaaaaaaaaaaaaaaaaaaaaaaaaaaaaaaaaaaaaaaaaaaaaaaaaaaaaaaaaaaaaaaaaaaaaaaaaaaaaaaaaaaaaaaaaaaaaaaaaaaaaaaaaaaaaaaaaaaaaaaaaaaaaaaaaaaaaaaaaaaaaaaaaaaaaaaaaaaaaaaaaaaaaaaaaaaaaaaaaaaaaaaaaaaaaaaaaaaaaaaaaaaaaaaaaaaaaaaaaaaaaaaaaaa fox"}
> at 1000
> indexer 0
> indexer 0
> indexer 0
> indexer 0
> indexer 0
> indexer 0
> client a {"search":{"query":"aaaaaaaaaaaaaaaaaaaaaaaaaaaaaaaaaaaaaaaaaaaaaaaaaaaaaaaaaaaaaaaaaaaaaaaaaaaaaaaaaaaaaaaaaaaaaaaaaaaaaaaaaaaaaaaaaaaaaaaaaaaaaaaaaaaaaaaaaaaaaaaaaaaaaaaaaaaaaaaaaaaaaaaaaaaaaaaaaaaaaaaaaaaaaaaaaaaaaaaaaaaaaaaaaaaaaaaaaaaaaaaaaaaaaaaaaaaaaaaaaaaaaaaaaaaaaaa"}}
> client a
> client a
> client a
< at 1000
< indexer 0 checkpoint
< indexer 0 read 1
< indexer 0 read 1
< indexer 0 staged 1
< indexer 0 uploaded 1
< indexer 0 published 1
< a opened
< a planned 3 1
< a fetched 1
< {"aggregations":{},"client":"a","hits":[{"body":"aaaaaaaaaaaaaaaaaaaaaaaaaaaaaaaaaaaaaaaaaaaaaaaaaaaaaaaaaaaaaaaaaaaaaaaaaaaaaaaaaaaaaaaaaaaaaaaaaaaaaaaaaaaaaaaaaaaaaaaaaaaaaaaaaaaaaaaaaaaaaaaaaaaaaaaaaaaaaaaaaaaaaaaaaaaaaaaaaaaaaaaaaaaaaaaaaaaaaaaaaaaaaaaaaaaaaaaaaaaaaaaaaaaaaaaaaaaaaaaaaaaaaaaaaaaaaaa fox"}],"num_hits":1,"revision":3}
run 0
row a search of no documents, and requests that are refused
log
> client a {"search":{"query":"*"}}
> client a
> client a
> client a {"remove":{"query":"fox"}}
> client a
> client a {"search":{"query":"size:[1 TO"}}
> client a
> client a {"search":{"query":"size:1"}}
> client a
> client a {"search":{"query":"*","max_hits":10001}}
> client a
> client a red
> client a
< a opened
< a planned 1 0
< {"aggregations":{},"client":"a","hits":[],"num_hits":0,"revision":1}
< a opened
< {"client":"a","error":{"kind":"UnknownKey","name":"remove"},"revision":1}
< a opened
< {"client":"a","error":{"at":10,"kind":"Syntax"},"revision":1}
< a opened
< {"client":"a","error":{"kind":"UnknownField","name":"size"},"revision":1}
< a opened
< {"client":"a","error":{"kind":"TooManyHits","wanted":10001},"revision":1}
< a opened
< {"client":"a","error":{"kind":"NotJson"},"revision":1}
run 0
row an index is made, searched, and not made again
vacant
command create
config
< created
run 0
log
> client a {"search":{"query":"*"}}
> client a
> client a
< a opened
< a planned 1 0
< {"aggregations":{},"client":"a","hits":[],"num_hits":0,"revision":1}
run 0
command create
config
< error 9 indexexists
run 9
row a key that no configuration has, and the empty store stays empty
vacant
command create
config colour = "red"
< error 2 unknownkey colour
run 2
> at 5
< error 8 noindex
run 8
row a key with a line feed is told on one line
vacant
command create
config "a\nb" = "red"
< error 2 unknownkey a?b
run 2
row an input that is no configuration, and one that is too long
vacant
command create
long 1048576
< error 2 nottoml
run 2
command create
long 1048577
< error 10 limit config 1048576
run 10
row a Create that never lands is made by the next life
vacant
command create
failkey never meta/00000000000000000000
config
< error 4 storefault 0 1
run 4
command create
config
< created
run 0
row a Create that fails stands
vacant
command create
failkey once meta/00000000000000000000
config
< error 4 storefault 0 1
run 4
command create
config
< error 9 indexexists
run 9
row a Create lands in the next life, as its own begins
vacant
command create
failkey 2 meta/00000000000000000000
config
< error 4 storefault 0 1
run 4
command create
config
< error 9 indexexists
run 9
row an input that fails, and an output that does
vacant
command create
failread 1
config
< error 5 readfault
run 5
command create
failwrite 1
config
run 6
command create
config
< error 9 indexexists
run 9
row an object that is no entry is no index to be made
vacant
object meta/00000000000000000000 QWJ
command create
config
< error 7 corrupt meta/00000000000000000000
run 7
row create and a word more
vacant
command create
word drive
config
< error 1 badwords
run 1
row a line over its limit
log
record p0 {"body":"red fox"}
record p0 oops
record p0 {"body":"red hen"}
> at 5
long 2097153
< at 5
< error 10 limit line 2097152
run 10
row a client too many
log
record p0 {"body":"red fox"}
record p0 oops
record p0 {"body":"red hen"}
room 400000
clients 10000
> restart client c10000
< error 10 limit clients 10000
run 10
"#;
