//! Logs worked out by hand: legal ones, and each way to break them at one record.

/// Legal logs, each under its name. With each record: the bytes in use on page 0 after it, the page's entry, and what the
/// undo of each transaction needs there. Each log begins at the log's start, and a batch ends with each commit and
/// end: 5 bytes come before the first record of a batch.
pub(crate) const LOGS: &str =
    "full-undo: a deleter's bytes stay its own: what another inserts leaves the room for the undo, to the last byte
5 1 insert 0 0.0 0 61*4000 | 4004 0
4028 1 enter 0 3 | 4004 3
4038 1 commit | 4004 3
4048 2 delete 0 0.0 0 61*4000 | 4 3 2:4000
8071 2 enter 0 0 | 4 0 2:4000
8081 3 insert 0 0.1 0 62*72 | 80 0 2:4000
8176 3 commit | 80 0 2:4000
8186 2 enter 0 3 | 80 3 2:4000
8196 2 undo 4048 0 0.0 61*4000 | 4080 3
12226 2 end | 4080 3

refilled: a deleter puts a shorter row into the slot that it emptied, and undoes both
5 1 insert 0 0.0 0 61*4000 | 4004 0
4028 1 enter 0 3 | 4004 3
4038 1 commit | 4004 3
4048 2 delete 0 0.0 0 61*4000 | 4 3 2:4000
8071 2 enter 0 0 | 4 0 2:4000
8081 2 insert 4048 0.0 4000 63*3000 | 3004 0 2:1000
11104 2 enter 0 2 | 3004 2 2:1000
11114 2 enter 0 0 | 3004 0 2:1000
11124 2 undo 8081 4048 0.0 - | 4 0 2:4000
11152 2 enter 0 3 | 4 3 2:4000
11162 2 undo 4048 0 0.0 61*4000 | 4004 3
15192 2 end | 4004 3

savepoint: on a full page a delete and an insert are undone, and the slot stays; transaction 3 commits no change
5 1 insert 0 0.0 0 61*100 | 104 0
128 1 insert 5 0.1 0 62*3918 | 4026 0
4069 1 enter 0 3 | 4026 3
4079 1 commit | 4026 3
4089 2 insert 0 0.2 0 63*50 | 4080 3
4162 2 delete 4089 0.0 0 61*100 | 3980 3 2:100
4285 2 undo 4162 4089 0.0 61*100 | 4080 3
4415 2 undo 4089 0 0.2 - | 4030 3
4443 2 commit | 4030 3
4453 3 commit | 4030 3

kept-category: the page has the same category after an undo, so the inventory is entered once
5 1 insert 0 0.0 0 61*1000 | 1004 0
1028 1 commit | 1004 0
1038 2 insert 0 0.1 0 62*20 | 1028 0
1081 2 enter 0 1 | 1028 1
1091 3 insert 0 0.2 0 63*100 | 1132 1
1214 3 commit | 1132 1
1224 2 undo 1038 0 0.1 - | 1112 1
1252 2 end | 1112 1

lowered: after an undo the page has a lower category than another transaction entered and committed
5 1 insert 0 0.0 0 61*500 | 504 0
528 2 insert 0 0.1 0 62*516 | 1024 0
1067 2 enter 0 1 | 1024 1
1077 2 commit | 1024 1
1087 1 enter 0 0 | 1024 0
1097 1 undo 5 0 0.0 - | 524 0
1125 1 end | 524 0

updates: two transactions update rows of one page, and one of them undoes its update
5 1 insert 0 0.0 0 61*1 | 5 0
29 1 insert 5 0.1 0 62*1 | 10 0
53 1 commit | 10 0
63 2 update 0 0.0 0 61*1 63*1 | 10 0
90 3 update 0 0.1 0 62*1 64*1 | 10 0
117 3 undo 90 0 0.1 62*1 | 10 0
148 3 end | 10 0
158 2 commit | 10 0

own-row: a transaction updates a row of its own, to a full page
5 1 insert 0 0.0 0 61*100 | 104 0
128 1 insert 5 0.1 0 62*3900 | 4008 0
4051 1 enter 0 3 | 4008 3
4061 1 update 128 0.0 0 61*100 63*172 | 4080 3
4358 1 update 4061 0.0 0 63*172 64*172 | 4080 3
4727 1 commit | 4080 3

suffix: an insert, then a delete: the delete is undone first, so that needs all of the row's bytes
5 1 insert 0 0.0 0 61*100 | 104 0
128 1 commit | 104 0
138 2 insert 0 0.1 0 62*50 | 158 0
211 2 delete 138 0.0 0 61*100 | 58 0 2:100
334 2 insert 211 1.0 0 63*10 | 58 0 2:100
367 2 insert 334 0.2 100 63*10 | 72 0 2:90
400 2 commit | 72 0

deleters: two deleters, and an insert that takes what they leave
5 1 insert 0 0.0 0 61*2000 | 2004 0
2028 1 enter 0 1 | 2004 1
2038 1 insert 5 0.1 0 62*2000 | 4008 1
4061 1 enter 0 3 | 4008 3
4071 1 commit | 4008 3
4081 2 delete 0 0.0 0 61*2000 | 2008 3 2:2000
6104 2 enter 0 1 | 2008 1 2:2000
6114 3 delete 0 0.1 0 62*2000 | 8 1 2:2000 3:2000
8137 3 enter 0 0 | 8 0 2:2000 3:2000
8147 4 insert 0 0.2 0 63*68 | 80 0 2:2000 3:2000
8238 4 commit | 80 0 2:2000 3:2000
8248 3 enter 0 2 | 80 2 2:2000 3:2000
8258 3 undo 6114 0 0.1 62*2000 | 2080 2 2:2000
10288 3 end | 2080 2 2:2000
10298 2 commit | 2080 2

listed: a checkpoint with two losers, of which one has nothing pending, and a checkpoint with none
5 1 insert 0 0.0 0 61*1 | 5 0
29 1 commit | 5 0
39 2 insert 0 0.1 0 62*1 | 10 0
63 3 insert 0 0.2 0 63*1 | 15 0
87 3 undo 63 0 0.2 - | 14 0
115 0 list 4 2:39,3:0 - - | 14 0
159 2 commit | 14 0
169 3 end | 14 0
179 0 list 4 - - - | 14 0";

/// Cases under the condition that is broken first, in the order in which conditions are looked at; the record may
/// break later ones too. With each: a legal log, the places of its records from and up to which others stand in their
/// stead, the LSN of the first record with which it is not legal, and then each choice of others.
pub(crate) const BROKEN: &str = "NotAbove kept-category 2 3 1028 | 1028 2 insert 0 0.1 0 62*20
NotAbove kept-category 5 6 1090 | 1090 3 commit
NotAbove kept-category 0 1 0 | 0 1 insert 0 0.0 0 61*1000
NotAbove kept-category 2 2 1028 | 1028 1 commit
Finished kept-category 2 2 1033 | 1033 1 commit
Finished lowered 6 7 1125 | 1125 2 end
Finished kept-category 2 3 1038 | 1038 1 insert 0 0.1 0 62*20 | 1038 1 insert 0 0.0 0 62*20
Finished lowered 5 6 1097 | 1097 2 undo 528 0 0.1 -
Finished lowered 4 5 1087 | 1087 2 enter 0 0
Finished kept-category 8 8 1262 | 1262 2 end | 1262 2 commit
NotHeld kept-category 2 3 1038 | 1038 2 insert 0 0.0 0 62*20 | 1038 2 delete 0 0.1 0 62*20
NotHeld full-undo 3 4 4048 | 4048 2 delete 0 0.0 0 62*4000
NotHeld own-row 4 5 4358 | 4358 1 update 4061 0.0 0 61*100 64*172
NotHeld kept-category 3 4 1081 | 1081 3 insert 0 0.1 0 63*100
Others full-undo 5 6 8081 | 8081 3 insert 0 0.0 0 62*72 | 8081 3 insert 4048 0.0 0 62*72
Others savepoint 8 8 4443 | 4443 3 insert 0 0.2 0 64*1
Under refilled 5 6 8081 | 8081 2 insert 4047 0.0 4000 63*3000 | 8081 2 insert 4047 0.0 0 63*3000
Under own-row 4 5 4358 | 4358 1 update 128 0.0 0 63*172 64*172
Under own-row 1 2 128 | 128 1 insert 0 0.1 0 62*3900
Under savepoint 8 8 4443 | 4443 2 insert 4089 0.3 0 64*1
Under lowered 1 2 528 | 528 2 insert 5 0.1 0 62*516
Need suffix 5 6 367 | 367 2 insert 334 0.2 50 63*10
Need savepoint 5 6 4162 | 4162 2 delete 4089 0.0 100 61*100
Need suffix 4 5 334 | 334 2 insert 211 1.0 100 63*10
Need refilled 5 6 8081 | 8081 2 insert 4048 0.0 0 63*3000
Need savepoint 4 5 4089 | 4089 2 insert 0 0.2 1 63*51
Undone refilled 7 9 11114 | 11114 2 undo 4048 0 0.0 61*4000
Undone refilled 8 9 11124 | 11124 2 undo 4048 4048 0.0 -
Undone refilled 11 11 15192 | 15192 2 undo 4048 0 0.0 61*4000
Undone kept-category 6 7 1224 | 1224 4 undo 1038 0 0.1 - | 1224 2 undo 1091 0 0.2 -
Rid kept-category 6 7 1224 | 1224 2 undo 1038 0 0.2 - | 1224 2 undo 1038 1038 0.2 -
Next savepoint 6 7 4285 | 4285 2 undo 4162 0 0.0 61*100
Next kept-category 6 7 1224 | 1224 2 undo 1038 1038 0.1 -
Next full-undo 7 8 8186 | 8186 2 undo 4048 4048 0.0 61*4000
Back updates 5 6 117 | 117 3 undo 90 0 0.1 64*1
Back savepoint 6 7 4285 | 4285 2 undo 4162 4089 0.0 -
Back full-undo 7 8 8186 | 8186 2 undo 4048 0 0.0 61*4076
NoChange full-undo 4 5 8071 | 8071 4 enter 0 0 | 8071 4 enter 0 3
NoChange savepoint 8 8 4443 | 4443 2 enter 0 0
NoChange suffix 5 5 362 | 362 2 enter 0 1
StillPending refilled 9 11 15192 |
StillPending lowered 4 6 1125 |
NextId listed 5 6 115 | 115 0 list 3 2:39,3:0 - - | 115 0 list 3 - - -
NextId listed 8 9 179 | 179 0 list 3 - - -
Forgotten listed 5 6 115 | 115 0 list 4 - - - | 115 0 list 4 3:0 - - | 115 0 list 4 2:39 - - | 115 0 list 4 1:0,2:39 - -
TooMany listed 5 6 115 | 115 0 list 4 1:0,2:39,3:0 - - | 115 0 list 5 2:39,3:0,4:0 - - | 115 0 list 4 1:0,2:0,3:0 - -
TooMany listed 8 9 179 | 179 0 list 4 3:0 - -
LoserPlace listed 5 6 115 | 115 0 list 4 2:39,3:63 - - | 115 0 list 4 2:0,3:0 - -
NoRoom full-undo 5 6 8081 | 8081 3 insert 0 0.1 0 62*73
NoRoom deleters 9 10 8147 | 8147 4 insert 0 0.2 0 63*69
NoRoom savepoint 4 5 4089 | 4089 2 insert 0 0.2 0 63*51 | 4089 2 insert 0 0.5 0 63*39
NoRoom own-row 3 4 4061 | 4061 1 update 128 0.0 0 61*100 63*173
Entry full-undo 7 9 8186 | 8186 2 undo 4048 0 0.0 61*4000; 12216 2 enter 0 3
Entry lowered 4 5 1097 |
SameCategory kept-category 5 5 1209 | 1209 3 enter 0 1
SameCategory full-undo 1 2 4052 | 4028 1 insert 5 0.1 0 62*1; 4052 1 enter 0 0
WrongCategory kept-category 6 6 1219 | 1219 2 enter 0 0
WrongCategory full-undo 1 2 4028 | 4028 1 enter 0 2
EntryBehind full-undo 1 2 4038 |
EntryBehind own-row 2 3 4727 |
EntryBehind lowered 5 6 1097 | 1097 1 commit";
