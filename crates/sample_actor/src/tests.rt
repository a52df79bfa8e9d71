//! Scripts for the test actors, one a line: its words, and behind the arrow their answers (`player.rt` and `hands.rt` describe both). A
//! word for which memory is refused is done again. So each line holds with ample memory, and if any one request for memory is refused. A
//! line with an arrival that is not done again, `arrive?`, has behind a bar the answers if that arrival is refused.
//! `tools/gate/refuse_memory.py` refuses each request in turn.
//!
//! A script does not release what it held (`forget`): the crates of these types prove that it can, and a second proof here would take long.
mod alone;
mod asking;
mod hands;
mod mailing;
mod player;

use player::tell;
use std::alloc::Global;
use std::io::{BufRead, BufReader};
use std::test::Fail;

// The scripts. A line without an arrow states what the scripts below it show.
const SCRIPTS: &str = "\
Messages are handled in their order, and undone to the opening state; committed events are not undone.
run +10 +20 +30 tray arrive arrive arrive arrive tray run run run run outbox => none 3 0 0 0 none 0 10 20 30 none +15.0 +25.1 +35.2 sum 0 counter 0
+30 +10 +20 arrive arrive arrive run run run run => 0 0 0 10 20 30 none sum 0 counter 0
+10 arrive run +20 arrive run +30 arrive run seal seal seal seal => 0 10 0 20 0 30 1 1 1 0 sum 60 counter 3
+10 arrive run +20 arrive run +30 arrive run outbox post outbox +15 arrive outbox oldest run outbox => 0 10 0 20 0 30 +15.0 +25.1 +35.2 2 -35.2 -25.1 10 15 -35.2 -25.1 +20.1 sum 0 counter 0
+10 arrive run +20 arrive run +30 arrive run post +15 arrive seal seal => 0 10 0 20 0 30 2 1 0 sum 10 counter 1
+10 arrive run +20 arrive run +30 arrive run +40 arrive run +15 arrive outbox count:15 oldest next => 0 10 0 20 0 30 0 40 3 +15.0 +25.1 +35.2 +45.3 -45.3 -35.2 -25.1 1 10 15@2 sum 0 counter 0
+10 arrive run +20 arrive run +30 arrive run post +40 arrive +15 arrive outbox run run => 0 10 0 20 0 30 0 2 -35.2 -25.1 15 20 sum 0 counter 0
+1 arrive run +2 arrive run +3 arrive run +4 arrive run +5 arrive run +6 arrive run +7 arrive run +8 arrive run +9 arrive run +10 arrive run +11 arrive run +12 arrive run +13 arrive run +14 arrive run +15 arrive run +16 arrive run +17 arrive run +18 arrive run +19 arrive run +20 arrive run +21 arrive run +22 arrive run +23 arrive run +24 arrive run +25 arrive run +11@1 arrive oldest next post take:1:25 take:1:38 take:1:38 => 0 1 0 2 0 3 0 4 0 5 0 6 0 7 0 8 0 9 0 10 0 11 0 12 0 13 0 14 0 15 0 16 0 17 0 18 0 19 0 20 0 21 0 22 0 23 0 24 0 25 15 1 11@1 -30.24 -16.10 none sum 0 counter 0
+10 arrive run +10@1 arrive next => 0 10 1 10@1 sum 0 counter 0
+10@1 arrive run +10 arrive next => 0 10 0 10@2 sum 0 counter 0
+10 arrive run +20 arrive run +30 arrive run post -20 arrive outbox run outbox run => 0 10 0 20 0 30 2 -35.2 -25.1 30 -35.2 -25.1 +35.1 none sum 0 counter 0
+10 arrive run +20 arrive run +30 arrive run post -20 arrive seal seal => 0 10 0 20 0 30 2 1 0 sum 10 counter 1
-10 arrive count:10 next +10 arrive count:10 next run oldest => 0 -1 none 0 0 none none none sum 0 counter 0
+10 arrive run +10 arrive count:10 seal -10 arrive count:10 oldest run committed seal committed rows count:10 oldest seal => 0 10 0 2 0 0 1 10 none 0 1 1 0 0 none 0 sum 10 counter 1
Where memory is refused as the straggler arrives, the three events stay done, it stays in the tray, and nothing is sent; then it undoes two.
+10 arrive run +20 arrive run +30 arrive run post +15 tray committable:50:9 outbox arrive tray committable:50:9 outbox => 0 10 0 20 0 30 1 3 2 0 1 -35.2 -25.1 sum 0 counter 0
A message is present where its count is above 0, and is handled once however often it came.
+10 +10 +10 arrive arrive arrive count:10 next run run => 0 0 0 3 10@2 10 none sum 0 counter 0
+10 +10 +10 -10 -10 arrive arrive arrive arrive count:10 arrive count:10 next => 0 0 0 0 2 0 1 10@2 sum 0 counter 0
+10 -10 -10 -10 +10 arrive next arrive next arrive count:10 arrive count:10 arrive count:10 next => 0 10@2 0 none 0 -1 0 -2 0 -1 none sum 0 counter 0
+30 +10 +20 +20 -5 -15 arrive arrive arrive arrive arrive arrive count:5 count:20 count:20@3 run run run run => 0 0 0 0 0 0 -1 2 0 10 20 30 none sum 0 counter 0
+30 +10 +20 +20 -5 -15 arrive arrive arrive arrive arrive arrive run run seal seal count:10 count:15 count:20 count:30 => 0 0 0 0 0 0 10 20 1 0 0 -1 2 1 sum 10 counter 1
reserve_letters:3 +10 +20 +30 tray => 3 sum 0 counter 0
counter:4611686018427387880 +10 +20 arrive arrive run run next outbox => 0 0 10 exhausted 20@2 +15.4611686018427387880 sum 0 counter 4611686018427387880
counter:4611686018427387881 run +10 arrive run next tray => none 0 exhausted 10@2 0 sum 0 counter 4611686018427387881
alone:4611686018427387880 alone:4611686018427387881 => 0 exhausted sum 0 counter 0
back => 3 0 0 sum 0 counter 0
Only what is earlier than GVT is committed, the oldest first, so many at most, and up to a message that came twice.
+50 arrive run commit:50:9 committed oldest => 0 50 0 0 50 sum 0 counter 0
+49 arrive run +50 arrive run commit:50:9 committed oldest commit:50:9 seal => 0 49 0 50 1 1 50 0 1 sum 99 counter 2
+10 arrive run +20 arrive run +30 arrive run commit:50:0 commit:50:2 committed oldest count:10 commit:50:1 commit:50:1 oldest => 0 10 0 20 0 30 0 2 2 30 0 1 0 none sum 60 counter 3
+10 arrive run +20 arrive run +30 arrive run commit:50:9 committed oldest count:20 => 0 10 0 20 0 30 3 3 none 0 sum 60 counter 3
+10 arrive run +20 arrive run +30 arrive run +20 arrive committable:50:9 commit:50:9 committed oldest => 0 10 0 20 0 30 0 1 1 1 20 sum 10 counter 1
+10 arrive run +20 arrive run +30 arrive run committable:30:9 committable:30:1 committable:10:9 reserve_rows:3 seal seal seal seal => 0 10 0 20 0 30 2 1 0 1 1 1 0 sum 60 counter 3
+10 arrive run +40 arrive run post horizon commit:15:9 take:1:0 horizon commit:45:9 take:1:0 horizon take:1:0 => 0 10 0 40 15 1 +15.0 45 1 +45.1 1000000000000001 none sum 50 counter 2
The floor of a process, and the least of the floors and of the letters in the mail.
floor +10 arrive run floor +40 floor arrive floor -50 floor -30 floor => 1000000000000001 0 10 1000000000000001 40 0 40 40 30 sum 0 counter 0
set:0:80 set:1:80 set:2:80 send:1:-50 horizon => 50 sum 0 counter 0
horizon set:1:90 lower:2:70 horizon lower:2:75 horizon set:2:95 horizon => 1000000000000001 70 70 90 sum 0 counter 0
lower:0:40 send:1:-50 horizon => 40 sum 0 counter 0
Letters are posted in order, each to its receiver, and taken from any place.
send:1:+20 send:0:-30 send:1:-10 take:1:2 take:2:0 take:3:0 take:1:1 take:1:0 take:1:0 take:0:0 take:0:0 => none none none -10.0 +20.0 none -30.0 none sum 0 counter 0
send:1:+20 send:1:-10 send:1:+30 take:1:0 take:1:0 take:1:0 => +20.0 -10.0 +30.0 sum 0 counter 0
+10 arrive run +20 arrive run +30 arrive run post outbox take:1:0 take:1:0 take:1:0 take:1:0 => 0 10 0 20 0 30 +15.0 +25.1 +35.2 none sum 0 counter 0
+10 arrive run send:1:+5 post take:1:1 take:1:0 => 0 10 +15.0 +5.0 sum 0 counter 0
+10 arrive run reserve_post outbox take:1:0 post take:1:0 => 0 10 +15.0 none +15.0 sum 0 counter 0
A straggler among so many letters that the map grows for it: committing and undoing shows that nothing was undone, or it is tried again.
+10 arrive run +20 arrive run +30 arrive run post -41 arrive -42 arrive -43 arrive -44 arrive -45 arrive -46 arrive -47 arrive -48 arrive -49 arrive -50 arrive -51 arrive -52 arrive +15 arrive? tray outbox seal seal seal => 0 10 0 20 0 30 0 0 0 0 0 0 0 0 0 0 0 0 2 0 -35.2 -25.1 1 0 0 sum 10 counter 1 | 0 10 0 20 0 30 0 0 0 0 0 0 0 0 0 0 0 0 refused 1 1 1 1 sum 60 counter 3
+10 arrive run +20 arrive run +30 arrive run post -41 arrive -42 arrive -43 arrive -44 arrive -45 arrive -46 arrive -47 arrive -48 arrive -49 arrive -50 arrive -51 arrive -52 arrive +15 arrive? tray committable:50:9 outbox arrive tray outbox => 0 10 0 20 0 30 0 0 0 0 0 0 0 0 0 0 0 0 2 0 1 -35.2 -25.1 none 0 -35.2 -25.1 sum 0 counter 0 | 0 10 0 20 0 30 0 0 0 0 0 0 0 0 0 0 0 0 refused 1 3 2 0 -35.2 -25.1 sum 0 counter 0
+10 arrive run +20 arrive run +30 arrive run post -41 arrive -42 arrive -43 arrive -44 arrive -45 arrive -46 arrive -47 arrive -48 arrive -49 arrive -50 arrive -51 arrive -52 arrive -53 arrive +15 arrive? tray outbox seal seal seal => 0 10 0 20 0 30 0 0 0 0 0 0 0 0 0 0 0 0 0 2 0 -35.2 -25.1 1 0 0 sum 10 counter 1 | 0 10 0 20 0 30 0 0 0 0 0 0 0 0 0 0 0 0 0 refused 1 1 1 1 sum 60 counter 3
+10 arrive run +20 arrive run +30 arrive run post -41 arrive -42 arrive -43 arrive -44 arrive -45 arrive -46 arrive -47 arrive -48 arrive -49 arrive -50 arrive -51 arrive -52 arrive -53 arrive +15 arrive? tray committable:50:9 outbox arrive tray outbox => 0 10 0 20 0 30 0 0 0 0 0 0 0 0 0 0 0 0 0 2 0 1 -35.2 -25.1 none 0 -35.2 -25.1 sum 0 counter 0 | 0 10 0 20 0 30 0 0 0 0 0 0 0 0 0 0 0 0 0 refused 1 3 2 0 -35.2 -25.1 sum 0 counter 0
A straggler that takes back more messages than the outbox has room for.
+10 arrive run post +11 arrive run post +12 arrive run post +13 arrive run post +14 arrive run post +15 arrive run post +16 arrive run post +17 arrive run post +18 arrive run post +19 arrive run post +20 arrive run post +21 arrive run post +22 arrive run post +23 arrive run post +24 arrive run post +25 arrive run post +26 arrive run post +27 arrive run post +28 arrive run post +29 arrive run post +30 arrive run post +31 arrive run post +32 arrive run post +33 arrive run post +34 arrive run post +5 arrive? tray committable:50:99 outbox commit:50:99 => 0 10 0 11 0 12 0 13 0 14 0 15 0 16 0 17 0 18 0 19 0 20 0 21 0 22 0 23 0 24 0 25 0 26 0 27 0 28 0 29 0 30 0 31 0 32 0 33 0 34 25 0 0 -39.24 -38.23 -37.22 -36.21 -35.20 -34.19 -33.18 -32.17 -31.16 -30.15 -29.14 -28.13 -27.12 -26.11 -25.10 -24.9 -23.8 -22.7 -21.6 -20.5 -19.4 -18.3 -17.2 -16.1 -15.0 0 sum 0 counter 0 | 0 10 0 11 0 12 0 13 0 14 0 15 0 16 0 17 0 18 0 19 0 20 0 21 0 22 0 23 0 24 0 25 0 26 0 27 0 28 0 29 0 30 0 31 0 32 0 33 0 34 refused 1 25 25 sum 550 counter 25
+10 arrive run post +11 arrive run post +12 arrive run post +13 arrive run post +14 arrive run post +15 arrive run post +16 arrive run post +17 arrive run post +18 arrive run post +19 arrive run post +20 arrive run post +21 arrive run post +22 arrive run post +23 arrive run post +24 arrive run post +25 arrive run post +26 arrive run post +27 arrive run post +28 arrive run post +29 arrive run post +30 arrive run post +31 arrive run post +32 arrive run post +33 arrive run post +34 arrive run post +5 arrive? tray outbox arrive outbox => 0 10 0 11 0 12 0 13 0 14 0 15 0 16 0 17 0 18 0 19 0 20 0 21 0 22 0 23 0 24 0 25 0 26 0 27 0 28 0 29 0 30 0 31 0 32 0 33 0 34 25 0 -39.24 -38.23 -37.22 -36.21 -35.20 -34.19 -33.18 -32.17 -31.16 -30.15 -29.14 -28.13 -27.12 -26.11 -25.10 -24.9 -23.8 -22.7 -21.6 -20.5 -19.4 -18.3 -17.2 -16.1 -15.0 none -39.24 -38.23 -37.22 -36.21 -35.20 -34.19 -33.18 -32.17 -31.16 -30.15 -29.14 -28.13 -27.12 -26.11 -25.10 -24.9 -23.8 -22.7 -21.6 -20.5 -19.4 -18.3 -17.2 -16.1 -15.0 sum 0 counter 0 | 0 10 0 11 0 12 0 13 0 14 0 15 0 16 0 17 0 18 0 19 0 20 0 21 0 22 0 23 0 24 0 25 0 26 0 27 0 28 0 29 0 30 0 31 0 32 0 33 0 34 refused 1 25 -39.24 -38.23 -37.22 -36.21 -35.20 -34.19 -33.18 -32.17 -31.16 -30.15 -29.14 -28.13 -27.12 -26.11 -25.10 -24.9 -23.8 -22.7 -21.6 -20.5 -19.4 -18.3 -17.2 -16.1 -15.0 sum 0 counter 0
A group does what its processes do one by one, and tells it (`hands.rt` says how).
hand:3 +10:0 next floor arrive next floor run:10 run:50 run:50 abroad states rows => . none . 10 . A0 . 10:0:9:0 . 10 . idle . ran R0 H0 H2 . ran R0 H0 H2 . . 25.4 0.0 0.0 . .
hand:1 +9:0 arrive run:50 run:50 run:50 abroad states commit:12 rows next floor => . A0 . ran R0 . idle . idle . +14:4:0:0 +16:1:0:1 . 9.2 . C0 . 9:0:9:0 . none . 1000000000000001 .
hand:5 +10:0 +11:1 arrive run:90 run:90 +3:2 arrive run:90 next floor states => . . A0 A1 . ran R0 H0 H2 . ran R1 H1 H3 . . A2 . ran R2 T3 T0 . 15:0:0:0 . 8 . 10.2 11.2 3.2 0.0 0.0 .
A message that comes late is undone by its process alone, and what it sent is taken back.
hand:3 +10:0 +10:1 +10:2 arrive run:11 run:11 run:11 +4:1 arrive abroad states run:5 run:11 abroad states => . . . A0 A1 A2 . ran R0 H0 H2 . ran R1 H0 H2 . ran R2 H0 H2 . . A1 T2 T0 A2 A0 . . 10.2 0.0 10.2 . ran R1 T1 . ran R1 T0 T2 . +9:4:1:0 . 10.2 14.4 10.2 .
hand:2 +15:0 arrive run:99 run:99 run:99 +1:0 arrive next states abroad run:99 run:99 states => . A0 . ran R0 H0 . ran R0 H0 . ran R0 H0 . . A0 T0 T0 T0 A0 A0 A0 . 1:0:9:0 . 0.0 0.0 . +22:2:0:1 +27:2:0:3 +32:2:0:5 -32:2:0:5 -27:2:0:3 -22:2:0:1 . ran R0 H1 . ran R1 H1 . 1.2 6.2 .
A message of a group counts as often as it came, and its antimessage may come first.
hand:3 +10:0 arrive run:90 -10:0 arrive next states -10:0 arrive +10:0 arrive next +10:0 arrive next => . A0 . ran R0 H0 H2 . . A0 T2 T0 A2 A0 . none . 0.0 0.0 0.0 . . A0 . . A0 . none . . A0 . 10:0:9:0 .
hand:3 -10:1 arrive next floor +10:1 arrive next +10:1 arrive next run:90 states => . A1 . none . 1000000000000001 . . A1 . none . . A1 . 10:1:9:0 . ran R1 H0 H2 . 0.0 10.2 0.0 .
hand:2 +10:1 +10:1 +10:1 arrive next run:90 next run:90 run:90 next commit:50 rows -10:1 -10:1 arrive commit:50 rows states => . . . A1 A1 A1 . 10:1:9:0 . ran R1 H0 . 10:1:9:0 . ran . ran . 15:0:1:0 . . . . . A1 A1 . C1 . 10:1:9:0 . 0.0 10.2 .
hand:2 +10:1 +10:1 arrive run:90 floor exact next steps => . . A1 A1 . ran R1 H0 . 10 . 15 . 15:0:1:0 . 8 .
hand:2 +10:1 arrive run:90 +10:1 arrive next -10:1 arrive next commit:50 rows => . A1 . ran R1 H0 . . A1 . 15:0:1:0 . . A1 . 15:0:1:0 . C1 . 10:1:9:0 .
hand:2 -20:0:1:0 +13:1 arrive run:90 floor arrive next run:90 states => . . A0 A1 . ran R1 H0 . 20 . . 20:0:1:1 . ran R0 H0 . 20.2 13.2 .
hand:2 -15:0:1:0 +10:1 arrive run:90 floor next arrive next +15:0:1:0 arrive next floor => . . A0 A1 . ran R1 T0 . 15 . none . A0 . none . . A0 . 15:0:1:0 . 15 .
hand:4 +10:0 +20:1 +30:2 +40:3 arrive run:50 run:50 run:50 run:50 +5:3 arrive next states run:6 arrive next states => . . . . A0 A1 A2 A3 . ran R0 H0 H2 . ran R0 H0 H2 . ran R2 H2 . ran R0 H0 H2 . . A3 . 5:3:9:0 . 45.6 0.0 17.2 0.0 . ran R3 T0 T2 . A0 T2 T0 T2 T0 T2 T0 A2 T2 A2 A0 A2 A0 A2 A0 A2 . 10:0:3:0 . 0.0 0.0 0.0 5.2 .
What is early and counts once is committed, the oldest first.
hand:3 +10:0 +20:1 arrive run:21 run:21 +15:2 arrive next run:16 states arrive next commit:16 rows states => . . A0 A1 . ran R0 H0 H2 . ran R0 H0 H2 . . A2 . 15:2:9:0 . ran R2 H0 H2 . 25.4 0.0 15.2 . . 17:2:0:1 . C0 C0 C2 . 10:0:9:0 15:0:0:0 15:2:9:0 . 25.4 0.0 15.2 .
hand:3 +10:0 +12:1 +13:2 arrive commit:11 run:14 commit:11 rows commit:13 run:14 run:14 commit:13 rows run:14 commit:99 rows => . . . A0 A1 A2 . . ran R0 H0 H2 . C0 . 10:0:9:0 . . ran R1 H2 . ran R2 H0 . C1 . 10:0:9:0 12:1:9:0 . idle . C2 . 10:0:9:0 12:1:9:0 13:2:9:0 .
hand:3 +10:0 +12:1 +13:2 arrive run:14 run:14 run:14 before:13 before:10 commit:99 rows gone:12 rows before:99 gone:99 rows => . . . A0 A1 A2 . ran R0 H0 H2 . ran R1 H2 . ran R2 H0 . yes 10 . no 10 . C0 C1 C2 . 10:0:9:0 12:1:9:0 13:2:9:0 . . 12:1:9:0 13:2:9:0 . no none . . .
Letters for others, a group of none, and the end of the run.
hand:1 +10:0 arrive run:90 abroad -10:0 arrive abroad next states => . A0 . ran R0 H0 . +17:2:0:1 . . A0 T0 A0 . -17:2:0:1 . none . 0.0 .
hand:0 +10:0 arrive next floor run:90 commit:50 rows abroad states => . . none . 1000000000000001 . idle . . . . .
hand:1 +999999999999994:0 arrive run:1000000000000000 abroad next floor states => . A0 . ran R0 . +999999999999999:4:0:0 . none . 1000000000000001 . 999999999999994.1 .
hand:2 +10:0 +11:1 run:90 next floor arrive run:90 run:90 +1:0 +2:1 arrive states next => . . idle . none . 10 . A0 A1 . ran R0 H0 . ran R1 H1 . . . A0 T0 A1 T1 A0 A1 . 0.0 0.0 . 1:0:9:0 .";

// Returns the answers of the words of a script. A script that could not begin for lack of memory begins once more.
fn play_line(rt: &HostRuntime, script: &str) -> String {
    let mut told = with_room(rt.alloc());
    if !has_begun(rt, script, &mut told) {
        let _once_more = has_begun(rt, script, &mut told);
    }
    told
}

// Makes room for all that rows write, also if it is refused once.
fn with_room(alloc: Global) -> String {
    let mut told = String::new(alloc);
    let _ = told.reserve(4096);
    let _ = told.reserve(4096);
    told
}

// Plays a script on a group if it opens one, and otherwise on a process, if memory for it is available.
fn has_begun(rt: &HostRuntime, script: &str, told: &mut String) -> bool {
    if script.starts_with("hand:") {
        hands::play(rt, script, told)
    } else {
        player::play(rt, script, told)
    }
}

// Whether these are the answers of the row, or those for the case that an arrival that is not done again is refused memory.
fn is_said(played: &str, row: &str) -> bool {
    let (done, refused) = row.split_once(" | ").unwrap_or((row, row));
    let played = played.trim_end();
    played == done || played == refused
}

// Tries one line. A line that is not a script states what those below it show.
fn try_line(rt: &HostRuntime, line: &str, wrong: &mut String) {
    let is_right = match line.split_once(" => ") {
        Some((script, row)) => is_said(&play_line(rt, script), row),
        None => line.ends_with('.'),
    };
    if !is_right {
        tell(wrong, line);
        tell(wrong, "\n");
    }
}

#[test]
fn scripts_tell_what_their_lines_say(rt: HostRuntime) {
    let mut wrong = with_room(rt.alloc());
    for line in SCRIPTS.lines() {
        try_line(&rt, line, &mut wrong);
    }
    assert!(rt; wrong.is_empty(), "{wrong}");
}

// Writes the answers of the scripts of standard input, one a line. Only `tools/tests/test_processes.py` gives some.
#[test]
fn scripts_of_standard_input_are_played(rt: HostRuntime) -> Result<(), Fail> {
    for line in BufReader::new(rt.alloc(), rt.reader())?.lines(rt.alloc()) {
        println!(rt; "{}", play_line(&rt, &line?))?;
    }
    Ok(())
}
