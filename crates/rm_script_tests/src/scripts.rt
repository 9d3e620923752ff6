//! Scripts as they are read.

use rm_events::Script;
use rm_script::{ScriptRefused, read_script, turn_count};
use std::alloc::Global;
use std::test::Fail;

/// Scripts, `;` for the end of a line: how many sessions, words and turns each has, or why it is refused.
const SCRIPTS: &str = "0 sessions, 0 words, 0 turns||turns|turns;
0 sessions, 1 words, 0 turns|turns;finish 4294967295
0 sessions, 1 words, 1 turns|turns;f|turns;f*1
1 sessions, 0 words, 0 turns|session 1|session 1;|session 1;begin;insert $a 2*61;read $a;update $z 616a;update 0.0 0*ff
1 sessions, 0 words, 0 turns|session 1;delete $a;delete 4294967295.65535;save 0;back 255;commit;abort;turns
1 sessions, 1 words, 200000 turns|session 1;turns;1*200000|session 1;turns;finish 200000
2 sessions, 3 words, 8 turns|session 1;session 2;begin;turns;1*3 2;finish 2
16 sessions, 1 words, 16 turns|session 1;session 2;session 3;session 4;session 5;session 6;session 7;session 8;\
session 9;session 10;session 11;session 12;session 13;session 14;session 15;session 16;turns;16*16
too many turns|session 1;turns;1*200000 f|session 1;turns;finish 200001|session 1;session 2;turns;finish 100001
too many turns|session 1;turns;finish 4294967295;finish 4294967295;1
wrong 1|;|;begin|begin|session 2|session 0|session 01|session  1|session 1\x20|session|Session 1|finish 1|1|f|turns\x20
wrong 2|session 1;session 1|session 1;session 3|session 1;;|session 1;turns\x20|session 1;1
wrong 2|session 1;f|session 1;finish 1|session 1;begin\x20|session 1;inserts $a 61|session 1;insert $A 61
wrong 2|session 1;insert $a 4077*61|session 1;insert $a 61\x20|session 1;read|session 1;read $ab|session 1;read 0.65536
wrong 2|session 1;update $a|session 1;update $a  61|session 1;update 0 61|session 1;delete\x20|session 1;delete a
wrong 2|session 1;save 256|session 1;save 01|session 1;save|session 1;back -1|session 1;back 2 2|session 1;commits
wrong 2|session 1;Abort|session 1;commit\r
wrong 3|session 1;turns;;|session 1;turns;2|session 1;turns;0|session 1;turns;1*0|session 1;turns;1*200001
wrong 3|session 1;turns;1  1|session 1;turns;1\x20|session 1;turns; 1|session 1;turns;c|session 1;turns;k
wrong 3|session 1;turns;i|session 1;turns;F|session 1;turns;f*|session 1;turns;*3|session 1;turns;1*2*3|session 1;turns;1*02
wrong 3|session 1;turns;begin|session 1;turns;session 2|session 1;turns;turns|session 1;turns;finish|session 1;turns;finish\x20
wrong 3|session 1;turns;finish 4294967296|session 1;turns;finish 01|session 1;turns;finish 1 1
wrong 4|session 1;turns;finish 200001;2|session 1;turns;f;1 f 1 2;|session 1;begin;turns;;begin
wrong 17|session 1;session 2;session 3;session 4;session 5;session 6;session 7;session 8;session 9;session 10;\
session 11;session 12;session 13;session 14;session 15;session 16;session 17";

/// The text with the end of a line in place of each `;`.
fn lines(alloc: Global, text: &str) -> Result<String, Fail> {
    let mut made = String::new(alloc);
    for c in text.chars() {
        made.push(if c == ';' { '\n' } else { c })?;
    }
    Ok(made)
}

/// What a script has, in the words of the table.
fn content(alloc: Global, script: &Script) -> Result<String, Fail> {
    let sessions = script.sessions.len();
    let words = script.words.len();
    match turn_count(script) {
        Ok(turns) => Ok(format!(in alloc; "{sessions} sessions, {words} words, {turns} turns")?),
        Err(ScriptRefused::Limit { which }) => Ok(format!(in alloc; "too many {which}")?),
        Err(refused) => Err(refused.into()),
    }
}

/// How a script is read, in the words of the table.
fn reading(alloc: Global, text: &str) -> Result<String, Fail> {
    match read_script(alloc, lines(alloc, text)?.as_bytes()) {
        Ok(script) => content(alloc, &script),
        Err(ScriptRefused::Bad { line }) => Ok(format!(in alloc; "wrong {line}")?),
        Err(refused) => Err(refused.into()),
    }
}

#[test]
fn the_first_wrong_line_is_named(rt: HostRuntime) -> Result<(), Fail> {
    for row in SCRIPTS.split('\n') {
        let (due, texts) = row.split_once('|').ok_or("no script")?;
        for text in texts.split('|') {
            assert_eq!(rt; reading(rt.alloc(), text)?.as_str(), due, "{text:?}");
        }
    }
    Ok(())
}

#[test]
fn lines_and_words_mean_what_they_say(rt: HostRuntime) -> Result<(), Fail> {
    let alloc = rt.alloc();
    let text =
        b"session 1\ninsert $b 3*0a\nupdate 7.65535 00ff\nsession 2\nsave 9\nturns\n2 1*3 f\nfinish 5";
    let script = read_script(alloc, text)?;
    let found = format!(in alloc; "{:?} {:?}", script.sessions, script.words)?;
    let due = "[[Insert(Name { number: 1 }, Row { bytes: [10, 10, 10] }), \
               Update(At(Rid { page: 7, slot: 65535 }), Row { bytes: [0, 255] })], [Save(9)]] \
               [Turns { actor: Session(2), count: 1 }, Turns { actor: Session(1), count: 3 }, \
               Turns { actor: Flush, count: 1 }, Finish { rounds: 5 }]";
    assert_eq!(rt; found.as_str(), due);
    Ok(())
}
