//! Scripts as rm_plain reads them.

use crate::texts::lines;
use rm_plain::{ScriptRefused, read_plain, read_turns};
use std::alloc::Global;
use std::test::Fail;

/// Scripts in the plain form, `;` for the end of a line: how many lines each has, or its first wrong line.
const PLAIN: &str = "0 lines|
1 lines|begin|begin;|commit|insert $a 2*61|insert $z 0*ff|insert $m 4076*00|insert $a 61|insert $a 00ff
1 lines|insert $a 0123456789abcdef|read $a|read $z|read 0.0|read 7.10|read 4294967295.65535
2 lines|begin;commit|begin;commit;
5 lines|begin;insert $b 3*0a;read $b;read 1.0;commit;
wrong 1|;|read  $a|insert  $a 61|insert $a  61| begin|begin\x20|read $a\x20|insert $a 61\x20|Begin|BEGIN|begi|commits
wrong 1|read|read\x20|read $|read $A|read $`|read ${|read $ab|read a|read 0|read .0|read 0.|read 0.0.0|read 00.0
wrong 1|read 1.01|read +1.1|read 1.-1|read 0.65536|read 4294967296.0|read é.0|insert $a|insert $a\x20|insert 61
wrong 1|insert $a 4077*61|insert $a 02*61|insert $a *61|insert $a 2*6|insert $a 2*6A|insert $a 616|insert $a 6A
wrong 2|begin;;commit|begin;;|begin;commit\r;|begin;read\t$a;
wrong 3|begin;read $a;update 0.0 61;commit";

/// The same in the form of `turns`: how many lines the session has.
const TURNS: &str = "0 lines|session 1;turns;finish 200000|session 1;turns;finish 200000;
1 lines|session 1;begin;turns;finish 200000
5 lines|session 1;begin;insert $b 3*0a;read $b;read 1.0;commit;turns;finish 200000;
wrong 1||;|begin|turns;finish 200000|session 2;turns;finish 200000|session 01;turns;finish 200000
wrong 1|session  1;turns;finish 200000|session 1 ;turns;finish 200000|session;turns;finish 200000
wrong 1|Session 1;turns;finish 200000
wrong 2|session 1|session 1;|session 1;;turns;finish 200000|session 1;session 1;turns;finish 200000
wrong 2|session 1;finish 200000|session 1;turn;finish 200000|session 1;turns ;finish 200000
wrong 3|session 1;begin;|session 1;begin;inse|session 1;begin;read $A;turns;finish 200000
wrong 3|session 1;begin;finish 200000|session 1;turns|session 1;turns;|session 1;turns;;finish 200000
wrong 3|session 1;turns;finish 199999|session 1;turns;finish 200000\x20|session 1;turns;begin;finish 200000
wrong 4|session 1;begin;turns;turns;finish 200000|session 1;turns;finish 200000;;
wrong 4|session 1;turns;finish 200000;finish 200000
wrong 5|session 1;begin;turns;finish 200000;commit;";

/// How a form reads a script, in the words of the tables.
fn reading(alloc: Global, is_turns: bool, text: &str) -> Result<String, Fail> {
    let script = lines(alloc, text)?;
    let read = if is_turns {
        read_turns(alloc, script.as_bytes())
    } else {
        read_plain(alloc, script.as_bytes())
    };
    match read {
        Ok(script) => Ok(format!(in alloc; "{} lines", script.lines.len())?),
        Err(ScriptRefused::Bad { line }) => Ok(format!(in alloc; "wrong {line}")?),
        Err(refused) => Err(refused.into()),
    }
}

#[test]
fn the_first_wrong_line_is_named(rt: HostRuntime) -> Result<(), Fail> {
    for (is_turns, table) in [(false, PLAIN), (true, TURNS)] {
        for row in table.split('\n') {
            let (due, texts) = row.split_once('|').ok_or("no script")?;
            for text in texts.split('|') {
                assert_eq!(rt;
                    reading(rt.alloc(), is_turns, text)?.as_str(),
                    due,
                    "{text:?}"
                );
            }
        }
    }
    Ok(())
}

#[test]
fn lines_mean_what_they_say(rt: HostRuntime) -> Result<(), Fail> {
    let alloc = rt.alloc();
    let text = b"begin\ninsert $b 3*0a\ninsert $z 00ff\nread $b\nread 7.65535\ncommit";
    let script = read_plain(alloc, text)?;
    let found = format!(in alloc; "{:?}", script.lines)?;
    let due = "[Begin, Insert(Name { number: 1 }, Row { bytes: [10, 10, 10] }), \
               Insert(Name { number: 25 }, Row { bytes: [0, 255] }), \
               Read(Name(Name { number: 1 })), Read(At(Rid { page: 7, slot: 65535 })), Commit]";
    assert_eq!(rt; found.as_str(), due);
    Ok(())
}
