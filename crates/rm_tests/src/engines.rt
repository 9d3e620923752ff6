//! Sessions of rm_engine over a volume in memory.

ghost use Rattle.std.specs.Prelude.{◌^◌, ◌≤◌};
ghost use Rattle.rm_types.specs.declared.areas.Area.{Area as Areas};
ghost use Rattle.rm_types.specs.declared.numbers.TheConstants.{MAX_PAGES, MAX_LOG};
ghost use Rattle.rm_outside.specs.Moments.{IsDurable};
ghost use Rattle.rm_memory.specs.Volumes.{content_of, may_leave_of};
ghost use Rattle.rm_engine.specs.Numbers.{IsReady};

use crate::texts::lines;
use rm_engine::{Engine, TurnFault};
use rm_master::Master;
use rm_memory::MemVolume;
use rm_plain::{Line, read_plain, reply_text};
use rm_restart::restart;
use rm_types::{MAX_LOG, MAX_PAGES, Reply};
use std::alloc::Global;
use std::test::Fail;

/// The last id.
const LAST: u64 = u32::MAX as u64;

/// A session that has not ended, and its volume.
#[derive(Drop)]
struct Stand {
    engine: Engine,
    volume: MemVolume,
    ghost ready: { IsReady engine.session.core engine.log engine.inserts },
    ghost durable: { IsDurable Areas.Log (content_of volume) (may_leave_of volume) },
}

impl Stand {
    /// A session on a new volume of one page, whose log may have `limit` bytes and whose first transaction gets the id
    /// `next`.
    fn new(alloc: Global, limit: u64, next: u64) -> Result<Stand, Fail>
        requires limit { limit ≤ MAX_LOG }
        requires next { (1 ≤ next) × (next ≤ 2 ^ 32) }
    {
        let mut volume = MemVolume::new(alloc);
        Master::create(&mut volume, 1)?;
        let opened = restart(alloc, &mut volume, limit)?;
        if opened.pages.len() > MAX_PAGES as usize {
            return Err("too many pages".into());
        }
        let engine = Engine::new(opened.pages, next, opened.log);
        Ok(Stand { engine, volume })
    }

    /// Does a line. The session ends with an error.
    fn turn(self, line: &Line) -> Result<(Stand, Reply), TurnFault> {
        let Stand {
            mut engine,
            mut volume,
        } = self;
        let reply = engine.turn(&mut volume, line)?;
        Ok((Stand { engine, volume }, reply))
    }

    /// What the lines are answered, up to the first that ends the session.
    fn replies(self, alloc: Global, lines: &[Line]) -> Result<String, Fail> {
        let mut text = Vec::new(alloc);
        let mut stand = self;
        for line in lines {
            match stand.turn(line) {
                Ok((next, reply)) => {
                    stand = next;
                    reply_text(&reply, &mut text)?;
                }
                Err(fault) => {
                    text.extend_from_slice(format!(in alloc; "{fault:?}")?.as_bytes())?;
                    break;
                }
            }
        }
        Ok(String::from_utf8(text)?)
    }
}

/// The log's limit and the next id; the lines; and their replies. A transaction with an insert of two bytes needs 190
/// bytes of log at most, and its batch ends at 35.
const CASES: &str = "68 1|begin|LogFull { end: 5 }
69 1|begin;insert $a 2*07;commit|begin 1;LogFull { end: 5 }
189 1|begin;insert $a 2*07;commit|begin 1;LogFull { end: 5 }
190 1|begin;insert $a 2*07;commit|begin 1;inserted 0.0;committed;
224 1|begin;insert $a 2*07;commit;begin;insert $a 2*07|begin 1;inserted 0.0;committed;begin 2;LogFull { end: 40 }
225 1|begin;insert $a 2*07;commit;begin;insert $a 2*07|begin 1;inserted 0.0;committed;begin 2;inserted 0.1;
4264 1|begin;insert $a 4076*07;insert $a 0*07;commit|begin 1;inserted 0.0;nospace;committed;
999 4294967295|begin;commit;begin|begin 4294967295;committed;TxnsSpent { last: TxnId(4294967295) }
999 4294967296|begin;commit;begin|TxnsSpent { last: TxnId(4294967295) }";

#[test]
fn a_session_fits_exactly_or_ends(rt: HostRuntime) -> Result<(), Fail> {
    let alloc = rt.alloc();
    for case in CASES.split('\n') {
        let (numbers, rest) = case.split_once('|').ok_or("no lines")?;
        let (limit, next) = numbers.split_once(' ').ok_or("no id")?;
        let (script, due) = rest.split_once('|').ok_or("no replies")?;
        let script = read_plain(alloc, lines(alloc, script)?.as_bytes())?;
        let (limit, next) = (limit.parse::<u64>()?, next.parse::<u64>()?);
        assert!(rt; limit <= MAX_LOG && 1 <= next && next <= LAST + 1);
        let replies = Stand::new(alloc, limit, next)?.replies(alloc, &script.lines)?;
        assert_eq!(rt; replies.as_str(), lines(alloc, due)?.as_str(), "{case}");
    }
    Ok(())
}
