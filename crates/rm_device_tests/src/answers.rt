//! What a volume makes of files that take or give a part, that a signal interrupts, and that fail.

ghost use Rattle.std.specs.Prelude.{◌≡◌, ◌≤◌, []};
ghost use Rattle.rm_calls.specs.Answers.{count_of};

use rm_calls::{Answer, Calls, Modelled, Record, Unknown};
use rm_outside::Volume;
use rm_types::Area;
use std::alloc::Global;
use std::test::Fail;

/// How a call is answered, in the order of the calls: `.` in full, a digit for so many bytes, `i` interrupted, `f` failed;
/// in full where none is left. Then the calls on area Log of the volume, `w` to write `abcd` at 0, `r` to read 4 bytes
/// there and `s` to sync; which went well; and the bytes of the last read that did, `_` for 0.
const CASES: &str = "....|wsr|+++|abcd
i.|wr|++|abcd
iii.|r|+|____
2.|wr|--|
i3.|wr|--|
f.|wr|--|
f.|ws|--|
.f.|wsr|+--|
.i.|wsr|+--|
.f.|wss|+--|
.12.|wr|++|abcd
.1i1f.|wrr|+-+|abcd
.20|wr|++|ab__
f.|rr|-+|____
0|w|-|";

/// A file that answers as a table says.
#[derive(Drop)]
struct Fake {
    answers: &'static [u8],
    bytes: [u8; 4],
    noted: Record,
}

impl Fake {
    fn new(answers: &'static str) -> Fake
        ensures { result.noted.calls ≡ [] }
    {
        Fake {
            answers: answers.as_bytes(),
            bytes: [0; 4],
            noted: Record::new(),
        }
    }

    /// The next answer to a call for this many bytes.
    fn next(&mut self, len: usize) -> Answer
        ensures bound { count_of result ≤ len }
        ensures noted { self.new.noted ≡ self.old.noted }
    {
        let Some((first, rest)) = self.answers.split_first() else {
            return Answer::Done(len);
        };
        self.answers = rest;
        match *first {
            b'i' => Answer::Interrupted,
            b'f' => Answer::Failed,
            digit @ b'0'..=b'9' => Answer::Done(len.min((digit - b'0') as usize)),
            _ => Answer::Done(len),
        }
    }
}

impl Calls for Fake {
    ghost history = { λ fake. fake.noted.calls };

    fn read_some(&mut self, area: Area, at: u64, into: &mut [u8]) -> Answer {
        let answer = self.next(into.len());
        let rest = &self.bytes[(at as usize).min(self.bytes.len())..];
        let count = rest.len().min(into.len());
        into[..count].copy_from_slice(&rest[..count]);
        self.noted.read(area, at, &into[..answer.count()], answer);
        answer
    }

    fn write_some(&mut self, area: Area, at: u64, from: &[u8]) -> Answer {
        let answer = self.next(from.len());
        let count = answer.count().min(from.len()).min(self.bytes.len());
        self.bytes[..count].copy_from_slice(&from[..count]);
        self.noted.wrote(area, at, from, answer);
        answer
    }

    fn sync(&mut self, area: Area) -> Answer {
        let answer = self.next(0);
        self.noted.synced(area, answer);
        answer
    }
}

/// The calls on the volume: which went well, and the bytes of the last read that did.
fn results(alloc: Global, answers: &'static str, calls: &str) -> Result<String, Fail> {
    let mut volume = Modelled::<Fake, Unknown>::new(Fake::new(answers));
    let mut text = String::new(alloc);
    let mut found = None;
    for call in calls.bytes() {
        let mut bytes = [b'?'; 4];
        let done = match call {
            b'w' => volume.write(Area::Log, 0, b"abcd"),
            b's' => volume.sync(Area::Log),
            _ => volume.read(Area::Log, 0, &mut bytes),
        };
        text.push(if done.is_ok() { '+' } else { '-' })?;
        if call == b'r' && done.is_ok() {
            found = Some(bytes);
        }
    }
    text.push('|')?;
    for byte in found.iter().flatten() {
        text.push(if *byte == 0 { '_' } else { char::from(*byte) })?;
    }
    Ok(text)
}

#[test]
fn a_call_is_made_again_fails_or_loses_its_area(rt: HostRuntime) -> Result<(), Fail> {
    for case in CASES.split('\n') {
        let (answers, rest) = case.split_once('|').ok_or("no calls")?;
        let (calls, due) = rest.split_once('|').ok_or("no results")?;
        let found = results(rt.alloc(), answers, calls)?;
        assert_eq!(rt; found.as_str(), due, "{case}");
    }
    Ok(())
}
