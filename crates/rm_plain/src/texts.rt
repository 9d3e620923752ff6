//! How replies are written.

ghost use Rattle.std.specs.Prelude.{◌≡◌, ◌++◌, OnOk, OnErr};
ghost use Rattle.rm_plain.specs.Texts.{text_of, turn_line, words_of};
ghost use Rattle.rm_script.specs.Parts.{parts_text};

use rm_script::{Part, write_line};
use rm_types::{NoMemory, Reply};

fn words(reply: &Reply) -> [Part<'_>; 2]
    ensures { parts_text result ≡ words_of reply.now }
{
    match reply {
        Reply::Began(id) => [Part::Word(b"begin "), Part::Number(u64::from(id.0))],
        Reply::Inserted(rid) => [Part::Word(b"inserted "), Part::Place(*rid)],
        Reply::NoSpace => alone(b"nospace"),
        Reply::Row(row) => [Part::Word(b"row "), Part::Row(row)],
        Reply::NoRow => alone(b"norow"),
        Reply::BadRid => alone(b"badrid"),
        Reply::Committed => alone(b"committed"),
        Reply::Unbound => alone(b"unbound"),
        Reply::Skipped => alone(b"skipped"),
    }
}

fn alone(word: &[u8]) -> [Part<'_>; 2]
    ensures { parts_text result ≡ word.now }
{
    [Part::Word(word), Part::Word(b"")]
}

/// Appends a reply's line. `NoMemory` leaves `out` as it was.
pub fn reply_text(reply: &Reply, out: &mut Vec<u8>) -> Result<(), NoMemory>
    ensures ok { OnOk result (out.new.items ≡ out.old.items ++ text_of reply.now) }
    ensures err { OnErr result (out.new.items ≡ out.old.items) }
{
    write_line(&words(reply), out)
}

/// Appends a reply's line of `turns`, after its session's number. `NoMemory` leaves `out` as it was.
pub fn turn_text(session: u8, reply: &Reply, out: &mut Vec<u8>) -> Result<(), NoMemory>
    ensures ok { OnOk result (out.new.items ≡ out.old.items ++ turn_line session reply.now) }
    ensures err { OnErr result (out.new.items ≡ out.old.items) }
{
    let [word, rest] = words(reply);
    let number = Part::Number(u64::from(session));
    write_line(&[number, Part::Word(b" "), word, rest], out)
}
