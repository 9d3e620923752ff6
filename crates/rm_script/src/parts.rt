//! Writing one line of its parts.

ghost use Rattle.std.specs.Prelude.{◌≡◌, ◌≤◌, ◌++◌, codes, decimal, length, take, OnOk, OnErr, vec_len};
ghost use Rattle.rm_script.specs.Parts.{part_text, parts_text};
ghost use Rattle.rm_script.specs.Rows.{hex};
ghost use Rattle.rm_script.specs.Targets.{place};
ghost use Rattle.rm_script.specs.Texts.{shown};

use itoa::Buffer;
use rm_types::{MAX_ROW, NoMemory, Rid, Row};

/// A part of a printed line.
#[derive(Clone, Copy, Debug)]
pub enum Part<'a> {
    /// Words as they stand.
    Word(&'a [u8]),
    /// A number, in decimal.
    Number(u64),
    /// A page and a slot, with a dot between.
    Place(Rid),
    /// A row in hexadecimal digits, a dash for an empty one.
    Row(&'a Row),
}

/// Appends the parts and an LF. [`NoMemory`] leaves `out` as it was.
pub fn write_line(parts: &[Part<'_>], out: &mut Vec<u8>) -> Result<(), NoMemory>
    ensures ok { OnOk result (out.new.items ≡ out.old.items ++ (parts_text parts.now ++ codes "\n")) }
    ensures err { OnErr result (out.new.items ≡ out.old.items) }
{
    let start = out.len();
    let written = append_line(parts, out);
    if written.is_err() {
        out.truncate(start);
    }
    written
}

// On an error the line may stand in part after what `out` had.
fn append_line(parts: &[Part<'_>], out: &mut Vec<u8>) -> Result<(), NoMemory>
    ensures ok { OnOk result (out.new.items ≡ out.old.items ++ (parts_text parts.now ++ codes "\n")) }
    ensures prefix { take (vec_len out.old) out.new.items ≡ out.old.items }
{
    for part in parts {
        append_part(part, out)?;
    }
    out.push(b'\n')?;
    Ok(())
}

fn append_part(part: &Part<'_>, out: &mut Vec<u8>) -> Result<(), NoMemory>
    ensures ok { OnOk result (out.new.items ≡ out.old.items ++ part_text part.now) }
    ensures prefix { take (vec_len out.old) out.new.items ≡ out.old.items }
{
    match part {
        Part::Word(word) => out.extend_from_slice(word)?,
        Part::Number(number) => append_number(*number, out)?,
        Part::Place(rid) => append_place(*rid, out)?,
        Part::Row(row) => append_row(row.as_slice(), out)?,
    }
    Ok(())
}

fn append_place(rid: Rid, out: &mut Vec<u8>) -> Result<(), NoMemory>
    ensures ok { OnOk result (out.new.items ≡ out.old.items ++ place rid) }
    ensures prefix { take (vec_len out.old) out.new.items ≡ out.old.items }
{
    append_number(u64::from(rid.page), out)?;
    out.push(b'.')?;
    append_number(u64::from(rid.slot), out)
}

fn append_number(number: u64, out: &mut Vec<u8>) -> Result<(), NoMemory>
    ensures ok { OnOk result (out.new.items ≡ out.old.items ++ decimal number) }
    ensures err { OnErr result (out.new.items ≡ out.old.items) }
{
    let mut buffer = Buffer::new();
    out.extend_from_slice(buffer.format(number).as_bytes())?;
    Ok(())
}

fn append_row(row: &[u8], out: &mut Vec<u8>) -> Result<(), NoMemory>
    requires { length row.now ≤ MAX_ROW }
    ensures ok { OnOk result (out.new.items ≡ out.old.items ++ shown row.now) }
    ensures err { OnErr result (out.new.items ≡ out.old.items) }
{
    if row.is_empty() {
        out.push(b'-')?;
        return Ok(());
    }
    append_digits(row, out)
}

fn append_digits(row: &[u8], out: &mut Vec<u8>) -> Result<(), NoMemory>
    requires { length row.now ≤ MAX_ROW }
    ensures ok { OnOk result (out.new.items ≡ out.old.items ++ hex row.now) }
    ensures err { OnErr result (out.new.items ≡ out.old.items) }
{
    let start = out.len();
    let digits = 2 * row.len();
    out.resize(start + digits, 0)?;
    // It refuses only a place of another length than the digits'.
    hex::encode_to_slice(row, &mut out[start..]).unwrap();
    Ok(())
}
