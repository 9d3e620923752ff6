//! The spellings of rows.

ghost use Rattle.std.specs.Prelude.{◌≡◌, ℕ, ◌<◌, List, [], ◌∷◌, IfOk, IfSome, IfNone};
ghost use Rattle.rm_script.specs.Rows.{IsRow, IsWrittenOut, hex_byte, hex_digit};

use crate::cuts::cut;
use crate::fields::number_within;
use rm_types::{MAX_ROW, NoMemory, Row};
use std::alloc::Global;

/// The value of a hexadecimal digit, in lower case.
fn digit(byte: u8) -> Option<u8>
    ensures some { IfSome result (λ value. (value < 16) × (byte ≡ hex_digit value)) }
    ensures none { IfNone result ((value : ℕ) → value < 16 → byte ≡ hex_digit value → ⊥) }
{
    let is_decimal = byte.is_ascii_digit();
    let is_letter = matches!(byte, b'a'..=b'f');
    // No `||`, and no arm for each: which of the two a digit is can't be foreseen, so a jump costs more.
    if !(is_decimal | is_letter) {
        return None;
    }
    Some(if is_decimal {
        byte - b'0'
    } else {
        byte - b'a' + 10
    })
}

/// The byte that two digits spell.
fn byte_of_pair(high: u8, low: u8) -> Option<u8>
    ensures some { IfSome result (λ byte. (byte < 256) × (high ∷ low ∷ [] ≡ hex_byte byte)) }
    ensures none { IfNone result ((byte : ℕ) → byte < 256 → high ∷ low ∷ [] ≡ hex_byte byte → ⊥) }
{
    Some(digit(high)? * 16 + digit(low)?)
}

/// The byte that the text spells.
fn byte_of(text: &[u8]) -> Option<u8>
    ensures some { IfSome result (λ byte. (byte < 256) × (text.now ≡ hex_byte byte)) }
    ensures none { IfNone result ((byte : ℕ) → byte < 256 → text.now ≡ hex_byte byte → ⊥) }
{
    let [high, low] = text else {
        return None;
    };
    byte_of_pair(*high, *low)
}

/// The row that the text writes out, or `None` where it writes none. (The kit's `hex` takes upper
/// case too.)
fn written_out(alloc: Global, text: &[u8]) -> Result<Option<Row>, NoMemory>
    ensures some { IfOk result (λ found. IfSome found (λ row. IsWrittenOut row text.now)) }
    ensures none { IfOk result (λ found. IfNone found ((row : List ℕ) → IsWrittenOut row text.now → ⊥)) }
{
    if text.is_empty() || text.len() > 2 * MAX_ROW {
        return Ok(None);
    }
    let mut bytes = Vec::with_capacity(alloc, text.len() / 2)?;
    let mut rest = text;
    while let [high, low, after @ ..] = rest {
        let Some(byte) = byte_of_pair(*high, *low) else {
            return Ok(None);
        };
        bytes.push(byte)?;
        rest = after;
    }
    if !rest.is_empty() {
        return Ok(None);
    }
    Ok(Some(Row::new(bytes)))
}

/// The row that the text spells, or `None` where it spells none.
pub fn row_of(alloc: Global, text: &[u8]) -> Result<Option<Row>, NoMemory>
    ensures some { IfOk result (λ found. IfSome found (λ row. IsRow row text.now)) }
    ensures none { IfOk result (λ found. IfNone found ((row : List ℕ) → IsRow row text.now → ⊥)) }
{
    let Some((count, byte)) = cut(b'*', text) else {
        return written_out(alloc, text);
    };
    let Some(count) = number_within(0, MAX_ROW as u32, count) else {
        return Ok(None);
    };
    let Some(byte) = byte_of(byte) else {
        return Ok(None);
    };
    Ok(Some(Row::repeated(alloc, byte, count as usize)?))
}
