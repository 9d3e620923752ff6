//! The numbers, names and places in a line.

ghost use Rattle.std.specs.Prelude.{◌≡◌, ℕ, ◌^◌, ◌<◌, ◌≤◌, decimal, IfSome, IfNone};
ghost use Rattle.rm_events.specs.declared.lines.Target.{Target};
ghost use Rattle.rm_script.specs.Targets.{IsTarget, name_text};
ghost use Rattle.rm_script.specs.Cuts.{IsCut};

use crate::cuts::cut;
use rm_events::{Name, Target};
use rm_types::Rid;

/// The greatest number that a row id has for its slot.
const GREATEST_SLOT: u32 = 65_535;

/// The number that the text spells in decimal, without a leading zero.
pub fn number(text: &[u8]) -> Option<u32>
    ensures some { IfSome result (λ n. text.now ≡ decimal n) }
    ensures none { IfNone result ((n : ℕ) → n < 2 ^ 32 → text.now ≡ decimal n → ⊥) }
{
    if let [digit @ b'0'..=b'9'] = text {
        return Some(u32::from(*digit - b'0'));
    }
    let first = *text.first()?;
    // `parse` takes a plus sign and leading zeros too.
    if first == b'+' || (first == b'0' && text.len() > 1) {
        return None;
    }
    str::from_utf8(text).ok()?.parse().ok()
}

/// The number from `low` to `high` that the text spells.
pub(crate) fn number_within(low: u32, high: u32, text: &[u8]) -> Option<u32>
    ensures some { IfSome result (λ n. (low ≤ n) × (n ≤ high) × (text.now ≡ decimal n)) }
    ensures none { IfNone result ((n : ℕ) → low ≤ n → n ≤ high → text.now ≡ decimal n → ⊥) }
{
    let number = number(text)?;
    if low <= number && number <= high {
        Some(number)
    } else {
        None
    }
}

/// The name that the text spells, a dollar sign and a letter.
pub fn name_of(text: &[u8]) -> Option<Name>
    ensures some { IfSome result (λ name. (name < 26) × (text.now ≡ name_text name)) }
    ensures none { IfNone result ((name : ℕ) → name < 26 → text.now ≡ name_text name → ⊥) }
{
    let [b'$', letter] = text else {
        return None;
    };
    if letter.is_ascii_lowercase() {
        Some(Name::new(*letter - b'a'))
    } else {
        None
    }
}

/// The row id that the page's and the slot's texts spell.
fn rid_of(page: &[u8], slot: &[u8]) -> Option<Rid>
    ensures some { IfSome result (λ rid. (rid.page < 2 ^ 32) × (rid.slot < 2 ^ 16) × (page.now ≡ decimal rid.page) × (slot.now ≡ decimal rid.slot)) }
    ensures none { IfNone result ((m n : ℕ) → m < 2 ^ 32 → n < 2 ^ 16 → page.now ≡ decimal m → slot.now ≡ decimal n → ⊥) }
{
    let page = number(page)?;
    let slot = number_within(0, GREATEST_SLOT, slot)? as u16;
    Some(Rid { page, slot })
}

/// The row that the text speaks of: a name, or a page and a slot with a dot between.
pub fn target_of(text: &[u8]) -> Option<Target>
    ensures some { IfSome result (λ target. IsTarget target text.now) }
    ensures none { IfNone result ((target : Target) → IsTarget target text.now → ⊥) }
{
    match cut(b'.', text) {
        Some((page, slot)) => Some(Target::At(rid_of(page, slot)?)),
        None => Some(Target::Name(name_of(text)?)),
    }
}
