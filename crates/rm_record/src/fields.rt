//! The fields of a record, read from the start of bytes.

ghost use Rattle.std.specs.Prelude.{◌≡◌, ◌≤◌, length, IfOk};
ghost use Rattle.std.specs.Int.{w16, w32, w64};
ghost use Rattle.rm_types.specs.declared.rows.TheConstants.{MAX_ROW};
ghost use Rattle.rm_record.specs.Fields.{Gives, number_field, txn_field, lsn_field, page_field, rid_field, need_field, change_field, row_field, slot_field, category_field};

use crate::records::{MAX_RECORDED_CATEGORY, OCCUPIED, VACANT};
use crate::refused::DecodeRefused;
use rm_types::{CAPACITY, Lsn, MAX_PAGES, MAX_ROW, MAX_SLOT, Rid, Row, Slot, TxnId};
use std::alloc::Global;

/// A number of two bytes, and the bytes after it.
pub(crate) fn u16_of(bytes: &[u8]) -> Result<(u16, &[u8]), DecodeRefused>
    ensures { Gives (λ x. (x.0, x.1.now)) result (number_field w16 bytes.now) }
{
    if bytes.len() < 2 {
        return Err(DecodeRefused::Bad);
    }
    let (first, rest) = bytes.split_at(2);
    Ok((u16::from_be_bytes([first[0], first[1]]), rest))
}

/// A number of four bytes, and the bytes after it.
pub(crate) fn u32_of(bytes: &[u8]) -> Result<(u32, &[u8]), DecodeRefused>
    ensures { Gives (λ x. (x.0, x.1.now)) result (number_field w32 bytes.now) }
{
    if bytes.len() < 4 {
        return Err(DecodeRefused::Bad);
    }
    let (first, rest) = bytes.split_at(4);
    let number = u32::from_be_bytes([first[0], first[1], first[2], first[3]]);
    Ok((number, rest))
}

/// A number of eight bytes, and the bytes after it.
pub(crate) fn u64_of(bytes: &[u8]) -> Result<(u64, &[u8]), DecodeRefused>
    ensures { Gives (λ x. (x.0, x.1.now)) result (number_field w64 bytes.now) }
{
    if bytes.len() < 8 {
        return Err(DecodeRefused::Bad);
    }
    let (first, rest) = bytes.split_at(8);
    let number = u64::from_be_bytes([
        first[0], first[1], first[2], first[3], first[4], first[5], first[6], first[7],
    ]);
    Ok((number, rest))
}

/// A transaction's id, and the bytes after it.
#[tactic(auto, unfolding(crate::specs::Fields::txn_field))]
pub(crate) fn txn_of(bytes: &[u8]) -> Result<(TxnId, &[u8]), DecodeRefused>
    ensures { Gives (λ x. (x.0, x.1.now)) result (txn_field bytes.now) }
{
    let (number, rest) = u32_of(bytes)?;
    if number == 0 {
        return Err(DecodeRefused::Bad);
    }
    Ok((TxnId(number), rest))
}

/// An LSN, and the bytes after it.
#[tactic(auto, unfolding(crate::specs::Fields::lsn_field))]
pub(crate) fn lsn_of(bytes: &[u8]) -> Result<(Lsn, &[u8]), DecodeRefused>
    ensures { Gives (λ x. (x.0, x.1.now)) result (lsn_field bytes.now) }
{
    let (number, rest) = u64_of(bytes)?;
    Ok((Lsn(number), rest))
}

/// A page's number, and the bytes after it.
#[tactic(auto, unfolding(crate::specs::Fields::page_field))]
pub(crate) fn page_of(bytes: &[u8]) -> Result<(u32, &[u8]), DecodeRefused>
    ensures { Gives (λ x. (x.0, x.1.now)) result (page_field bytes.now) }
{
    let (page, rest) = u32_of(bytes)?;
    if page >= MAX_PAGES {
        return Err(DecodeRefused::Bad);
    }
    Ok((page, rest))
}

/// A row id, and the bytes after it.
#[tactic(auto, unfolding(crate::specs::Fields::rid_field))]
pub(crate) fn rid_of(bytes: &[u8]) -> Result<(Rid, &[u8]), DecodeRefused>
    ensures { Gives (λ x. (x.0, x.1.now)) result (rid_field bytes.now) }
{
    let (page, rest) = page_of(bytes)?;
    let (slot, rest) = u16_of(rest)?;
    if slot > MAX_SLOT {
        return Err(DecodeRefused::Bad);
    }
    Ok((Rid { page, slot }, rest))
}

// Bytes reserved on a page, and the bytes after the number.
#[tactic(auto, unfolding(crate::specs::Fields::need_field))]
fn need_of(bytes: &[u8]) -> Result<(u16, &[u8]), DecodeRefused>
    ensures { Gives (λ x. (x.0, x.1.now)) result (need_field bytes.now) }
{
    let (need, rest) = u16_of(bytes)?;
    if need > CAPACITY {
        return Err(DecodeRefused::Bad);
    }
    Ok((need, rest))
}

/// What each change begins with: its transaction, the pending record below it, its row id and the need before it.
#[derive(Clone, Copy, Debug)]
pub(crate) struct Change {
    pub(crate) txn: TxnId,
    pub(crate) under: Lsn,
    pub(crate) rid: Rid,
    pub(crate) need: u16,
}

impl Change {
    pub(crate) fn new(txn: TxnId, under: Lsn, rid: Rid, need: u16) -> Change
        ensures { result ≡ record { txn = txn; under = under; rid = rid; need = need } }
    {
        Change {
            txn,
            under,
            rid,
            need,
        }
    }
}

/// What a change begins with, and the bytes after it.
#[tactic(auto, unfolding(crate::specs::Fields::change_field))]
pub(crate) fn change_of(bytes: &[u8]) -> Result<(Change, &[u8]), DecodeRefused>
    ensures { Gives (λ x. (x.0, x.1.now)) result (change_field bytes.now) }
{
    let (txn, rest) = txn_of(bytes)?;
    let (under, rest) = lsn_of(rest)?;
    let (rid, rest) = rid_of(rest)?;
    let (need, rest) = need_of(rest)?;
    let change = Change {
        txn,
        under,
        rid,
        need,
    };
    Ok((change, rest))
}

// A row's bytes, and the bytes after them.
#[tactic(auto, unfolding(crate::specs::Fields::row_field))]
fn row_bytes_of(bytes: &[u8]) -> Result<(&[u8], &[u8]), DecodeRefused>
    ensures value { Gives (λ x. (x.0.now, x.1.now)) result (row_field bytes.now) }
    ensures short { IfOk result (λ x. length x.0.now ≤ MAX_ROW) }
{
    let (length, rest) = u16_of(bytes)?;
    let length = length as usize;
    if length > MAX_ROW {
        return Err(DecodeRefused::Bad);
    }
    if rest.len() < length {
        return Err(DecodeRefused::Bad);
    }
    Ok(rest.split_at(length))
}

/// A row, and the bytes after it.
pub(crate) fn row_of(alloc: Global, bytes: &[u8]) -> Result<(Row, &[u8]), DecodeRefused>
    ensures { Gives (λ x. (x.0, x.1.now)) result (row_field bytes.now) }
{
    let (row, rest) = row_bytes_of(bytes)?;
    Ok((Row::from_slice(alloc, row)?, rest))
}

/// What a slot holds, and the bytes after it.
#[tactic(auto, unfolding(crate::specs::Fields::slot_field))]
pub(crate) fn slot_of(alloc: Global, bytes: &[u8]) -> Result<(Slot, &[u8]), DecodeRefused>
    ensures { Gives (λ x. (x.0, x.1.now)) result (slot_field bytes.now) }
{
    match bytes {
        [VACANT, rest @ ..] => Ok((Slot::Vacant, rest)),
        [OCCUPIED, rest @ ..] => {
            let (row, rest) = row_of(alloc, rest)?;
            Ok((Slot::Row(row), rest))
        }
        _ => Err(DecodeRefused::Bad),
    }
}

/// A page's category, and the bytes after it.
#[tactic(auto, unfolding(crate::specs::Fields::category_field))]
pub(crate) fn category_of(bytes: &[u8]) -> Result<(u8, &[u8]), DecodeRefused>
    ensures { Gives (λ x. (x.0, x.1.now)) result (category_field bytes.now) }
{
    let [category, rest @ ..] = bytes else {
        return Err(DecodeRefused::Bad);
    };
    if *category > MAX_RECORDED_CATEGORY {
        return Err(DecodeRefused::Bad);
    }
    Ok((*category, rest))
}
