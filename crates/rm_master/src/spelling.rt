//! The bytes of a slot.

ghost use Rattle.std.specs.Prelude.{◌≡◌, IfSome, IfNone};
ghost use Rattle.rm_master.specs.Fields.{AreInRange, slot_bytes};
ghost use Rattle.rm_master.specs.declared.fields.Fields.{Fields as the_fields};

use crate::fields::{Fields, SLOT_BYTES};

/// The bytes that spell the fields.
#[rattlefmt::skip]
pub fn spelling(fields: &Fields) -> [u8; SLOT_BYTES]
    ensures { result ≡ slot_bytes fields.now }
{
    let [v0, v1] = fields.version.to_be_bytes();
    let [p0, p1, p2, p3] = fields.pages.to_be_bytes();
    let [b0, b1, b2, b3, b4, b5, b6, b7] = fields.batch.to_be_bytes();
    let [k0, k1, k2, k3, k4, k5, k6, k7] = fields.checkpoint.to_be_bytes();
    let [s0, s1, s2, s3, s4, s5, s6, s7] = fields.start.to_be_bytes();
    let [c0, c1, c2, c3] = fields.copied.to_be_bytes();
    [
        v0, v1,
        p0, p1, p2, p3,
        b0, b1, b2, b3, b4, b5, b6, b7,
        k0, k1, k2, k3, k4, k5, k6, k7,
        fields.half,
        fields.restoring as u8,
        s0, s1, s2, s3, s4, s5, s6, s7,
        c0, c1, c2, c3,
    ]
}

/// The fields that the bytes spell, whether or not they keep the rules.
#[rattlefmt::skip]
pub fn spelled(bytes: &[u8; SLOT_BYTES]) -> Option<Fields>
    ensures some { IfSome result (λ fields. bytes.now ≡ slot_bytes fields) }
    ensures in_range { IfSome result AreInRange }
    ensures none { IfNone result ((fields : the_fields) → bytes.now ≡ slot_bytes fields → ⊥) }
{
    let [
        v0, v1,
        p0, p1, p2, p3,
        b0, b1, b2, b3, b4, b5, b6, b7,
        k0, k1, k2, k3, k4, k5, k6, k7,
        half,
        restoring,
        s0, s1, s2, s3, s4, s5, s6, s7,
        c0, c1, c2, c3,
    ] = *bytes;
    if restoring > 1 {
        return None;
    }
    Some(Fields {
        version: u16::from_be_bytes([v0, v1]),
        pages: u32::from_be_bytes([p0, p1, p2, p3]),
        batch: u64::from_be_bytes([b0, b1, b2, b3, b4, b5, b6, b7]),
        checkpoint: u64::from_be_bytes([k0, k1, k2, k3, k4, k5, k6, k7]),
        half,
        restoring: restoring == 1,
        start: u64::from_be_bytes([s0, s1, s2, s3, s4, s5, s6, s7]),
        copied: u32::from_be_bytes([c0, c1, c2, c3]),
    })
}
