//! Cutting bytes in two.

ghost use Rattle.std.specs.Prelude.{IfSome, IfNone};
ghost use Rattle.rm_script.specs.Cuts.{IsCut, Lacks};

use memchr::memchr;

/// What stands before the first such byte, and what stands after it.
pub fn cut(byte: u8, text: &[u8]) -> Option<(&[u8], &[u8])>
    ensures some { IfSome result (λ parts. IsCut byte text.now parts.0.now parts.1.now) }
    ensures none { IfNone result (Lacks byte text.now) }
{
    let at = memchr(byte, text)?;
    Some((&text[..at], &text[at + 1..]))
}
