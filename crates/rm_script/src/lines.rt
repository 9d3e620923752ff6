//! The lines of a script's bytes.

ghost use Rattle.std.specs.Prelude.{◌≡◌, ◌==◌, ◌<◌, ◌^◌, [], ◌∷◌, length, count_by, IfSome, IfNone};
ghost use Rattle.rm_script.specs.Lines.{lines_of};

use crate::cuts::cut;

/// How many lines the bytes have.
pub fn line_count(bytes: &[u8]) -> usize
    requires { length bytes.now < 2 ^ 63 }
    ensures { result ≡ length (lines_of bytes.now) }
{
    let Some(last) = bytes.last() else {
        return 0;
    };
    let ends = line_ends(bytes);
    if *last == b'\n' { ends } else { ends + 1 }
}

/// How many of the bytes end a line.
fn line_ends(bytes: &[u8]) -> usize
    ensures { result ≡ count_by (λ byte. byte == 10) bytes.now }
{
    bytes.iter().filter(|byte| **byte == b'\n').count()
}

/// The first line, without its end, and what stands after it, or `None` where nothing is left.
pub fn first_line(bytes: &[u8]) -> Option<(&[u8], &[u8])>
    ensures some { IfSome result (λ parts. lines_of bytes.now ≡ parts.0.now ∷ lines_of parts.1.now) }
    ensures shorter { IfSome result (λ parts. length parts.1.now < length bytes.now) }
    ensures none { IfNone result (bytes.now ≡ []) }
{
    if bytes.is_empty() {
        return None;
    }
    Some(cut(b'\n', bytes).unwrap_or((bytes, &[])))
}
