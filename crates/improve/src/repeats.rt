// Whether a try is listed already.
ghost use Rattle.std.specs.List.{Contains};
ghost use Rattle.std.specs.Prelude.{IsTrue, ◌≡◌};

use mesh_types::Try;

/// Whether the try is one of these.
pub(crate) fn is_among(tries: &[Try], t: Try) -> bool
    ensures { IsTrue result → Contains tries.now t }
{
    for s in tries {
        if is_same(*s, t) {
            return true;
        }
    }
    false
}

fn is_same(s: Try, t: Try) -> bool
    ensures { IsTrue result → s ≡ t }
{
    match (s, t) {
        (Try::Split(a, b), Try::Split(c, d)) => a == c && b == d,
        (Try::Collapse(a, b), Try::Collapse(c, d)) => a == c && b == d,
        (Try::EdgeSwap(a, b), Try::EdgeSwap(c, d)) => a == c && b == d,
        (Try::FaceSwap(a, b, c), Try::FaceSwap(d, e, f)) => a == d && b == e && c == f,
        (Try::Shift(a, i), Try::Shift(b, k)) => a == b && i == k,
        _ => false,
    }
}
