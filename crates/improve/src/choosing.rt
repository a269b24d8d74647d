// The least of some tries that stands after one.
ghost use Rattle.improve.specs.Search.{is_after, lower, lowest};
ghost use Rattle.std.specs.Prelude.{None, ◌≡◌};

use crate::order::{beats, is_after};
use mesh_types::Try;

/// The least of the tries that stands after the given one.
pub(crate) fn least_after(tries: &[Try], after: Option<Try>) -> Option<Try>
    ensures { result ≡ lowest (is_after after) None tries.now }
{
    let mut best = None;
    for t in tries {
        best = lower(after, best, *t);
    }
    best
}

// The better of t and the best so far, where t stands after the given try.
fn lower(after: Option<Try>, best: Option<Try>, t: Try) -> Option<Try>
    ensures { result ≡ lower (is_after after) best t }
{
    if !beats(t, best) {
        return best;
    }
    if is_after(after, t) { Some(t) } else { best }
}
