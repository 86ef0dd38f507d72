// One column at a step.
ghost use Rattle.std.specs.Prelude.{◌≡◌, ◌≤◌, length};
ghost use Rattle.limits.specs.Limits.{most_columns};
ghost use Rattle.header.specs.Places.{place_after};
ghost use Rattle.header.specs.Names.{names_of};
ghost use Rattle.header.specs.Serving.Stages.{most_head, step_in};

use crate::{Definition, Names, places};
use refusal::{Kind, Refusal};

// The column that starts at the place; done just past the last; elsewhere 13. A column starts where its name does; `after` is the place
// past the last.
pub(crate) fn step_in(
    head: &[u8],
    names: &Names,
    after: usize,
    n: usize,
    place: usize,
) -> Result<Option<Definition>, Refusal>
    requires { (length head.now ≤ most_head) × (n ≤ most_columns) × (names.now ≡ names_of head.now n) × (after ≡ place_after head.now n) }
    ensures { result ≡ step_in head.now n place }
{
    for k in 0..n {
        if place == names.spans[k].start as usize {
            return Ok(Some(places::definition_at(head, place)));
        }
    }
    if place == after {
        return Ok(None);
    }
    Err(Kind::NoSuch.at(place))
}
