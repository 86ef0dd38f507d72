// 28: each face's ring rows are one unbroken run that starts at its ring_ptr. No scratch: a row that begins a run must be the
// one that its face points at, and each face must point at a row of its own.
ghost use Rattle.std.specs.Prelude.{◌≡◌, cond, ◌<◌, length};
ghost use Rattle.laws.specs.Orbit.{entry};
ghost use Rattle.laws.specs.Lowest.{found, lowest, least};
ghost use Rattle.tile.specs.Check.{entry_outside, run_broken};
ghost use Rattle.tile.specs.Serving.Stages.{begins_elsewhere, points_away, lesser_of};

use crate::rows::lowest_row;

// The smaller of two, if both are there.
fn lesser_of(a: Option<usize>, b: Option<usize>) -> Option<usize>
    ensures { result ≡ lesser_of a b }
{
    match (a, b) {
        (Some(x), Some(y)) => Some(x.min(y)),
        (Some(x), None) => Some(x),
        (None, _) => b,
    }
}

// The face of ring row r if a run begins there and the face points at another row.
fn misplaced(ring_ptr: &[u32], fac_id: &[u32], r: usize) -> Option<usize>
    requires row { 0 < r }
    requires face { 0 < entry fac_id.now r }
    ensures { result ≡ found (cond (begins_elsewhere ring_ptr.now fac_id.now r) (entry fac_id.now r) 0) }
{
    let face = side::row(fac_id, r) as usize;
    let begins = side::row(fac_id, r - 1) as usize != face;
    if begins && side::row(ring_ptr, face) as usize != r {
        Some(face)
    } else {
        None
    }
}

// The lowest face of which a run begins elsewhere than where it points.
fn lowest_misplaced(ring_ptr: &[u32], fac_id: &[u32]) -> Option<usize>
    requires { lowest (entry_outside (length ring_ptr.now) fac_id.now) (length fac_id.now) ≡ 0 }
    ensures { result ≡ found (least (begins_elsewhere ring_ptr.now fac_id.now) (entry fac_id.now) (length fac_id.now)) }
{
    let mut low: Option<usize> = None;
    for i in 0..fac_id.len() {
        low = lesser_of(low, misplaced(ring_ptr, fac_id, i + 1));
    }
    low
}

// The lowest face that points at no row of its own.
fn lowest_pointing_away(ring_ptr: &[u32], fac_id: &[u32]) -> Option<usize>
    ensures { result ≡ found (lowest (points_away ring_ptr.now fac_id.now) (length ring_ptr.now)) }
{
    lowest_row(
        ring_ptr.len(),
        |f| side::row(fac_id, side::row(ring_ptr, f) as usize) as usize != f,
    )
}

// The lowest face whose ring rows are not one run at its ring_ptr.
pub(crate) fn bad_run(ring_ptr: &[u32], fac_id: &[u32]) -> Option<usize>
    requires { lowest (entry_outside (length ring_ptr.now) fac_id.now) (length fac_id.now) ≡ 0 }
    ensures { result ≡ found (lowest (run_broken ring_ptr.now fac_id.now) (length ring_ptr.now)) }
{
    lesser_of(
        lowest_pointing_away(ring_ptr, fac_id),
        lowest_misplaced(ring_ptr, fac_id),
    )
}
