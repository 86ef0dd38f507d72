// The walk from a start side: its moves counted, then its sides written.
ghost use Rattle.std.specs.Prelude.{◌≡◌, ℕ, ◌≤◌, length};
ghost use Rattle.laws.specs.Orbit.{iterate};
ghost use Rattle.laws.specs.Buffer.{front};
ghost use Rattle.refusal.specs.Kinds.{number_of};
ghost use Rattle.side.specs.Successor.{after};
ghost use Rattle.tile.specs.Columns.{sides};
ghost use Rattle.tile.specs.Walk.{stuck_at, moves, walked};
ghost use Rattle.tile.specs.Serving.Stages.{in_full, path_written};

use crate::sizes::SizedTile;
use refusal::{Kind, Refusal};

// A move that cannot be made: 22 has the edge row as place, 23 to 25 the side.
fn stuck_at(kind: Kind, s: usize) -> Refusal
    ensures { result ≡ stuck_at (number_of kind) s }
{
    match kind {
        Kind::EdgeOutOfRange => kind.at(s / 2 + s % 2),
        _ => kind.at(s),
    }
}

// The successor moves from start until it returns, at most 2E; 22 to 25 at a move that cannot be made, 32 at the ring row r without a
// return.
fn count_moves(tile: &SizedTile, start: usize, r: usize) -> Result<usize, Refusal>
    ensures { result ≡ in_full r (moves tile.now.edg start) }
{
    let mut s = start;
    for k in 0..tile.sides() {
        s = match tile.next_side(s) {
            Ok(u) => u,
            Err(kind) => return Err(stuck_at(kind, s)),
        };
        if s == start {
            return Ok(k + 1);
        }
    }
    Err(Kind::NotClosed.at(r))
}

// Writes the first k sides of the walk, start first.
fn write_sides(tile: &SizedTile, start: usize, k: usize, out: &mut [u32])
    requires start_bound { start ≤ sides tile.now }
    requires k_in_bounds { k ≤ length out.old }
    ensures { out.new ≡ front (λ (i : ℕ). iterate (after tile.now.edg) i start) k out.old }
{
    let _ = &tile.tile;
    let mut s = start;
    for j in 0..k {
        out[j] = s as u32;
        s = tile.next_side(s).unwrap_or(0);
    }
}

// The walk of ring row r from its start side: 22 to 25 at a move, 32 where it does not close, 14 for a short output.
pub(crate) fn walk_from(
    tile: &SizedTile,
    start: usize,
    r: usize,
    out: &mut [u32],
) -> Result<usize, Refusal>
    requires { start ≤ sides tile.now }
    ensures value { result ≡ walked r (length out.old) (moves tile.now.edg start) }
    ensures out_after { out.new ≡ path_written tile.now.edg start result out.old }
{
    let k = count_moves(tile, start, r)?;
    if out.len() < k {
        return Err(Kind::TooShort.at(k));
    }
    write_sides(tile, start, k, out);
    Ok(k)
}
