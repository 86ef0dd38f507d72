// 27 to 29: the nodes' first edges, and the rings' faces, runs and starts.
ghost use Rattle.std.specs.Prelude.{◌≡◌};
ghost use Rattle.laws.specs.Lowest.{found, lowest};
ghost use Rattle.refusal.specs.Order.{answered, first_of};
ghost use Rattle.tile.specs.Columns.{R, side_with, start_side, empty_start};
ghost use Rattle.tile.specs.Check.{start_wrong};
ghost use Rattle.tile.specs.Serving.Stages.{ring_tests};

use crate::rows::lowest_row;
use crate::sizes::SizedTile;
use crate::{columns, runs};
use refusal::{Kind, Refusal};

// The side of the edge e with the face, the right one if both have it; 0 where e is no edge or neither has it.
// An Option would be no plainer: 0 is document 01's own word for no start, and the mark read and the cycle painted at 0 are those of none.
fn side_with(edges: usize, right_face: &[u32], left_face: &[u32], face: u32, e: u32) -> usize
    ensures { result ≡ side_with edges right_face.now left_face.now face e }
{
    let k = e as usize;
    if side::is_outside(edges, k) {
        return 0;
    }
    if side::row(right_face, k) == face {
        return 2 * k - 1;
    }
    if side::row(left_face, k) == face {
        return 2 * k;
    }
    0
}

impl<'a> SizedTile<'a> {
    // The start side of a ring row, or 0.
    #[tactic(auto, unfolding(crate::specs::Columns::start_side))]
    pub(crate) fn start_side(&self, row: usize) -> usize
        ensures { result ≡ start_side self.now row }
    {
        let tile = self.tile;
        let edges = &tile.edges;
        side_with(
            edges.start_node.len(),
            edges.right_face,
            edges.left_face,
            side::row(tile.fac_id, row),
            side::row(tile.start_edge, row),
        )
    }

    // Whether the ring row has the start 0 that row 1 may have when its face is 1.
    #[tactic(auto, unfolding(crate::specs::Columns::empty_start))]
    pub(crate) fn has_empty_start(&self, row: usize) -> bool
        ensures { result ≡ empty_start self.now row }
    {
        let tile = self.tile;
        side::row(tile.start_edge, row) == 0 && row == 1 && side::row(tile.fac_id, row) == 1
    }

    // Whether it has neither a start side nor the allowed 0.
    fn has_wrong_start(&self, row: usize) -> bool
        ensures { result ≡ start_wrong self.now row }
    {
        !self.has_empty_start(row) && self.start_side(row) == 0
    }
}

// The lowest ring row with a wrong start.
fn bad_start(tile: &SizedTile) -> Option<usize>
    ensures { result ≡ found (lowest (start_wrong tile.now) (R tile.now)) }
{
    let columns = tile.tile;
    lowest_row(columns.fac_id.len(), |row| tile.has_wrong_start(row))
}

// 27 to 29, in order.
pub(crate) fn judge_rings(tile: &SizedTile) -> Result<(), Refusal>
    ensures { result ≡ answered (first_of (ring_tests tile.now)) }
{
    let columns = tile.tile;
    Kind::WrongFirstEdge.at_lowest(columns::bad_node(columns))?;
    Kind::WrongRingRows.at_lowest(columns::bad_entry(columns.ring_ptr.len(), columns.fac_id))?;
    Kind::WrongRingRows.at_lowest(runs::bad_run(columns.ring_ptr, columns.fac_id))?;
    Kind::WrongStart.at_lowest(bad_start(tile))
}
