// 15: the lengths of the ten slices, and a tile in which they are right.
ghost use Rattle.std.specs.Prelude.{◌≡◌, cond, Ok, Err};
ghost use Rattle.refusal.specs.Order.{refusal};
ghost use Rattle.side.specs.Successor.{successor};
ghost use Rattle.tile.specs.Columns.{sides};
ghost use Rattle.tile.specs.Check.{slices_unequal, too_many_rows, sizes_wrong};

use crate::Tile;
use limits::MOST_ROWS;
use refusal::{Kind, Refusal};
use std::marker::Model;

// Whether a column of the edge table has another length than start_node, or start_edge than fac_id.
#[tactic(auto, unfolding(crate::specs::Check::slices_unequal))]
fn slices_unequal(tile: &Tile) -> bool
    ensures { result ≡ slices_unequal tile.now }
{
    let edges = tile.edges.start_node.len();
    tile.edges.end_node.len() != edges
        || tile.edges.right_face.len() != edges
        || tile.edges.left_face.len() != edges
        || tile.edges.right_edge.len() != edges
        || tile.edges.left_edge.len() != edges
        || tile.start_edge.len() != tile.fac_id.len()
}

// Whether a table has too many rows.
#[tactic(auto, unfolding(crate::specs::Check::too_many_rows))]
fn too_many_rows(tile: &Tile) -> bool
    ensures { result ≡ too_many_rows tile.now }
{
    MOST_ROWS < tile.edges.start_node.len()
        || MOST_ROWS < tile.ring_ptr.len()
        || MOST_ROWS < tile.fac_id.len()
        || MOST_ROWS < tile.first_edge.len()
}

// Slices of one table unequal, over 1,000,000 rows, or no face or no ring.
#[tactic(auto, unfolding(crate::specs::Check::sizes_wrong))]
fn sizes_wrong(tile: &Tile) -> bool
    ensures { result ≡ sizes_wrong tile.now }
{
    slices_unequal(tile)
        || too_many_rows(tile)
        || tile.ring_ptr.is_empty()
        || tile.fac_id.is_empty()
}

// A tile whose sizes are right, so that each row of one column of the edge table is there in all.
#[derive(Drop)]
pub(crate) struct SizedTile<'a> {
    pub(crate) tile: &'a Tile<'a>,
}

impl<'a> Model for SizedTile<'a> {
    ghost use Rattle.std.specs.Prelude.{◌≡◌, false};
    ghost use Rattle.tile.specs.Columns.{Tile};
    ghost use Rattle.tile.specs.Check.{sizes_wrong};

    ghost Value = { Tile };

    ghost view = { λ a. a.tile.now };

    ghost invariant = { λ a. sizes_wrong a.tile.now ≡ false };
}

impl<'a> SizedTile<'a> {
    // The tile, or 15 where its sizes are wrong.
    pub(crate) fn new(tile: &'a Tile<'a>) -> Result<Self, Refusal>
        ensures { result ≡ cond (sizes_wrong tile.now) (Err (refusal 15 0)) (Ok tile.now) }
    {
        if sizes_wrong(tile) {
            return Err(Kind::OverLimit.at(0));
        }
        Ok(SizedTile { tile })
    }

    // 2E
    pub(crate) fn sides(&self) -> usize
        ensures { result ≡ sides self.now }
    {
        let tile = self.tile;
        2 * tile.edges.start_node.len()
    }

    // The successor of the side s.
    #[inline(always)]
    pub(crate) fn next_side(&self, s: usize) -> Result<usize, Kind>
        ensures { result ≡ successor self.now.edg s }
    {
        let tile = self.tile;
        tile.edges.next_side(s)
    }
}
