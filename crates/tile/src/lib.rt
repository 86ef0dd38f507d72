// A tile checked and walked.
#![tactic(auto)]

mod columns;
mod owners;
mod paths;
mod rows;
mod runs;
mod sizes;
mod starts;

ghost use Rattle.std.specs.Prelude.{◌≡◌, ◌≤◌, length, OnOk};
ghost use Rattle.refusal.specs.Order.{answered, first_of};
ghost use Rattle.laws.specs.Buffer.{front};
ghost use Rattle.laws.specs.Marks.{zeros};
ghost use Rattle.tile.specs.Columns.{sides};
ghost use Rattle.tile.specs.Check.{verdict_of, marks_after};
ghost use Rattle.tile.specs.Serving.Stages.{later_tests, owners_left, marks_judged};
ghost use Rattle.tile.specs.Walk.{walk_of, sides_written};

use crate::owners::Cycles;
use crate::sizes::SizedTile;
use refusal::{Kind, Refusal};
use side::Edges;
use std::marker::Model;

// A tile as ten columns of numbers. Rows count from 1; 0 stands for none.
#[derive(Drop)]
pub struct Tile<'a> {
    pub edges: Edges<'a>,
    pub ring_ptr: &'a [u32],
    pub fac_id: &'a [u32],
    pub start_edge: &'a [u32],
    pub first_edge: &'a [u32],
}

impl<'a> Model for Tile<'a> {
    ghost use Rattle.tile.specs.Columns.{Tile, tile};

    ghost Value = { Tile };

    ghost view = { λ a. tile a.edges a.ring_ptr.now a.fac_id.now a.start_edge.now a.first_edge.now };
}

// 20 to 31, in order. Nothing beyond the sides is written; where nothing is refused the marks hold the owners.
// That the marks have room is asked of each function: a struct of tile and marks would have to say in a model what these clauses say.
fn judge_parts(tile: &SizedTile, marks: &mut [u32]) -> Result<(), Refusal>
    requires { sides tile.now ≤ length marks.old }
    ensures value { result ≡ answered (first_of (later_tests tile.now)) }
    ensures beyond { front zeros (sides tile.now) marks.new ≡ front zeros (sides tile.now) marks.old }
    ensures marks_after { OnOk result (marks.new ≡ owners_left tile.now marks.old) }
{
    columns::judge_edges(tile, marks)?;
    Kind::ManyBefore.at_lowest(owners::doubled(tile, marks))?;
    starts::judge_rings(tile)?;
    Cycles::new(tile).judge_owners(marks)
}

// The same; a refusal leaves the marks zero.
fn judge(tile: &SizedTile, marks: &mut [u32]) -> Result<(), Refusal>
    requires { sides tile.now ≤ length marks.old }
    ensures value { result ≡ answered (first_of (later_tests tile.now)) }
    ensures marks_after { marks.new ≡ marks_judged tile.now (first_of (later_tests tile.now)) marks.old }
{
    match judge_parts(tile, marks) {
        Ok(()) => Ok(()),
        Err(refusal) => {
            owners::clear(marks, tile.sides());
            Err(refusal)
        }
    }
}

// The check. On acceptance the marks hold the ring row of each side; refusals 20 to 31 set the first 2E to zero.
// Example: tile MJ21, with rings for faces 1 and 2 from edge 1, is accepted with the marks 2, 1, 2, 1, 2, 1: its right sides have face 2.
// With the left edge of edge 1 made 2 it is refused with 23 at side 2, and the first six marks are 0.
pub fn check(tile: &Tile, marks: &mut [u32]) -> Result<(), Refusal>
    ensures value { result ≡ verdict_of tile.now (length marks.old) }
    ensures marks_after { marks.new ≡ marks_after tile.now marks.old }
{
    let tile = SizedTile::new(tile)?;
    let n = tile.sides();
    if marks.len() < n {
        return Err(Kind::TooShort.at(n));
    }
    judge(&tile, marks)
}

// The walk from a ring row: the number of its steps, and the sides of its cycle written, start side first. A refusal writes nothing.
// Example: in tile MJ21 ring 1 (face 1, from edge 1) has 3 steps and the list 2, 6, 4, and ring 2 the list 1, 3, 5. One dangling edge with
// both faces 1 and both links 1 has one ring, of 2 steps: 1, 2. A ring row 1 of face 1 without a start edge has 0 steps and no list.
pub fn walk(tile: &Tile, row: usize, out: &mut [u32]) -> Result<usize, Refusal>
    ensures value { result ≡ walk_of tile.now row (length out.old) }
    ensures out_after { out.new ≡ sides_written tile.now row result out.old }
{
    let sized = SizedTile::new(tile)?;
    if side::is_outside(tile.fac_id.len(), row) {
        return Err(Kind::NoSuch.at(row));
    }
    let start = sized.start_side(row);
    if start == 0 {
        if sized.has_empty_start(row) {
            return Ok(0);
        }
        return Err(Kind::WrongStart.at(row));
    }
    paths::walk_from(&sized, start, row, out)
}
