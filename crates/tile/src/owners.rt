// 26, 30 and 31, with a mark for each side in the lent owner marks: the predecessors counted, and the rings' walks painted.
ghost use Rattle.std.specs.Prelude.{◌≡◌, ℕ, min, ◌+◌, ◌≤◌, eqb, length, OnOk};
ghost use Rattle.laws.specs.Orbit.{entry};
ghost use Rattle.laws.specs.Lowest.{found, lowest};
ghost use Rattle.laws.specs.Buffer.{front};
ghost use Rattle.laws.specs.Marks.{zeros};
ghost use Rattle.refusal.specs.Order.{answered, first_of};
ghost use Rattle.tile.specs.Columns.{sides};
ghost use Rattle.tile.specs.Serving.Stages.{refused_at_side, doubled_side, predecessors_counted, cycle_painted, taken_ring, owner_tests, owners_painted, Paintable};

use crate::rows::lowest_row;
use crate::sizes::SizedTile;
use refusal::{Kind, Refusal};
use std::marker::Model;

// Sets the first n marks to zero.
pub(crate) fn clear(marks: &mut [u32], n: usize)
    requires { n ≤ length marks.old }
    ensures { marks.new ≡ front zeros n marks.old }
{
    marks[0..n].fill(0);
}

// The lowest of the first n marks that holds v, counted from 1.
fn find(marks: &[u32], n: usize, v: u32) -> Option<usize>
    ensures { result ≡ found (lowest (λ (s : ℕ). eqb (entry marks.now s) v) n) }
{
    lowest_row(n, |s| side::row(marks, s) == v)
}

// One more, but never above two.
fn one_more(m: u32) -> u32
    ensures { result ≡ min 2 (m + 1) }
{
    if m < 2 { m + 1 } else { 2 }
}

// 23 to 25 at the lowest side that has no successor; where all have one, the predecessors of each side are counted, up to two.
pub(crate) fn tally(tile: &SizedTile, marks: &mut [u32]) -> Result<(), Refusal>
    requires { sides tile.now ≤ length marks.old }
    ensures value { result ≡ answered (refused_at_side tile.now.edg) }
    ensures beyond { front zeros (sides tile.now) marks.new ≡ front zeros (sides tile.now) marks.old }
    ensures marks_after { OnOk result (marks.new ≡ predecessors_counted tile.now.edg marks.old) }
{
    let n = tile.sides();
    clear(marks, n);
    for i in 0..n {
        match tile.next_side(i + 1) {
            Ok(u) => {
                let mark = &mut marks[u - 1];
                *mark = one_more(*mark);
            }
            Err(kind) => return Err(kind.at(i + 1)),
        }
    }
    Ok(())
}

// 26: the lowest side with more than one predecessor, where the marks hold the counts.
pub(crate) fn doubled(tile: &SizedTile, marks: &[u32]) -> Option<usize>
    requires { marks.now ≡ predecessors_counted tile.now.edg marks.now }
    ensures { result ≡ found (doubled_side tile.now.edg) }
{
    find(marks, tile.sides(), 2)
}

// A tile of which each side is on a cycle: it has a successor, and one predecessor.
#[derive(Drop)]
pub(crate) struct Cycles<'a> {
    tile: &'a SizedTile<'a>,
}

impl<'a> Model for Cycles<'a> {
    ghost use Rattle.tile.specs.Columns.{Tile};
    ghost use Rattle.tile.specs.Serving.Stages.{Paintable};

    ghost Value = { Tile };

    ghost view = { λ a. a.tile.now };

    ghost invariant = { λ a. Paintable a.tile.now };
}

impl<'a> Cycles<'a> {
    pub(crate) fn new(tile: &'a SizedTile<'a>) -> Self
        requires { Paintable tile.now }
        ensures { result ≡ tile.now }
    {
        Cycles { tile }
    }

    // Paints the sides of the walk from start with the row, until start returns; none where start is 0.
    fn paint(&self, start: usize, row: u32, marks: &mut [u32])
        requires room { sides self.now ≤ length marks.old }
        requires start_bound { start ≤ sides self.now }
        ensures { marks.new ≡ cycle_painted self.now.edg start row marks.old }
    {
        if start == 0 {
            return;
        }
        let mut s = start;
        for _ in 0..self.tile.sides() {
            match self.tile.next_side(s) {
                Ok(u) => {
                    marks[u - 1] = row;
                    s = u;
                }
                Err(_) => return,
            }
            if s == start {
                return;
            }
        }
    }

    // 30: paints each ring's cycle with its row, and stops at the lowest ring row whose start is painted already. A ring without a start
    // paints nothing.
    fn own(&self, marks: &mut [u32]) -> Option<usize>
        requires { sides self.now ≤ length marks.old }
        ensures value { result ≡ found (taken_ring self.now) }
        ensures marks_after { marks.new ≡ owners_painted self.now marks.old }
    {
        let tile = self.tile;
        let columns = tile.tile;
        clear(marks, tile.sides());
        for r in 0..columns.fac_id.len() {
            let start = tile.start_side(r + 1);
            if side::row(marks, start) != 0 {
                return Some(r + 1);
            }
            self.paint(start, (r + 1) as u32, marks);
        }
        None
    }

    // 30 and 31, in order: no cycle named by two rings, and every side on a ring's cycle.
    pub(crate) fn judge_owners(&self, marks: &mut [u32]) -> Result<(), Refusal>
        requires { sides self.now ≤ length marks.old }
        ensures value { result ≡ answered (first_of (owner_tests self.now)) }
        ensures marks_after { marks.new ≡ owners_painted self.now marks.old }
    {
        Kind::CycleOwned.at_lowest(self.own(marks))?;
        Kind::NoRing.at_lowest(find(marks, self.tile.sides(), 0))
    }
}
