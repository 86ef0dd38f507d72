// 20 to 25, 27 and 28's range: tests over the rows of the columns, and over the sides.
ghost use Rattle.std.specs.Prelude.{◌≡◌, ◌≤◌, length, OnOk};
ghost use Rattle.laws.specs.Lowest.{found, lowest};
ghost use Rattle.laws.specs.Buffer.{front};
ghost use Rattle.laws.specs.Marks.{zeros};
ghost use Rattle.refusal.specs.Order.{answered, first_of};
ghost use Rattle.tile.specs.Columns.{F, N, sides};
ghost use Rattle.tile.specs.Serving.Stages.{edge_tests, predecessors_counted};
ghost use Rattle.tile.specs.Check.{row_outside, entry_outside, edge_away, first_edge_wrong};

use crate::rows::lowest_row;
use crate::sizes::SizedTile;
use crate::{Tile, owners};
use refusal::{Kind, Refusal};
use side::Edges;

// Whether one of two columns has a number outside 1..most in row e.
fn row_outside(most: usize, a: &[u32], b: &[u32], e: usize) -> bool
    ensures { result ≡ row_outside most a.now b.now e }
{
    side::is_outside(most, side::row(a, e) as usize)
        || side::is_outside(most, side::row(b, e) as usize)
}

// The lowest of the rows 1..n of two columns with a number outside 1..most.
fn bad_row(most: usize, n: usize, a: &[u32], b: &[u32]) -> Option<usize>
    ensures { result ≡ found (lowest (row_outside most a.now b.now) n) }
{
    lowest_row(n, |e| row_outside(most, a, b, e))
}

// The lowest of the rows of one column with a number outside 1..most.
pub(crate) fn bad_entry(most: usize, a: &[u32]) -> Option<usize>
    ensures { result ≡ found (lowest (entry_outside most a.now) (length a.now)) }
{
    lowest_row(
        a.len(),
        |r| side::is_outside(most, side::row(a, r) as usize),
    )
}

// Whether e is no edge or does not touch the node.
fn is_away(edges: &Edges, node: usize, e: usize) -> bool
    ensures { result ≡ edge_away edges.now.start_node edges.now.end_node node e }
{
    side::is_outside(edges.start_node.len(), e)
        || side::row(edges.start_node, e) as usize != node
            && side::row(edges.end_node, e) as usize != node
}

// The lowest node whose first_edge is no edge or does not touch it.
pub(crate) fn bad_node(tile: &Tile) -> Option<usize>
    ensures { result ≡ found (lowest (first_edge_wrong tile.now) (N tile.now)) }
{
    lowest_row(
        tile.first_edge.len(),
        |n| is_away(&tile.edges, n, side::row(tile.first_edge, n) as usize),
    )
}

// 20 to 25, in order. Nothing beyond the sides is written; where nothing is refused the marks count each side's predecessors.
pub(crate) fn judge_edges(tile: &SizedTile, marks: &mut [u32]) -> Result<(), Refusal>
    requires { sides tile.now ≤ length marks.old }
    ensures value { result ≡ answered (first_of (edge_tests tile.now.edg (F tile.now) (N tile.now))) }
    ensures beyond { front zeros (sides tile.now) marks.new ≡ front zeros (sides tile.now) marks.old }
    ensures marks_after { OnOk result (marks.new ≡ predecessors_counted tile.now.edg marks.old) }
{
    let columns = tile.tile;
    let edges = &columns.edges;
    let n = edges.start_node.len();
    let faces = columns.ring_ptr.len();
    let nodes = columns.first_edge.len();
    Kind::NodeOutOfRange.at_lowest(bad_row(nodes, n, edges.start_node, edges.end_node))?;
    Kind::FaceOutOfRange.at_lowest(bad_row(faces, n, edges.right_face, edges.left_face))?;
    Kind::EdgeOutOfRange.at_lowest(bad_row(n, n, edges.right_edge, edges.left_edge))?;
    owners::tally(tile, marks)
}
