// The sides of a tile's edges, and the successor of a side.
#![tactic(auto)]

ghost use Rattle.std.specs.Prelude.{◌≡◌};
ghost use Rattle.laws.specs.Orbit.{entry};
ghost use Rattle.side.specs.Edges.{outside};
ghost use Rattle.side.specs.Successor.{leaving, leaving_edge, successor};

use refusal::Kind;
use std::marker::Model;

// The six columns of the edge table that a tile has.
#[derive(Drop)]
pub struct Edges<'a> {
    pub start_node: &'a [u32],
    pub end_node: &'a [u32],
    pub right_face: &'a [u32],
    pub left_face: &'a [u32],
    pub right_edge: &'a [u32],
    pub left_edge: &'a [u32],
}

impl<'a> Model for Edges<'a> {
    ghost use Rattle.side.specs.Edges.{Edges, edges};

    ghost Value = { Edges };

    ghost view = { λ a. edges a.start_node.now a.end_node.now a.right_face.now a.left_face.now a.right_edge.now a.left_edge.now };
}

// Row e of a column, counted from 1; 0 where there is no such row.
pub fn row(column: &[u32], e: usize) -> u32
    ensures { result ≡ entry column.now e }
{
    match e.checked_sub(1) {
        Some(i) => column.get(i).copied().unwrap_or(0),
        None => 0,
    }
}

// Whether x is none of 1..most.
pub fn is_outside(most: usize, x: usize) -> bool
    ensures { result ≡ outside most x }
{
    x == 0 || most < x
}

// The nodes and faces of one edge.
#[derive(Clone, Copy)]
pub struct Ends {
    pub start_node: u32,
    pub end_node: u32,
    pub right_face: u32,
    pub left_face: u32,
}

impl Ends {
    // Of the edge k, with these nodes and faces, the side that leaves from the node with the face.
    #[inline(always)]
    pub fn leaving(self, k: u32, node: u32, face: u32) -> Result<usize, Kind>
        ensures { result ≡ leaving self.start_node self.end_node self.right_face self.left_face k node face }
    {
        let left = 2 * k as usize;
        let right = left.saturating_sub(1);
        match (self.start_node == node, self.end_node == node) {
            (false, false) => Err(Kind::NotTouching),
            (true, false) if self.right_face == face => Ok(right),
            (false, true) if self.left_face == face => Ok(left),
            (true, true) => match (self.right_face == face, self.left_face == face) {
                (true, true) => Err(Kind::LoopOfOneFace),
                (true, false) => Ok(right),
                (false, true) => Ok(left),
                (false, false) => Err(Kind::FaceDiffers),
            },
            _ => Err(Kind::FaceDiffers),
        }
    }
}

impl<'a> Edges<'a> {
    // The side of the edge k that leaves from the node with the face. It stands in the loops of its callers: a call would make a walk longer.
    #[inline(always)]
    fn follow(&self, k: u32, node: u32, face: u32) -> Result<usize, Kind>
        ensures { result ≡ leaving_edge self.now k node face }
    {
        let e = k as usize;
        if is_outside(self.start_node.len(), e) {
            return Err(Kind::EdgeOutOfRange);
        }
        Ends {
            start_node: row(self.start_node, e),
            end_node: row(self.end_node, e),
            right_face: row(self.right_face, e),
            left_face: row(self.left_face, e),
        }
        .leaving(k, node, face)
    }

    // The successor of the side s: the right side continues on right_edge from end_node, the left one on left_edge from start_node.
    // Example: in tile MJ21 (edges A-B, B-C, C-A; right edges 2, 3, 1; left 3, 1, 2) side 1 goes to 3, and side 2 to 6, the left side of
    // edge 3, which ends in A. With left edge 2 of edge 1, side 2 has 23: edge B-C does not touch A.
    #[inline(always)]
    pub fn next_side(&self, s: usize) -> Result<usize, Kind>
        ensures { result ≡ successor self.now s }
    {
        let e = s / 2 + s % 2;
        if s % 2 == 1 {
            self.follow(
                row(self.right_edge, e),
                row(self.end_node, e),
                row(self.right_face, e),
            )
        } else {
            self.follow(
                row(self.left_edge, e),
                row(self.start_node, e),
                row(self.left_face, e),
            )
        }
    }
}
