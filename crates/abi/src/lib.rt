// The operations for callers that are not Rattle: slices and numbers in, answers as plain numbers. In every answer but those of
// `vumbarete_find_column` and `vumbarete_first_place`, a number alone, number 0 says that nothing is refused; else number and place are
// document 01's, and all other numbers of the answer are 0, save the table that a load's refusal speaks of.
#![tactic(auto)]

mod columns;
mod loads;
mod tables;

ghost use Rattle.std.specs.Prelude.{◌≡◌, length};
ghost use Rattle.wave.specs.Height.{height_of};
ghost use Rattle.wave.specs.Judgement.{judgement_of};
ghost use Rattle.triplet.specs.Triplet.{triplet_of};
ghost use Rattle.triplet.specs.Written.{written_of, row_after};
ghost use Rattle.side.specs.Edges.{edges};
ghost use Rattle.tile.specs.Columns.{tile};
ghost use Rattle.tile.specs.Check.{verdict_of, marks_after};
ghost use Rattle.tile.specs.Walk.{walk_of, sides_written};
ghost use Rattle.abi.specs.Plain.{order_for, ids_for, plain_verdict, plain_steps, plain_height, plain_judgement, plain_triplet, plain_written};

pub use columns::{vumbarete_column_step, vumbarete_first_place};
pub use loads::vumbarete_load;
use number::Order;
use refusal::Refusal;
use side::Edges;
pub use tables::{
    vumbarete_find_column, vumbarete_header, vumbarete_judge_rows, vumbarete_open,
    vumbarete_rectangle, vumbarete_row, vumbarete_value,
};
use tile::Tile;
use triplet::{Ids, Triplet};
use wave::Judgement;

#[repr(C)]
#[derive(Clone, Copy, Default)]
pub struct PlainVerdict {
    pub number: u32,
    pub place: usize,
}

#[repr(C)]
#[derive(Clone, Copy, Default)]
pub struct PlainSteps {
    pub number: u32,
    pub place: usize,
    pub steps: usize,
}

#[repr(C)]
#[derive(Clone, Copy, Default)]
pub struct PlainHeight {
    pub number: u32,
    pub place: usize,
    pub thousandths: u32,
}

#[repr(C)]
#[derive(Clone, Copy, Default)]
pub struct PlainJudgement {
    pub number: u32,
    pub place: usize,
    pub passes: u32,
}

#[repr(C)]
#[derive(Clone, Copy, Default)]
pub struct PlainTriplet {
    pub number: u32,
    pub place: usize,
    pub id: u32,
    pub tile: u32,
    pub other: u32,
    pub bytes: usize,
}

#[repr(C)]
#[derive(Clone, Copy, Default)]
pub struct PlainWritten {
    pub number: u32,
    pub place: usize,
    pub bytes: usize,
}

#[repr(C)]
#[derive(Clone, Copy, Default)]
pub struct PlainLoaded {
    pub number: u32,
    pub place: usize,
    pub table: u32,
    pub edges: usize,
    pub faces: usize,
    pub rings: usize,
    pub nodes: usize,
}

#[repr(C)]
#[derive(Clone, Copy, Default)]
pub struct PlainHeader {
    pub number: u32,
    pub place: usize,
    pub order: u32,
    pub start: u32,
    pub columns: usize,
    pub id: usize,
    pub width: u32,
}

#[repr(C)]
#[derive(Clone, Copy, Default)]
pub struct PlainColumn {
    pub number: u32,
    pub place: usize,
    pub given: u32,
    pub name_start: usize,
    pub name_end: usize,
    pub kind: u32,
    pub star: u32,
    pub count: u32,
    pub key: u32,
    pub description_start: usize,
    pub description_end: usize,
    pub value_start: usize,
    pub value_end: usize,
    pub thematic_start: usize,
    pub thematic_end: usize,
    pub narrative_start: usize,
    pub narrative_end: usize,
    pub comma: u32,
    pub after: usize,
}

#[repr(C)]
#[derive(Clone, Copy, Default)]
pub struct PlainTable {
    pub number: u32,
    pub place: usize,
    pub order: u32,
    pub start: u32,
    pub columns: usize,
    pub id: usize,
    pub width: u32,
    pub rows: usize,
}

#[repr(C)]
#[derive(Clone, Copy, Default)]
pub struct PlainRow {
    pub number: u32,
    pub place: usize,
    pub start: usize,
    pub end: usize,
}

#[repr(C)]
#[derive(Clone, Copy, Default)]
pub struct PlainValue {
    pub number: u32,
    pub place: usize,
    pub kind: u32,
    pub short: i16,
    pub integer: i32,
    pub bits: u64,
    pub id: u32,
    pub tile: u32,
    pub other: u32,
    pub start: usize,
    pub bytes: usize,
}

#[repr(C)]
#[derive(Clone, Copy, Default)]
pub struct PlainRectangle {
    pub number: u32,
    pub place: usize,
    pub width: u32,
    pub short_least_x: f32,
    pub short_least_y: f32,
    pub short_greatest_x: f32,
    pub short_greatest_y: f32,
    pub least_x: f64,
    pub least_y: f64,
    pub greatest_x: f64,
    pub greatest_y: f64,
}

// The byte order.
fn order_for(most_first: bool) -> Order
    ensures { result ≡ order_for most_first }
{
    if most_first {
        Order::Most
    } else {
        Order::Least
    }
}

// ---- answers as plain numbers

impl From<Result<u32, Refusal>> for PlainHeight {
    ghost from_gives = { λ answer plain. plain ≡ plain_height answer };

    fn from(answer: Result<u32, Refusal>) -> Self {
        match answer {
            Ok(thousandths) => PlainHeight {
                thousandths,
                ..PlainHeight::default()
            },
            Err(q) => PlainHeight {
                number: q.number,
                place: q.place,
                ..PlainHeight::default()
            },
        }
    }
}

impl From<Result<Judgement, Refusal>> for PlainJudgement {
    ghost from_gives = { λ answer plain. plain ≡ plain_judgement answer };

    fn from(answer: Result<Judgement, Refusal>) -> Self {
        match answer {
            Ok(judgement) => PlainJudgement {
                passes: u32::from(judgement == Judgement::Passes),
                ..PlainJudgement::default()
            },
            Err(q) => PlainJudgement {
                number: q.number,
                place: q.place,
                ..PlainJudgement::default()
            },
        }
    }
}

impl From<Result<Triplet, Refusal>> for PlainTriplet {
    ghost from_gives = { λ answer plain. plain ≡ plain_triplet answer };

    fn from(answer: Result<Triplet, Refusal>) -> Self {
        match answer {
            Ok(read) => PlainTriplet {
                id: read.ids.id,
                tile: read.ids.tile,
                other: read.ids.other,
                bytes: read.bytes,
                ..PlainTriplet::default()
            },
            Err(q) => PlainTriplet {
                number: q.number,
                place: q.place,
                ..PlainTriplet::default()
            },
        }
    }
}

impl From<Result<usize, Refusal>> for PlainWritten {
    ghost from_gives = { λ answer plain. plain ≡ plain_written answer };

    fn from(answer: Result<usize, Refusal>) -> Self {
        match answer {
            Ok(bytes) => PlainWritten {
                bytes,
                ..PlainWritten::default()
            },
            Err(q) => PlainWritten {
                number: q.number,
                place: q.place,
                ..PlainWritten::default()
            },
        }
    }
}

impl From<Result<(), Refusal>> for PlainVerdict {
    ghost from_gives = { λ answer plain. plain ≡ plain_verdict answer };

    fn from(answer: Result<(), Refusal>) -> Self {
        match answer {
            Ok(()) => PlainVerdict::default(),
            Err(q) => PlainVerdict {
                number: q.number,
                place: q.place,
            },
        }
    }
}

impl From<Result<usize, Refusal>> for PlainSteps {
    ghost from_gives = { λ answer plain. plain ≡ plain_steps answer };

    fn from(answer: Result<usize, Refusal>) -> Self {
        match answer {
            Ok(steps) => PlainSteps {
                steps,
                ..PlainSteps::default()
            },
            Err(q) => PlainSteps {
                number: q.number,
                place: q.place,
                ..PlainSteps::default()
            },
        }
    }
}

// ---- wave heights

// A wave height in whole thousandths.
pub fn vumbarete_height(text: &[u8]) -> PlainHeight
    ensures { result ≡ plain_height (height_of text.now) }
{
    wave::thousandths(text).into()
}

// Whether a measured height is not above the limit: 1 where it passes.
pub fn vumbarete_passes(measured: &[u8], limit: &[u8]) -> PlainJudgement
    ensures { result ≡ plain_judgement (judgement_of measured.now limit.now) }
{
    wave::passes(measured, limit).into()
}

// ---- triplet ids

// The triplet id that the bytes begin with, and how many bytes it has.
pub fn vumbarete_triplet(bytes: &[u8], most_first: bool) -> PlainTriplet
    ensures { result ≡ plain_triplet (triplet_of (order_for most_first) bytes.now) }
{
    triplet::read(bytes, order_for(most_first)).into()
}

// Writes a triplet id into the row at a place, and changes no other byte.
pub fn vumbarete_write_triplet(
    row: &mut [u8],
    at: usize,
    id: u32,
    tile: u32,
    other: u32,
    most_first: bool,
) -> PlainWritten
    ensures value { result ≡ plain_written (written_of (length row.old) at (ids_for id tile other)) }
    ensures row_after { row.new ≡ row_after (written_of (length row.old) at (ids_for id tile other)) (order_for most_first) row.old at (ids_for id tile other) }
{
    triplet::write(row, at, Ids { id, tile, other }, order_for(most_first)).into()
}

// ---- the tile

// Checks a tile; the marks afterwards hold the ring row of each side, or zeros.
pub fn vumbarete_check(
    start_node: &[u32],
    end_node: &[u32],
    right_face: &[u32],
    left_face: &[u32],
    right_edge: &[u32],
    left_edge: &[u32],
    ring_ptr: &[u32],
    fac_id: &[u32],
    start_edge: &[u32],
    first_edge: &[u32],
    marks: &mut [u32],
) -> PlainVerdict
    ensures value { result ≡ plain_verdict (verdict_of (tile (edges start_node.now end_node.now
        right_face.now left_face.now right_edge.now left_edge.now)
        ring_ptr.now fac_id.now start_edge.now first_edge.now)
        (length marks.old)) }
    ensures marks_after { marks.new ≡ marks_after (tile (edges start_node.now end_node.now
        right_face.now left_face.now right_edge.now left_edge.now)
        ring_ptr.now fac_id.now start_edge.now first_edge.now)
        marks.old }
{
    let tile = Tile {
        edges: Edges {
            start_node,
            end_node,
            right_face,
            left_face,
            right_edge,
            left_edge,
        },
        ring_ptr,
        fac_id,
        start_edge,
        first_edge,
    };
    tile::check(&tile, marks).into()
}

// Walks from a ring row and writes the sides of its cycle, start side first.
pub fn vumbarete_walk(
    start_node: &[u32],
    end_node: &[u32],
    right_face: &[u32],
    left_face: &[u32],
    right_edge: &[u32],
    left_edge: &[u32],
    ring_ptr: &[u32],
    fac_id: &[u32],
    start_edge: &[u32],
    first_edge: &[u32],
    row: usize,
    out: &mut [u32],
) -> PlainSteps
    ensures value { result ≡ plain_steps (walk_of (tile (edges start_node.now end_node.now
        right_face.now left_face.now right_edge.now left_edge.now)
        ring_ptr.now fac_id.now start_edge.now first_edge.now) row
        (length out.old)) }
    ensures out_after { out.new ≡ sides_written (tile (edges start_node.now end_node.now
        right_face.now left_face.now right_edge.now left_edge.now)
        ring_ptr.now fac_id.now start_edge.now first_edge.now) row
        (walk_of (tile (edges start_node.now end_node.now right_face.now
        left_face.now right_edge.now left_edge.now) ring_ptr.now
        fac_id.now start_edge.now first_edge.now) row
        (length out.old)) out.old }
{
    let tile = Tile {
        edges: Edges {
            start_node,
            end_node,
            right_face,
            left_face,
            right_edge,
            left_edge,
        },
        ring_ptr,
        fac_id,
        start_edge,
        first_edge,
    };
    tile::walk(&tile, row, out).into()
}
