// The archive for callers in C: the operations of `abi` under the names and with the parameters that `native/vumbarete.h` declares. Nothing is
// worked out here, and each clause is that of the operation which it calls.
#![tactic(auto)]

ghost use Rattle.std.specs.Prelude.{◌≡◌, length};
ghost use Rattle.wave.specs.Height.{height_of};
ghost use Rattle.wave.specs.Judgement.{judgement_of};
ghost use Rattle.triplet.specs.Triplet.{triplet_of};
ghost use Rattle.triplet.specs.Written.{written_of, row_after};
ghost use Rattle.side.specs.Edges.{edges};
ghost use Rattle.tile.specs.Columns.{tile};
ghost use Rattle.tile.specs.Check.{verdict_of, marks_after};
ghost use Rattle.tile.specs.Walk.{walk_of, sides_written};
ghost use Rattle.abi.specs.Plain.{order_for, ids_for, plain_verdict, plain_steps, plain_height, plain_judgement, plain_triplet, plain_written};
ghost use Rattle.header.specs.Steps.{step_of, start_of, column_of};
ghost use Rattle.abi.specs.PlainColumns.{plain_column};
ghost use Rattle.header.specs.Layouts.{header_of};
ghost use Rattle.limits.specs.Limits.{most_rows};
ghost use Rattle.opening.specs.Opening.{opened_of};
ghost use Rattle.abi.specs.PlainTables.{plain_header, plain_table, rows_judged, plain_row, row_in, plain_value, value_in, plain_rectangle, rectangle_in};
ghost use Rattle.load.specs.Sources.{files};
ghost use Rattle.load.specs.Columns.{columns, lengths};
ghost use Rattle.load.specs.Load.{load_of};
ghost use Rattle.abi.specs.PlainLoads.{plain_loaded, columns_loaded};

use abi::{
    PlainColumn, PlainHeader, PlainHeight, PlainJudgement, PlainLoaded, PlainRectangle, PlainRow,
    PlainSteps, PlainTable, PlainTriplet, PlainValue, PlainVerdict, PlainWritten,
};

// A wave height in whole thousandths.
#[unsafe(no_mangle)]
pub extern "C" fn vumbarete_height(text: &[u8]) -> PlainHeight
    ensures { result ≡ plain_height (height_of text.now) }
{
    abi::vumbarete_height(text)
}

// Whether a measured height is not above the limit: 1 where it passes.
#[unsafe(no_mangle)]
pub extern "C" fn vumbarete_passes(measured: &[u8], limit: &[u8]) -> PlainJudgement
    ensures { result ≡ plain_judgement (judgement_of measured.now limit.now) }
{
    abi::vumbarete_passes(measured, limit)
}

// The triplet id that the bytes begin with, and how many bytes it has.
#[unsafe(no_mangle)]
pub extern "C" fn vumbarete_triplet(bytes: &[u8], most_first: bool) -> PlainTriplet
    ensures { result ≡ plain_triplet (triplet_of (order_for most_first) bytes.now) }
{
    abi::vumbarete_triplet(bytes, most_first)
}

// Writes a triplet id into the row at a place, and changes no other byte.
#[unsafe(no_mangle)]
pub extern "C" fn vumbarete_write_triplet(
    row: &mut [u8],
    at: usize,
    id: u32,
    tile: u32,
    other: u32,
    most_first: bool,
) -> PlainWritten
    ensures value { result ≡ plain_written (written_of (length row.old) at (ids_for id tile other)) }
    ensures row_after { row.new ≡ row_after (written_of (length row.old) at (ids_for id tile other)) (order_for most_first) row.old at (ids_for id tile other) }
{
    abi::vumbarete_write_triplet(row, at, id, tile, other, most_first)
}

// Checks a tile; the marks afterwards hold the ring row of each side, or zeros.
#[unsafe(no_mangle)]
pub extern "C" fn vumbarete_check(
    start_node: &[u32],
    end_node: &[u32],
    right_face: &[u32],
    left_face: &[u32],
    right_edge: &[u32],
    left_edge: &[u32],
    ring_ptr: &[u32],
    fac_id: &[u32],
    start_edge: &[u32],
    first_edge: &[u32],
    marks: &mut [u32],
) -> PlainVerdict
    ensures value { result ≡ plain_verdict (verdict_of (tile (edges start_node.now end_node.now
        right_face.now left_face.now right_edge.now left_edge.now)
        ring_ptr.now fac_id.now start_edge.now first_edge.now)
        (length marks.old)) }
    ensures marks_after { marks.new ≡ marks_after (tile (edges start_node.now end_node.now
        right_face.now left_face.now right_edge.now left_edge.now)
        ring_ptr.now fac_id.now start_edge.now first_edge.now)
        marks.old }
{
    abi::vumbarete_check(
        start_node, end_node, right_face, left_face, right_edge, left_edge, ring_ptr, fac_id,
        start_edge, first_edge, marks,
    )
}

// Walks from a ring row and writes the sides of its cycle, start side first.
#[unsafe(no_mangle)]
pub extern "C" fn vumbarete_walk(
    start_node: &[u32],
    end_node: &[u32],
    right_face: &[u32],
    left_face: &[u32],
    right_edge: &[u32],
    left_edge: &[u32],
    ring_ptr: &[u32],
    fac_id: &[u32],
    start_edge: &[u32],
    first_edge: &[u32],
    row: usize,
    out: &mut [u32],
) -> PlainSteps
    ensures value { result ≡ plain_steps (walk_of (tile (edges start_node.now end_node.now
        right_face.now left_face.now right_edge.now left_edge.now)
        ring_ptr.now fac_id.now start_edge.now first_edge.now) row
        (length out.old)) }
    ensures out_after { out.new ≡ sides_written (tile (edges start_node.now end_node.now
        right_face.now left_face.now right_edge.now left_edge.now)
        ring_ptr.now fac_id.now start_edge.now first_edge.now) row
        (walk_of (tile (edges start_node.now end_node.now right_face.now
        left_face.now right_edge.now left_edge.now) ring_ptr.now
        fac_id.now start_edge.now first_edge.now) row
        (length out.old)) out.old }
{
    abi::vumbarete_walk(
        start_node, end_node, right_face, left_face, right_edge, left_edge, ring_ptr, fac_id,
        start_edge, first_edge, row, out,
    )
}

// Where the first column definition stands, at which a reader starts; 0 where the header is refused.
#[unsafe(no_mangle)]
pub extern "C" fn vumbarete_first_place(file: &[u8]) -> usize
    ensures { result ≡ start_of file.now }
{
    abi::vumbarete_first_place(file)
}

// One column, at a place.
#[unsafe(no_mangle)]
pub extern "C" fn vumbarete_column_step(file: &[u8], place: usize) -> PlainColumn
    ensures { result ≡ plain_column (step_of file.now place) }
{
    abi::vumbarete_column_step(file, place)
}

// The header of a table file.
#[unsafe(no_mangle)]
pub extern "C" fn vumbarete_header(file: &[u8]) -> PlainHeader
    ensures { result ≡ plain_header (header_of file.now) }
{
    abi::vumbarete_header(file)
}

// The column of a name in either case, from 1; 0 where there is none or the header is refused.
#[unsafe(no_mangle)]
pub extern "C" fn vumbarete_find_column(file: &[u8], name: &[u8]) -> usize
    ensures { result ≡ column_of file.now name.now }
{
    abi::vumbarete_find_column(file, name)
}

// A table file opened with its index.
#[unsafe(no_mangle)]
pub extern "C" fn vumbarete_open(file: &[u8], index: &[u8]) -> PlainTable
    ensures { result ≡ plain_table (opened_of file.now index.now most_rows) }
{
    abi::vumbarete_open(file, index)
}

// Where row i of a table lies.
#[unsafe(no_mangle)]
pub extern "C" fn vumbarete_row(file: &[u8], index: &[u8], row: usize) -> PlainRow
    ensures { result ≡ plain_row (row_in file.now index.now row) }
{
    abi::vumbarete_row(file, index, row)
}

// A table file opened with its index, and every row judged: the lowest that is refused.
#[unsafe(no_mangle)]
pub extern "C" fn vumbarete_judge_rows(file: &[u8], index: &[u8]) -> PlainTable
    ensures { result ≡ rows_judged file.now index.now (opened_of file.now index.now most_rows) }
{
    abi::vumbarete_judge_rows(file, index)
}

// The value of a column in row i of a table.
#[unsafe(no_mangle)]
pub extern "C" fn vumbarete_value(
    file: &[u8],
    index: &[u8],
    row: usize,
    column: usize,
) -> PlainValue
    ensures { result ≡ plain_value (value_in file.now index.now row column) }
{
    abi::vumbarete_value(file, index, row, column)
}

// The rectangle of the coordinates in a column of row i of a table.
#[unsafe(no_mangle)]
pub extern "C" fn vumbarete_rectangle(
    file: &[u8],
    index: &[u8],
    row: usize,
    column: usize,
) -> PlainRectangle
    ensures { result ≡ plain_rectangle (rectangle_in file.now index.now row column) }
{
    abi::vumbarete_rectangle(file, index, row, column)
}

// Four tables and their indexes to the ten columns of a tile.
#[unsafe(no_mangle)]
pub extern "C" fn vumbarete_load(
    edg: &[u8],
    edx: &[u8],
    fac: &[u8],
    fax: &[u8],
    rng: &[u8],
    rnx: &[u8],
    cnd: &[u8],
    cnx: &[u8],
    most: usize,
    start_node: &mut [u32],
    end_node: &mut [u32],
    right_face: &mut [u32],
    left_face: &mut [u32],
    right_edge: &mut [u32],
    left_edge: &mut [u32],
    ring_ptr: &mut [u32],
    fac_id: &mut [u32],
    start_edge: &mut [u32],
    first_edge: &mut [u32],
) -> PlainLoaded
    ensures value { result ≡ plain_loaded (load_of (files edg.now edx.now fac.now fax.now
        rng.now rnx.now cnd.now cnx.now) most
        (lengths (columns start_node.old end_node.old right_face.old left_face.old
        right_edge.old left_edge.old ring_ptr.old fac_id.old
        start_edge.old first_edge.old))) }
    ensures first_edge_after { columns start_node.new end_node.new right_face.new left_face.new
        right_edge.new left_edge.new ring_ptr.new fac_id.new
        start_edge.new first_edge.new
        ≡ columns_loaded (files edg.now edx.now fac.now fax.now
        rng.now rnx.now cnd.now cnx.now) most
        (columns start_node.old end_node.old right_face.old left_face.old
        right_edge.old left_edge.old ring_ptr.old fac_id.old
        start_edge.old first_edge.old) }
{
    abi::vumbarete_load(
        edg, edx, fac, fax, rng, rnx, cnd, cnx, most, start_node, end_node, right_face, left_face,
        right_edge, left_edge, ring_ptr, fac_id, start_edge, first_edge,
    )
}
