// The numbers of a tile's columns, read from rows that are judged already, and written. What a row needs of the layout is taken once for
// all rows, as plain numbers, so that a row costs its own bytes and no copy of the layout.
ghost use Rattle.std.specs.Prelude.{◌≡◌, false, ◌≤◌, ◌<◌, length, set};
ghost use Rattle.laws.specs.Buffer.{front};
ghost use Rattle.limits.specs.Limits.{most_rows};
ghost use Rattle.table.specs.Rows.{no_such_column};
ghost use Rattle.load.specs.Lent.{contents, SameColumns};
ghost use Rattle.load.specs.Cells.{cell_of, EdgeColumns, EdgeRoom, SixThere, edges_written};
ghost use Rattle.load.specs.Serving.CellPlans.{letters_of, offsets_of, origin_of, places_for, cells_at};
ghost use Rattle.load.specs.Load.{RowsJudged};

use crate::ColumnsMut;
use header::{Layout, Span};
use limits::MOST_COLUMNS;
use number::Order;
use opening::Table;
use table::rows::Rows;

// An edge's row has six of the ten columns.
const SIX: usize = 6;

// ---- where the columns of a row start

// In rows of one width, counted from the row's start: of all columns.
fn offsets_of(layout: &Layout) -> [usize; MOST_COLUMNS]
    ensures { result ≡ offsets_of layout.now }
{
    let mut offsets = [0usize; MOST_COLUMNS];
    for k in 0..MOST_COLUMNS {
        offsets[k] = layout.cols[k].offset as usize;
    }
    offsets
}

// The next row: walked past the columns 1..n where its width is none, which leaves their places, counted from the file's start; else
// they stay as they were, counted from the row's. Gives where they are counted from.
fn walk_row(
    rows: &Rows,
    file: &[u8],
    n: usize,
    lies: Span,
    places: &mut [usize; MOST_COLUMNS],
) -> usize
    ensures value { result ≡ origin_of rows.now.width lies.start }
    ensures places_after { places.new ≡ places_for rows.now.order file.now rows.now.plan n rows.now.width lies.start lies.end places.old }
{
    if rows.width == 0 {
        let _ = rows.walk(file, n, lies, places);
        return 0;
    }
    lies.start
}

// ---- one column

// A number written at a place of a column; nothing, where the column ends before it.
fn put(column: &mut [u32], i: usize, v: u32)
    ensures { column.new ≡ set column.old i v }
{
    if i < column.len() {
        column[i] = v;
    }
}

// One column of a table.
pub(crate) fn write_column(file: &[u8], index: &[u8], table: &Table, column: usize, out: &mut [u32])
    requires rows_le_most_rows { table.now.rows ≤ most_rows }
    requires rows_judged { RowsJudged file.now index.now table.now }
    requires column_value { no_such_column table.now.layout column ≡ false }
    requires rows_in_bounds { table.now.rows ≤ length out.old }
    ensures { out.new ≡ front (cell_of file.now index.now table.now.layout column) table.now.rows out.old }
{
    let layout = &table.layout;
    let order = layout.order;
    let letter = layout.cols[column - 1].kind.letter();
    let rows = Rows::of(layout);
    let mut places = offsets_of(layout);
    let mut start = layout.start as usize;
    for i in 0..table.rows {
        let end = rows.bound(index, i + 1);
        let origin = walk_row(&rows, file, column, Span { start, end }, &mut places);
        let cell = taken::number_by(
            file,
            letter,
            table::place_within(origin, end, places[column - 1]),
            end,
            order,
        );
        put(out, i, cell);
        start = end;
    }
}

// ---- the six columns of an edge, by one walk over its row

// The letters of the six columns' types.
fn edge_letters(layout: &Layout, columns: &[usize; 10]) -> [u8; 6]
    requires { SixThere columns.now }
    ensures { result ≡ letters_of layout.now columns.now }
{
    let mut letters = [0u8; 6];
    for k in 0..SIX {
        letters[k] = layout.cols[columns[k] - 1].kind.letter();
    }
    letters
}

// The six cells of a row, whose columns start at these places, counted from the origin.
fn edge_cells(
    file: &[u8],
    letters: &[u8; 6],
    columns: &[usize; 10],
    places: &[usize; MOST_COLUMNS],
    origin: usize,
    end: usize,
    order: Order,
) -> [u32; 6]
    requires { SixThere columns.now }
    ensures { result ≡ cells_at order file.now letters.now columns.now places.now origin end }
{
    let mut cells = [0u32; 6];
    for k in 0..SIX {
        let column = columns[k];
        cells[k] = taken::number_by(
            file,
            letters[k],
            table::place_within(origin, end, places[column - 1]),
            end,
            order,
        );
    }
    cells
}

// The six columns of edges, row after row.
pub(crate) fn write_edges(
    file: &[u8],
    index: &[u8],
    table: &Table,
    columns: &[usize; 10],
    out: &mut ColumnsMut,
)
    requires rows_le_most_rows { table.now.rows ≤ most_rows }
    requires rows_judged { RowsJudged file.now index.now table.now }
    requires edge_columns { EdgeColumns table.now.layout columns.now }
    requires rows_in_bounds { EdgeRoom table.now.rows (contents out.old) }
    ensures columns_after { contents out.new ≡ edges_written file.now index.now table.now columns.now (contents out.old) }
    ensures same_columns { SameColumns out.old out.new }
{
    let layout = &table.layout;
    let order = layout.order;
    let rows = Rows::of(layout);
    let letters = edge_letters(layout, columns);
    let mut places = offsets_of(layout);
    let mut start = layout.start as usize;
    for i in 0..table.rows {
        let end = rows.bound(index, i + 1);
        let origin = walk_row(
            &rows,
            file,
            layout.columns,
            Span { start, end },
            &mut places,
        );
        let cells = edge_cells(file, &letters, columns, &places, origin, end, order);
        put(out.start_node, i, cells[0]);
        put(out.end_node, i, cells[1]);
        put(out.right_face, i, cells[2]);
        put(out.left_face, i, cells[3]);
        put(out.right_edge, i, cells[4]);
        put(out.left_edge, i, cells[5]);
        start = end;
    }
}
