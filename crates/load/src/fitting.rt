// The tests between opening and rows: 17 by place, F, then R, zero (15), room (14, by place).
ghost use Rattle.std.specs.Prelude.{◌≡◌, ◌≤◌, ◌<◌};
ghost use Rattle.laws.specs.Lowest.{lowest, found};
ghost use Rattle.limits.specs.Limits.{most_columns};
ghost use Rattle.table.specs.Rows.{column_at};
ghost use Rattle.load.specs.Sources.{table_at, triplets_too, type_fits, fitting, rows_for};
ghost use Rattle.load.specs.Serving.Named.{column_by, columns_by, column_placed, tables_among};
ghost use Rattle.load.specs.Load.{unless_found, reported, column_finding, empty_finding, too_short, room_finding};
ghost use Rattle.load.specs.Serving.Stages.{fitted};

use crate::{Finding, OfTables, Sources, TableName};
use field::FieldType;
use header::Layout;
use opening::Opened;
use refusal::Kind;

// The places of a tile's columns.
const PLACES: usize = 10;

// The table of a place: six of edg, one of fac, two of rng, one of cnd.
fn table_at(place: usize) -> TableName
    ensures { result ≡ table_at place }
{
    if place <= 6 {
        return TableName::Edg;
    }
    if place == 7 {
        return TableName::Fac;
    }
    if place <= 9 {
        return TableName::Rng;
    }
    TableName::Cnd
}

// Whether a triplet may stand at a place: 3 to 6 and 10.
fn takes_triplets(place: usize) -> bool
    ensures { result ≡ triplets_too place }
{
    if place < 3 {
        return false;
    }
    if place <= 6 {
        return true;
    }
    place == 10
}

// Whether a column of this type may stand at a place.
fn type_fits(place: usize, kind: FieldType) -> bool
    ensures { result ≡ type_fits place kind }
{
    if kind.is_integer() {
        return true;
    }
    if takes_triplets(place) {
        return kind.is_triplet();
    }
    false
}

// The type of a column.
fn column_kind(layout: &Layout, column: usize) -> FieldType
    requires { (0 < column) × (column ≤ most_columns) }
    ensures { result ≡ (column_at layout.now column).kind }
{
    layout.cols[column - 1].kind
}

// The column, if the table has it and its type fits the place.
fn fit(layout: &Layout, place: usize, column: usize) -> Option<usize>
    ensures { result ≡ found (fitting layout.now place column) }
{
    if table::no_such_column(*layout, column) {
        return None;
    }
    if type_fits(place, column_kind(layout, column)) {
        return Some(column);
    }
    None
}

// The column of a name for its place in what was opened of its table, found by where the names lie: no header is judged anew.
fn column_by(file: &[u8], opened: &Opened, place: usize, name: &[u8]) -> Option<usize>
    ensures { result ≡ found (column_by file.now opened.now place name.now) }
{
    let layout = &opened.table.layout;
    let column = header::column_among(file, opened.names, layout.columns, name)?;
    fit(layout, place, column)
}

// The column of a place, or 17 where it is missing or of a wrong type.
fn find_column(
    sources: &Sources,
    opened: &OfTables<Opened>,
    place: usize,
    name: &[u8],
) -> Result<usize, Finding>
    ensures { result ≡ column_placed sources.now opened.now place name.now }
{
    let table = table_at(place);
    match column_by(sources.file(table), opened.of(table), place, name) {
        Some(column) => Ok(column),
        None => Err(Finding {
            table,
            refusal: Kind::WrongColumn.at(place),
        }),
    }
}

// The numbers of the ten columns, by their places.
fn find_columns(sources: &Sources, opened: &OfTables<Opened>) -> Result<[usize; 10], Finding>
    ensures { result ≡ unless_found (column_finding (columns_by sources.now opened.now)) (columns_by sources.now opened.now) }
{
    Ok([
        find_column(sources, opened, 1, b"start_node")?,
        find_column(sources, opened, 2, b"end_node")?,
        find_column(sources, opened, 3, b"right_face")?,
        find_column(sources, opened, 4, b"left_face")?,
        find_column(sources, opened, 5, b"right_edge")?,
        find_column(sources, opened, 6, b"left_edge")?,
        find_column(sources, opened, 7, b"ring_ptr")?,
        find_column(sources, opened, 8, b"fac_id")?,
        find_column(sources, opened, 9, b"start_edge")?,
        find_column(sources, opened, 10, b"first_edge")?,
    ])
}

// "F, then R, zero (15)"
fn judge_empty(table: TableName, rows: usize) -> Result<(), Finding>
    ensures { result ≡ reported (empty_finding table rows) }
{
    if rows == 0 {
        return Err(Finding {
            table,
            refusal: Kind::OverLimit.at(0),
        });
    }
    Ok(())
}

// The rows of each place's table.
fn rows_for(opened: &OfTables<Opened>) -> [usize; 10]
    ensures { result ≡ rows_for (tables_among opened.now) }
{
    let e = opened.edg.table.rows;
    let f = opened.fac.table.rows;
    let g = opened.rng.table.rows;
    let h = opened.cnd.table.rows;
    [e, e, e, e, e, e, f, g, g, h]
}

// 14 for the lowest place whose lent column is too short for its table's rows.
fn judge_room(lengths: [usize; 10], rows: [usize; 10]) -> Result<(), Finding>
    ensures { result ≡ reported (room_finding lengths rows) }
{
    for i in 0..PLACES {
        if lengths[i] < rows[i] {
            return Err(Finding {
                table: table_at(i + 1),
                refusal: Kind::TooShort.at(rows[i]),
            });
        }
    }
    Ok(())
}

// 17, 15, 14; the numbers of the ten columns.
pub(crate) fn judge_fit(
    sources: &Sources,
    opened: &OfTables<Opened>,
    lengths: [usize; 10],
) -> Result<[usize; 10], Finding>
    ensures { result ≡ fitted sources.now opened.now lengths }
{
    let columns = find_columns(sources, opened)?;
    judge_empty(TableName::Fac, opened.fac.table.rows)?;
    judge_empty(TableName::Rng, opened.rng.table.rows)?;
    judge_room(lengths, rows_for(opened))?;
    Ok(columns)
}
