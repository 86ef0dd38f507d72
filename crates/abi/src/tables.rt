// Headers, tables, rows, values and rectangles for callers that are not Rattle. Each question opens its table first.
ghost use Rattle.std.specs.Prelude.{◌≡◌, Ok};
ghost use Rattle.header.specs.Layouts.{header_of};
ghost use Rattle.header.specs.Steps.{column_of};
ghost use Rattle.limits.specs.Limits.{most_rows};
ghost use Rattle.opening.specs.Opening.{opened_of};
ghost use Rattle.rectangle.specs.Rectangles.{answer};
ghost use Rattle.abi.specs.PlainTables.{letter_of, plain_header, plain_table, judged, rows_judged, plain_row, row_in, pattern, part_of, plain_value, value_in};
ghost use Rattle.abi.specs.PlainTables.{plain_rectangle, rectangle_in};

use crate::{PlainHeader, PlainRectangle, PlainRow, PlainTable, PlainValue};
use header::{Header, Span};
use number::Order;
use opening::Opened;
use rectangle::Found;
use refusal::Refusal;
use table::{Extent, Value};

// ---- answers as plain numbers

// The letter of a byte order.
fn letter_of(order: Order) -> u32
    ensures { result ≡ letter_of order }
{
    match order {
        Order::Least => 76,
        Order::Most => 77,
    }
}

impl From<Result<Header, Refusal>> for PlainHeader {
    ghost from_gives = { λ read plain. plain ≡ plain_header read };

    fn from(read: Result<Header, Refusal>) -> Self {
        match read {
            Ok(h) => PlainHeader {
                number: 0,
                place: 0,
                order: letter_of(h.layout.order),
                start: h.layout.start,
                columns: h.layout.columns,
                id: h.layout.id,
                width: h.layout.width,
            },
            Err(q) => PlainHeader {
                number: q.number,
                place: q.place,
                ..PlainHeader::default()
            },
        }
    }
}

impl From<Result<Opened, Refusal>> for PlainTable {
    ghost from_gives = { λ opened plain. plain ≡ plain_table opened };

    fn from(opened: Result<Opened, Refusal>) -> Self {
        match opened {
            Ok(o) => PlainTable {
                number: 0,
                place: 0,
                order: letter_of(o.table.layout.order),
                start: o.table.layout.start,
                columns: o.table.layout.columns,
                id: o.table.layout.id,
                width: o.table.layout.width,
                rows: o.table.rows,
            },
            Err(q) => PlainTable {
                number: q.number,
                place: q.place,
                ..PlainTable::default()
            },
        }
    }
}

impl From<Result<Span, Refusal>> for PlainRow {
    ghost from_gives = { λ row plain. plain ≡ plain_row row };

    fn from(row: Result<Span, Refusal>) -> Self {
        match row {
            Ok(lies) => PlainRow {
                start: lies.start,
                end: lies.end,
                ..PlainRow::default()
            },
            Err(q) => PlainRow {
                number: q.number,
                place: q.place,
                ..PlainRow::default()
            },
        }
    }
}

// A value that is a pattern, or a part of the file; beside its kind and that all is 0.
fn pattern(kind: u32, bits: u64) -> PlainValue
    ensures { result ≡ pattern kind bits }
{
    PlainValue {
        kind,
        bits,
        ..PlainValue::default()
    }
}

fn part(kind: u32, lies: Extent) -> PlainValue
    ensures { result ≡ part_of kind lies.start lies.bytes }
{
    PlainValue {
        kind,
        start: lies.start,
        bytes: lies.bytes,
        ..PlainValue::default()
    }
}

impl From<Value> for PlainValue {
    ghost from_gives = { λ v plain. plain ≡ plain_value (Ok v) };

    fn from(value: Value) -> Self {
        let none = PlainValue::default();
        match value {
            Value::Short(Some(short)) => PlainValue {
                kind: 1,
                short,
                ..none
            },
            Value::Short(None) => PlainValue { kind: 2, ..none },
            Value::Integer(Some(integer)) => PlainValue {
                kind: 3,
                integer,
                ..none
            },
            Value::Integer(None) => PlainValue { kind: 4, ..none },
            Value::Float(bits) => pattern(5, u64::from(bits)),
            Value::FloatNull(bits) => pattern(6, u64::from(bits)),
            Value::Double(bits) => pattern(7, bits),
            Value::DoubleNull(bits) => pattern(8, bits),
            Value::Triplet(ids) => PlainValue {
                kind: 9,
                id: ids.id,
                tile: ids.tile,
                other: ids.other,
                ..none
            },
            Value::Text(lies) => part(10, lies),
            Value::Date(lies) => part(11, lies),
            Value::Coordinates(lies) => part(12, lies),
            Value::Empty => PlainValue { kind: 13, ..none },
        }
    }
}

impl From<Result<Value, Refusal>> for PlainValue {
    ghost from_gives = { λ read plain. plain ≡ plain_value read };

    fn from(read: Result<Value, Refusal>) -> Self {
        match read {
            Ok(value) => PlainValue::from(value),
            Err(q) => PlainValue {
                number: q.number,
                place: q.place,
                ..PlainValue::default()
            },
        }
    }
}

// A rectangle in f32 or in f64; the four of the other width are 0.0.
impl From<Found> for PlainRectangle {
    ghost from_gives = { λ found plain. plain ≡ plain_rectangle (answer (Ok found)) };

    fn from(found: Found) -> Self {
        match found {
            Found::Short(r) => PlainRectangle {
                width: 4,
                short_least_x: r.least_x,
                short_least_y: r.least_y,
                short_greatest_x: r.greatest_x,
                short_greatest_y: r.greatest_y,
                ..PlainRectangle::default()
            },
            Found::Double(r) => PlainRectangle {
                width: 8,
                least_x: r.least_x,
                least_y: r.least_y,
                greatest_x: r.greatest_x,
                greatest_y: r.greatest_y,
                ..PlainRectangle::default()
            },
        }
    }
}

impl From<Result<Found, Refusal>> for PlainRectangle {
    ghost from_gives = { λ found plain. plain ≡ plain_rectangle (answer found) };

    fn from(found: Result<Found, Refusal>) -> Self {
        match found {
            Ok(rectangle) => PlainRectangle::from(rectangle),
            Err(q) => PlainRectangle {
                number: q.number,
                place: q.place,
                ..PlainRectangle::default()
            },
        }
    }
}
// ---- the operations

// The header of a table file.
pub fn vumbarete_header(file: &[u8]) -> PlainHeader
    ensures { result ≡ plain_header (header_of file.now) }
{
    header::read_header(file).into()
}

// The column of a name in either case, from 1; 0 where there is none or the header is refused.
pub fn vumbarete_find_column(file: &[u8], name: &[u8]) -> usize
    ensures { result ≡ column_of file.now name.now }
{
    header::find_column(file, name).unwrap_or(0)
}

// A table file opened with its index.
pub fn vumbarete_open(file: &[u8], index: &[u8]) -> PlainTable
    ensures { result ≡ plain_table (opened_of file.now index.now most_rows) }
{
    opening::open_table(file, index).into()
}

// What is asked of the table that the file and its index are.
#[tactic(auto, unfolding(crate::specs::PlainTables::row_in))]
fn row_in(file: &[u8], index: &[u8], row: usize) -> Result<Span, Refusal>
    ensures { result ≡ row_in file.now index.now row }
{
    let opened = opening::open_table(file, index)?;
    table::read_row(file, index, opened.table, row)
}

// Where row i of a table lies.
pub fn vumbarete_row(file: &[u8], index: &[u8], row: usize) -> PlainRow
    ensures { result ≡ plain_row (row_in file.now index.now row) }
{
    row_in(file, index, row).into()
}

// The table that is opened, with every row judged.
fn judged(file: &[u8], index: &[u8]) -> Result<Opened, Refusal>
    ensures { result ≡ judged file.now index.now (opened_of file.now index.now most_rows) }
{
    let opened = opening::open_table(file, index)?;
    table::rows::judge_rows(file, index, opened.table)?;
    Ok(opened)
}

// A table file opened with its index, and every row judged: the lowest that is refused.
pub fn vumbarete_judge_rows(file: &[u8], index: &[u8]) -> PlainTable
    ensures { result ≡ rows_judged file.now index.now (opened_of file.now index.now most_rows) }
{
    judged(file, index).into()
}

// What is asked of the table that the file and its index are.
#[tactic(auto, unfolding(crate::specs::PlainTables::value_in))]
fn value_in(file: &[u8], index: &[u8], row: usize, column: usize) -> Result<Value, Refusal>
    ensures { result ≡ value_in file.now index.now row column }
{
    let opened = opening::open_table(file, index)?;
    table::read_value(file, index, opened.table, row, column)
}

// The value of a column in row i of a table.
pub fn vumbarete_value(file: &[u8], index: &[u8], row: usize, column: usize) -> PlainValue
    ensures { result ≡ plain_value (value_in file.now index.now row column) }
{
    value_in(file, index, row, column).into()
}

// What is asked of the table that the file and its index are.
#[tactic(auto, unfolding(crate::specs::PlainTables::rectangle_in))]
fn rectangle_in(file: &[u8], index: &[u8], row: usize, column: usize) -> Result<Found, Refusal>
    ensures { answer result ≡ rectangle_in file.now index.now row column }
{
    let opened = opening::open_table(file, index)?;
    rectangle::find_rectangle(file, index, opened.table, row, column)
}

// The rectangle of the coordinates in a column of row i of a table.
pub fn vumbarete_rectangle(file: &[u8], index: &[u8], row: usize, column: usize) -> PlainRectangle
    ensures { result ≡ plain_rectangle (rectangle_in file.now index.now row column) }
{
    rectangle_in(file, index, row, column).into()
}
