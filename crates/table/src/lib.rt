// Opened tables: rows found and judged, values handed out.
#![tactic(auto)]

pub mod rows;

ghost use Rattle.std.specs.Prelude.{◌≡◌, min, ◌+◌, ◌-◌, ◌≤◌, ◌<◌, length, take, drop};
ghost use Rattle.field.specs.Fields.{widest};
ghost use Rattle.limits.specs.Limits.{most_columns, most_rows};
ghost use Rattle.refusal.specs.Order.{answered, fine};
ghost use Rattle.table.specs.Rows.{columns_of, no_such, no_such_column, outside, plain_end, star_end, triplet_end};
ghost use Rattle.table.specs.Rows.{id_judged, used_up, row_of};
ghost use Rattle.table.specs.Values.{short_of, integer_of, float_of, double_of, elements, shown, value_of};
ghost use Rattle.table.specs.Values.{extent_of, part_of};

use field::FieldType;
use header::{ColumnLayout, Layout, Span};
use limits::{MOST_COLUMNS, MOST_ROWS};
use number::Order;
use opening::Table;
use refusal::{Kind, Refusal};
use triplet::Ids;

// Why a field ends nowhere in its row: the row is too short for it, or it is a bad triplet, and where.
#[derive(Clone, Copy, Debug, PartialEq, Eq)]
pub enum Unreached {
    Short,
    BadTriplet(usize),
}

// A part of a file: where it starts, and how many bytes it has.
#[derive(Clone, Copy)]
pub struct Extent {
    pub start: usize,
    pub bytes: usize,
}

// A value by its type; an integer that is null has none. Text, a date and coordinates are a part of the caller's file.
#[derive(Clone, Copy)]
pub enum Value {
    Short(Option<i16>),
    Integer(Option<i32>),

    // A float's pattern. Many patterns are null, and each is shown as it stands: an `Option` would lose it.
    Float(u32),
    FloatNull(u32),
    Double(u64),
    DoubleNull(u64),
    Triplet(Ids),
    Text(Extent),
    Date(Extent),
    Coordinates(Extent),
    Empty,
}

// ---- fields

// Whether k is none of 1..n.
fn no_such(n: usize, k: usize) -> bool
    ensures { result ≡ no_such n k }
{
    k == 0 || n < k
}

// Whether a row ends past the file or before it starts.
fn lies_outside(file: &[u8], lies: Span) -> bool
    ensures { result ≡ outside file.now lies.start lies.end }
{
    file.len() < lies.end || lies.end < lies.start
}

// A field of so many bytes.
#[tactic(auto, unfolding(crate::specs::Rows::plain_end))]
fn plain_end(at: usize, end: usize, need: usize) -> Result<usize, Unreached>
    requires { at ≤ end }
    ensures { result ≡ plain_end at end need }
{
    if need <= end - at {
        Ok(at + need)
    } else {
        Err(Unreached::Short)
    }
}

// A `*` field: a count of four bytes, then so many elements.
#[tactic(auto, unfolding(crate::specs::Rows::star_end))]
fn star_end(
    file: &[u8],
    at: usize,
    end: usize,
    width: usize,
    order: Order,
) -> Result<usize, Unreached>
    requires { (at ≤ end) × (width ≤ widest) }
    ensures { result ≡ star_end order file.now at end width }
{
    if end - at < 4 {
        return Err(Unreached::Short);
    }
    let n = number::read::<u32>(file, at, order);
    plain_end(at + 4, end, n as usize * width)
}

// A triplet, which says its own length.
#[tactic(auto, unfolding(crate::specs::Rows::triplet_end))]
fn triplet_end(file: &[u8], at: usize, end: usize, order: Order) -> Result<usize, Unreached>
    requires { (at ≤ end) × (end ≤ length file.now) }
    ensures { result ≡ triplet_end order file.now at end }
{
    match triplet::read(&file[at..end], order) {
        Ok(triplet) => Ok(at + triplet.bytes),
        Err(refusal) => Err(Unreached::BadTriplet(refusal.place)),
    }
}

// ---- columns and rows that there are

// Whether a layout has no column of this number.
pub fn no_such_column(layout: Layout, column: usize) -> bool
    ensures { result ≡ no_such_column layout column }
{
    lacks_column(&layout, column)
}

// The same of a layout that is lent, which has a kilobyte.
fn lacks_column(layout: &Layout, column: usize) -> bool
    ensures { result ≡ no_such_column layout.now column }
{
    no_such(limits::columns_within(layout.columns), column)
}

// Whether a table of so many rows has no row of this number: rows past the millionth are not there.
pub fn no_such_row(rows: usize, row: usize) -> bool
    ensures { result ≡ no_such (min rows most_rows) row }
{
    no_such(rows.min(MOST_ROWS), row)
}

// ---- the judgement

// 9 where the number at the place of the id is not the row's.
fn judge_id(file: &[u8], order: Order, place: usize, row: usize) -> Result<(), Refusal>
    ensures { result ≡ answered (id_judged order file.now place row) }
{
    if number::read::<u32>(file, place, order) as usize == row {
        Ok(())
    } else {
        Err(Kind::WrongId.at(row))
    }
}

// 10 for a row too short or not used up, 11 for a bad triplet.
fn judge_end(reach: Result<usize, Unreached>, end: usize, row: usize) -> Result<(), Refusal>
    ensures { result ≡ answered (used_up reach end row fine) }
{
    match reach {
        Ok(place) => {
            if place == end {
                Ok(())
            } else {
                Err(Kind::WrongRow.at(row))
            }
        }
        Err(Unreached::Short) => Err(Kind::WrongRow.at(row)),
        Err(Unreached::BadTriplet(place)) => Err(Kind::BadTriplet.at(place)),
    }
}

// Where a field starts by its offset: within the row in any case.
pub fn place_within(start: usize, end: usize, offset: usize) -> usize
    ensures { result ≡ min (start + offset) end }
{
    start.saturating_add(offset).min(end)
}

// Row i of a table, judged: where it lies.
// Example: of the ring table with 2 rows of 12 from byte 97, row 2 lies from 109 to 121 where its id is 2, and is refused with 9 at 2
// where it is not; row 3 is refused with 13 at 3.
#[tactic(auto, unfolding(crate::specs::Rows::row_of))]
pub fn read_row(file: &[u8], index: &[u8], table: Table, row: usize) -> Result<Span, Refusal>
    ensures { result ≡ row_of file.now index.now table row }
{
    if no_such_row(table.rows, row) {
        return Err(Kind::NoSuch.at(row));
    }
    let lies = rows::lies(index, &table.layout, row);
    let mut places = [0usize; MOST_COLUMNS];
    rows::judge_row(file, &table.layout, lies, row, &mut places)?;
    Ok(lies)
}

// ---- values

// A value of each type that has a null, from its bytes.
fn short_value(bits: u16) -> Value
    ensures { result ≡ short_of bits }
{
    if field::Short::is_null(bits) {
        Value::Short(None)
    } else {
        Value::Short(Some(bits.cast_signed()))
    }
}

fn integer_value(bits: u32) -> Value
    ensures { result ≡ integer_of bits }
{
    if field::Integer::is_null(bits) {
        Value::Integer(None)
    } else {
        Value::Integer(Some(bits.cast_signed()))
    }
}

fn float_value(bits: u32) -> Value
    ensures { result ≡ float_of bits }
{
    if field::Float::is_null(bits) {
        Value::FloatNull(bits)
    } else {
        Value::Float(bits)
    }
}

fn double_value(bits: u64) -> Value
    ensures { result ≡ double_of bits }
{
    if field::Double::is_null(bits) {
        Value::DoubleNull(bits)
    } else {
        Value::Double(bits)
    }
}

// Where the elements of a field lie: a `*` field begins with their count.
fn elements(file: &[u8], column: ColumnLayout, place: usize, end: usize, order: Order) -> Extent
    ensures { result ≡ elements order file.now column place end }
{
    if column.star {
        let n = number::read::<u32>(file, place, order);
        let kind = column.kind;
        return Extent {
            start: place_within(place, end, 4),
            bytes: n as usize * kind.width(),
        };
    }
    Extent {
        start: place,
        bytes: header::fixed_bytes(column) as usize,
    }
}

// The value of the field at a place, by its column's type.
#[tactic(auto, unfolding(crate::specs::Values::shown))]
fn show(
    file: &[u8],
    column: ColumnLayout,
    place: usize,
    end: usize,
    order: Order,
) -> Result<Value, Refusal>
    requires { (place ≤ end) × (end ≤ length file.now) }
    ensures { result ≡ shown order file.now column place end }
{
    let kind = column.kind;
    match kind {
        FieldType::Text | FieldType::Latin => {
            Ok(Value::Text(elements(file, column, place, end, order)))
        }
        FieldType::ShortPair
        | FieldType::ShortTriple
        | FieldType::DoublePair
        | FieldType::DoubleTriple => Ok(Value::Coordinates(elements(
            file, column, place, end, order,
        ))),
        FieldType::Float => Ok(float_value(number::read::<u32>(file, place, order))),
        FieldType::Double => Ok(double_value(number::read::<u64>(file, place, order))),
        FieldType::Short => Ok(short_value(number::read::<u16>(file, place, order))),
        FieldType::Integer => Ok(integer_value(number::read::<u32>(file, place, order))),
        FieldType::Date => Ok(Value::Date(Extent {
            start: place,
            bytes: kind.width(),
        })),
        FieldType::NullField => Ok(Value::Empty),
        FieldType::Triplet => {
            let triplet = triplet::read(&file[place..end], order)?;
            Ok(Value::Triplet(triplet.ids))
        }
    }
}

// The value of a column in row i: 13 for the row, 13 for the column, the row's own refusals, then the value.
#[tactic(auto, unfolding(crate::specs::Values::value_of))]
pub fn read_value(
    file: &[u8],
    index: &[u8],
    table: Table,
    row: usize,
    column: usize,
) -> Result<Value, Refusal>
    ensures { result ≡ value_of file.now index.now table row column }
{
    if no_such_row(table.rows, row) {
        return Err(Kind::NoSuch.at(row));
    }
    let layout = &table.layout;
    if lacks_column(layout, column) {
        return Err(Kind::NoSuch.at(column));
    }
    let lies = rows::lies(index, layout, row);
    let mut places = [0usize; MOST_COLUMNS];
    rows::judge_row(file, layout, lies, row, &mut places)?;
    let c = layout.cols[column - 1];
    let place = rows::place(&places, column, layout.width, c.offset as usize, lies);
    show(file, c, place, lies.end, layout.order)
}

// ---- parts shown

// A part of what is lent, cut where it ends.
fn part<'a>(file: &'a [u8], extent: Extent) -> &'a [u8]
    ensures { result.now ≡ take extent.bytes (drop extent.start file.now) }
{
    let rest = &file[extent.start.min(file.len())..];
    &rest[..extent.bytes.min(rest.len())]
}

// The part that a value shows: no bytes of one that shows none.
fn extent_of(shown: Value) -> Extent
    ensures { result ≡ extent_of shown }
{
    match shown {
        Value::Text(extent) | Value::Date(extent) | Value::Coordinates(extent) => extent,
        _ => Extent { start: 0, bytes: 0 },
    }
}

// "Text and date are shown as parts of the caller's file, not copied." What is refused shows no bytes.
#[tactic(auto, unfolding(crate::specs::Values::part_of))]
pub fn part_of<'a>(file: &'a [u8], shown: Result<Value, Refusal>) -> &'a [u8]
    ensures { result.now ≡ part_of file.now shown }
{
    match shown {
        Ok(value) => part(file, extent_of(value)),
        Err(_) => &file[0..0],
    }
}
