// The rectangle of an edge: the least and greatest x and y of the coordinates in a column of a row.
#![tactic(auto)]

ghost use Rattle.std.specs.Prelude.{◌≡◌};
ghost use Rattle.rectangle.specs.Rectangles.{answer, by_type, is_coordinates, rectangle_of};

use bounds::{Parts, Rectangle};
use field::FieldType;
use number::Order;
use opening::Table;
use refusal::{Kind, Refusal};

// A rectangle, in the width of its coordinates.
#[derive(Clone, Copy)]
pub enum Found {
    Short(Rectangle<f32>),
    Double(Rectangle<f64>),
}

// The bounds of the coordinates in a part of the file, by the column's type; 13 with the column's number for another type.
#[tactic(auto, using(bounds::proofs::OneAnswer::bounds_itself), unfolding(crate::specs::Rectangles::by_type))]
fn in_part(part: &[u8], kind: FieldType, order: Order, column: usize) -> Result<Found, Refusal>
    ensures { answer result ≡ by_type kind order part.now column }
{
    match kind {
        FieldType::ShortPair => bounds::find_bounds(part, Parts::Two, order).map(Found::Short),
        FieldType::ShortTriple => bounds::find_bounds(part, Parts::Three, order).map(Found::Short),
        FieldType::DoublePair => bounds::find_bounds(part, Parts::Two, order).map(Found::Double),
        FieldType::DoubleTriple => bounds::find_bounds(part, Parts::Three, order).map(
            Found::Double,
        ),
        FieldType::Text
        | FieldType::Latin
        | FieldType::Float
        | FieldType::Double
        | FieldType::Short
        | FieldType::Integer
        | FieldType::Date
        | FieldType::NullField
        | FieldType::Triplet => Err(Kind::NoSuch.at(column)),
    }
}

// Whether a type has coordinates.
fn has_coordinates(kind: FieldType) -> bool
    ensures { result ≡ is_coordinates kind }
{
    matches!(
        kind,
        FieldType::ShortPair
            | FieldType::ShortTriple
            | FieldType::DoublePair
            | FieldType::DoubleTriple
    )
}

// The rectangle of the coordinates in a column of a row: 13 for the row, for the column, for another type, the row's own refusals, then
// the bounds.
#[tactic(auto, unfolding(crate::specs::Rectangles::rectangle_of))]
pub fn find_rectangle(
    file: &[u8],
    index: &[u8],
    table: Table,
    row: usize,
    column: usize,
) -> Result<Found, Refusal>
    ensures { answer result ≡ rectangle_of file.now index.now table row column }
{
    if table::no_such_row(table.rows, row) {
        return Err(Kind::NoSuch.at(row));
    }
    let layout = table.layout;
    if table::no_such_column(layout, column) {
        return Err(Kind::NoSuch.at(column));
    }
    let c = layout.cols[column - 1];
    if !has_coordinates(c.kind) {
        return Err(Kind::NoSuch.at(column));
    }
    let value = table::read_value(file, index, table, row, column)?;
    in_part(
        table::part_of(file, Ok(value)),
        c.kind,
        layout.order,
        column,
    )
}
