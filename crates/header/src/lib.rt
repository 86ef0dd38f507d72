// A table's header: judged, laid out for the rows, and stepped through column by column. The text is scanned once and the definitions
// are walked once: what each rule needs of them is kept by that walk.
#![tactic(auto)]

mod judge;
mod layouts;
mod naming;
mod numbers;
mod places;
mod steps;

ghost use Rattle.std.specs.Prelude.{◌≡◌, ◌*◌, ◌<◌, ◌≤◌};
ghost use Rattle.laws.specs.Lowest.{found};
ghost use Rattle.field.specs.Fields.{widest, most_count};
ghost use Rattle.header.specs.Names.{column_among};
ghost use Rattle.header.specs.Layouts.{fixed_bytes, header_of};
ghost use Rattle.header.specs.Steps.{step_of, start_of, column_of};

use field::FieldType;
use limits::MOST_COLUMNS;
use number::Order;
use refusal::Refusal;

// A part of the file.
#[derive(Clone, Copy)]
pub struct Span {
    pub start: usize,
    pub end: usize,
}

// Where the fields of a column definition lie in the file, what type, count and key it has, whether the comma before its colon stands,
// and the place after it.
#[derive(Clone, Copy)]
pub struct Definition {
    pub name: Span,
    pub kind: u8,
    pub star: bool,
    pub count: u32,
    pub key: u8,
    pub comma: bool,
    pub description: Span,
    pub value: Span,
    pub thematic: Span,
    pub narrative: Span,
    pub after: usize,
}

// What a row needs of a column: its type and count (0 for a star), and the fixed bytes of the columns before it: where it starts in a
// row of fixed width. It has eight bytes, so that a layout of all columns, which travels by value, has one kilobyte.
#[derive(Clone, Copy)]
pub struct ColumnLayout {
    pub kind: FieldType,
    pub star: bool,
    pub count: u16,
    pub offset: u32,
}

// What a row needs of the header: the byte order, where row 1 starts, the columns, which of them is `id`, and the width of every
// row, or 0 where the rows have no one width.
#[derive(Clone, Copy)]
pub struct Layout {
    pub order: Order,
    pub start: u32,
    pub columns: usize,
    pub id: usize,
    pub width: u32,
    pub cols: [ColumnLayout; MOST_COLUMNS],
}

// Where a name lies in the file. A head ends by byte 32,771, so that sixteen bits do.
#[derive(Clone, Copy, Debug, PartialEq, Eq)]
pub struct NameSpan {
    pub start: u16,
    pub end: u16,
}

// Where the names of the columns lie in the file, the first column's at 0; from 0 to 0 past the last.
#[derive(Clone, Copy)]
pub struct Names {
    pub spans: [NameSpan; MOST_COLUMNS],
}

// What an accepted header hands on.
#[derive(Clone, Copy)]
pub struct Header {
    pub layout: Layout,
    pub names: Names,
}

// What one pass over no more definitions than the limit keeps of them, where each has a right type, key and count: the names, the keys,
// the layouts and the width of every row, or 0; where the first definition starts, and the place after the last.
// The layouts go on into `Layout` as they are, with eight bytes each, so that keys, which no row needs, have an array of their own.
#[derive(Clone, Copy)]
struct Kept {
    names: Names,
    keys: [u8; MOST_COLUMNS],
    cols: [ColumnLayout; MOST_COLUMNS],
    width: u32,
    first: usize,
    after: usize,
}

// An accepted header: what it hands on, where the first definition starts, and the place after the last.
#[derive(Clone, Copy)]
struct Judged {
    header: Header,
    first: usize,
    after: usize,
}

// Count times width: the bytes of a field of fixed width; of a column that a header gives, 0 of the others, since a star's count is 0 and a
// triplet has no width. A count has sixteen bits, and so they have a bound.
// Example: a column of type Y and count 65,535 has 1,572,840 bytes, and none has more.
pub fn fixed_bytes(column: ColumnLayout) -> u32
    ensures value { result ≡ fixed_bytes column }
    ensures upper_bound { result ≤ most_count * widest }
{
    let kind = column.kind;
    column.count as u32 * kind.width() as u32
}

// The header of a table file: what rows need of it, and where the names lie; or the refusal, one number and one place.
// Example: the ring table of document 01, with columns id, fac_id and start_edge of type I, has L = 93, and its rows of 12 bytes start at
// byte 97. With L = 92 its last `;` is outside the text: refused with 3 at 96.
pub fn read_header(file: &[u8]) -> Result<Header, Refusal>
    ensures { result ≡ header_of file.now }
{
    match judge::judge_file(file) {
        Ok(accepted) => Ok(accepted.header),
        Err(refusal) => Err(refusal),
    }
}

// One step of a reader that stands at the place: a column, the end after the last, or a refusal.
pub fn column_step(file: &[u8], place: usize) -> Result<Option<Definition>, Refusal>
    ensures { result ≡ step_of file.now place }
{
    let judged = judge::judge_file(file)?;
    let layout = judged.header.layout;
    let names = judged.header.names;
    steps::step_in(
        &file[0..layout.start as usize],
        &names,
        judged.after,
        layout.columns,
        place,
    )
}

// Where a new reader stands: at the first definition, at 0 where the header is refused.
pub fn first_place(file: &[u8]) -> usize
    ensures { result ≡ start_of file.now }
{
    match judge::judge_file(file) {
        Ok(judged) => judged.first,
        Err(_) => 0,
    }
}

// The column of a name in either case, if there is one and the header is accepted.
pub fn find_column(file: &[u8], name: &[u8]) -> Option<usize>
    ensures { result ≡ found (column_of file.now name.now) }
{
    match judge::judge_file(file) {
        Ok(judged) => column_among(
            file,
            judged.header.names,
            judged.header.layout.columns,
            name,
        ),
        Err(_) => None,
    }
}

// The column of a name in either case among the names of so many columns, up to the limit, that lie in the file, if there is one.
// Over what `read_header` gives of a file it is what `find_column` gives, and judges nothing anew.
pub fn column_among(file: &[u8], names: Names, columns: usize, name: &[u8]) -> Option<usize>
    ensures { result ≡ found (column_among file.now names columns name.now) }
{
    names.column(file, limits::columns_within(columns), name)
}
