// Runs the cases of data/cases and data/long over tables, their rows, their values and the rectangles of their coordinates: for
// each its label and the answer of the opening; for an opened table each row and, in each row, each column with its value and its
// rectangle. Column 0 and the column after the last are asked for too, and row 0 and the row after the last at column 1. A case is
// a field of four fields: the label, the table file, its lent index, and the most rows that the caller takes (8 bytes; empty for
// the library's own limit).
#![tactic(auto)]

use bounds::Rectangle;
use casefile::{FILE_ROOM, Fields, say, say_bytes};
use limits::MOST_COLUMNS;
use number::Order;
use opening::{Opened, Table};
use rectangle::Found;
use refusal::Refusal;
use std::io;
use std::io::{BufWriter, Write};
use std::rt::Files;
use table::Value;

// No case opens a table of more rows.
const MOST_SHOWN: usize = 100;

// A bound of a rectangle by its pattern: only what is equal to itself has one to show.
fn say_bound32(out: &mut impl Write, x: f32) -> io::Result<()> {
    if x == x {
        write!(out, " {:08x}", f32::to_bits(x))
    } else {
        say(out, b" NaN")
    }
}

fn say_bound64(out: &mut impl Write, x: f64) -> io::Result<()> {
    if x == x {
        write!(out, " {:016x}", f64::to_bits(x))
    } else {
        say(out, b" NaN")
    }
}

fn say_short_rectangle(out: &mut impl Write, r: Rectangle<f32>) -> io::Result<()> {
    say(out, b"f32")?;
    for bound in [r.least_x, r.least_y, r.greatest_x, r.greatest_y] {
        say_bound32(out, bound)?;
    }
    Ok(())
}

fn say_double_rectangle(out: &mut impl Write, r: Rectangle<f64>) -> io::Result<()> {
    say(out, b"f64")?;
    for bound in [r.least_x, r.least_y, r.greatest_x, r.greatest_y] {
        say_bound64(out, bound)?;
    }
    Ok(())
}

fn say_rectangle(out: &mut impl Write, found: Result<Found, Refusal>) -> io::Result<()> {
    match found {
        Ok(Found::Short(r)) => say_short_rectangle(out, r),
        Ok(Found::Double(r)) => say_double_rectangle(out, r),
        Err(bad) => write!(out, "refused {bad}"),
    }
}

// Text as it stands in the file, and where.
fn say_text(out: &mut impl Write, part: &[u8], place: usize) -> io::Result<()> {
    say(out, b" `")?;
    say(out, part)?;
    write!(out, "` at {place}")
}

fn say_value(out: &mut impl Write, file: &[u8], v: Value) -> io::Result<()> {
    match v {
        Value::Short(Some(n)) => write!(out, "short {n}"),
        Value::Short(None) => say(out, b"short null"),
        Value::Integer(Some(n)) => write!(out, "integer {n}"),
        Value::Integer(None) => say(out, b"integer null"),
        Value::Float(bits) => write!(out, "float {bits:08x}"),
        Value::FloatNull(bits) => write!(out, "float null {bits:08x}"),
        Value::Double(bits) => write!(out, "double {bits:016x}"),
        Value::DoubleNull(bits) => write!(out, "double null {bits:016x}"),
        Value::Triplet(ids) => write!(out, "triplet {} {} {}", ids.id, ids.tile, ids.other),
        Value::Text(extent) => {
            say(out, b"text")?;
            say_text(out, table::part_of(file, Ok(v)), extent.start)
        }
        Value::Date(extent) => {
            say(out, b"date")?;
            say_text(out, table::part_of(file, Ok(v)), extent.start)
        }
        Value::Coordinates(extent) => {
            say(out, b"coordinates ")?;
            say_bytes(out, table::part_of(file, Ok(v)))?;
            write!(out, " at {}", extent.start)
        }
        Value::Empty => say(out, b"empty"),
    }
}

fn say_column(
    out: &mut impl Write,
    file: &[u8],
    index: &[u8],
    table: Table,
    row: usize,
    column: usize,
) -> io::Result<()> {
    write!(out, "    {column} ")?;
    match table::read_value(file, index, table, row, column) {
        Ok(v) => say_value(out, file, v)?,
        Err(bad) => write!(out, "refused {bad}")?,
    }
    say(out, b" | ")?;
    say_rectangle(
        out,
        rectangle::find_rectangle(file, index, table, row, column),
    )?;
    say(out, b"\n")
}

// Every column of a row, column 0 and the one after the last.
fn say_columns(
    out: &mut impl Write,
    file: &[u8],
    index: &[u8],
    table: Table,
    row: usize,
) -> io::Result<()> {
    let layout = table.layout;
    let last = layout.columns.min(MOST_COLUMNS) + 1;
    for column in 0..=last {
        say_column(out, file, index, table, row, column)?;
    }
    Ok(())
}

fn say_row(
    out: &mut impl Write,
    file: &[u8],
    index: &[u8],
    table: Table,
    row: usize,
) -> io::Result<()> {
    match table::read_row(file, index, table, row) {
        Ok(lies) => writeln!(out, "  row {row} from {} to {}", lies.start, lies.end),
        Err(bad) => writeln!(out, "  row {row} refused {bad}"),
    }
}

// A row that no table of so many has, and its first column.
fn say_absent(
    out: &mut impl Write,
    file: &[u8],
    index: &[u8],
    table: Table,
    row: usize,
) -> io::Result<()> {
    say_row(out, file, index, table, row)?;
    say_column(out, file, index, table, row, 1)
}

// Every row of a table, row 0 and the one after the last.
fn say_rows(out: &mut impl Write, file: &[u8], index: &[u8], table: Table) -> io::Result<()> {
    let last = table.rows.min(MOST_SHOWN);
    say_absent(out, file, index, table, 0)?;
    for row in 1..=last {
        say_row(out, file, index, table, row)?;
        say_columns(out, file, index, table, row)?;
    }
    say_absent(out, file, index, table, last + 1)
}

// The table opened for a caller that takes so many rows, or as many as the library does.
fn open_asked(file: &[u8], index: &[u8], most: &[u8]) -> Result<Opened, Refusal> {
    if most.is_empty() {
        return opening::open_table(file, index);
    }
    opening::open_within(
        file,
        index,
        number::read::<u64>(most, 0, Order::Least) as usize,
    )
}

fn say_table(out: &mut impl Write, file: &[u8], index: &[u8], most: &[u8]) -> io::Result<()> {
    match open_asked(file, index, most) {
        Ok(opened) => {
            let table = opened.table;
            writeln!(out, "opened, rows {}", table.rows)?;
            say_rows(out, file, index, table)
        }
        Err(bad) => writeln!(out, "refused {bad}"),
    }
}

fn run_case(out: &mut impl Write, case: &[u8]) -> io::Result<()> {
    say(out, casefile::part(case, 0))?;
    say(out, b": ")?;
    say_table(
        out,
        casefile::part(case, 1),
        casefile::part(case, 2),
        casefile::part(case, 3),
    )
}

fn run_file(files: &impl Files, out: &mut impl Write, path: &[u8]) -> io::Result<()> {
    let mut buf = [0u8; FILE_ROOM];
    let n = casefile::load(files, path, &mut buf);
    for case in Fields::new(&buf[..n]) {
        run_case(out, case)?;
    }
    Ok(())
}

fn main(rt: HostRuntime) -> io::Result<()> {
    let mut out = BufWriter::new(rt.alloc(), io::writer(&rt))?;
    run_file(&rt, &mut out, b"cases")?;
    run_file(&rt, &mut out, b"long")?;
    out.flush()
}
