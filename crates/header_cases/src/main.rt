// Runs the cases of data/cases, data/long and data/longer over the header: for each its label and the answer; for an accepted one
// what rows need of it, and each step through its columns; then a step at the place where these ended, another at a place that
// the case names, and where a column name that it gives is found. A case is a field of four fields: the label, the table file,
// the place (8 bytes) and the name. Of data/names and data/more_names, whose cases have the label and the table file, it says the
// answer alone.
#![tactic(auto)]

use casefile::{FILE_ROOM, Fields, say, say_part};
use header::{ColumnLayout, Definition, Layout, Span};
use number::Order;
use std::io;
use std::io::{BufWriter, Write};
use std::rt::Files;

// A part of the file.
fn say_span(out: &mut impl Write, file: &[u8], part: Span) -> io::Result<()> {
    say_part(out, file, part.start, part.end)
}

fn say_count(out: &mut impl Write, star: bool, count: u32) -> io::Result<()> {
    if star {
        say(out, b"*")
    } else {
        write!(out, "{count}")
    }
}

// A definition as the text has it, and the place after it.
fn say_definition(out: &mut impl Write, file: &[u8], d: Definition) -> io::Result<()> {
    say_span(out, file, d.name)?;
    say(out, b"=")?;
    say(out, &[d.kind])?;
    say(out, b",")?;
    say_count(out, d.star, d.count)?;
    say(out, b",")?;
    say(out, &[d.key])?;
    for part in [d.description, d.value, d.thematic, d.narrative] {
        say(out, b",")?;
        say_span(out, file, part)?;
    }
    if d.comma {
        say(out, b",")?;
    }
    writeln!(out, ": after {}", d.after)
}

// Says a step at a place, and answers the place after it.
fn say_step(out: &mut impl Write, file: &[u8], place: usize) -> io::Result<usize> {
    write!(out, "  at {place} ")?;
    match header::column_step(file, place) {
        Ok(Some(d)) => {
            say_definition(out, file, d)?;
            Ok(d.after)
        }
        Ok(None) => {
            writeln!(out, "done")?;
            Ok(place)
        }
        Err(bad) => {
            writeln!(out, "refused {bad}")?;
            Ok(place)
        }
    }
}

// What a row needs of a column.
fn say_column(out: &mut impl Write, c: ColumnLayout) -> io::Result<()> {
    let kind = c.kind;
    say(out, b"  ")?;
    say(out, &[kind.letter()])?;
    say(out, b",")?;
    say_count(out, c.star, c.count as u32)?;
    writeln!(out, " bytes {} after {}", header::fixed_bytes(c), c.offset)
}

fn letter_of(order: Order) -> char {
    match order {
        Order::Least => 'L',
        Order::Most => 'M',
    }
}

// What rows need of a header, and the layouts of the columns that it has.
fn say_layout(out: &mut impl Write, layout: Layout) -> io::Result<()> {
    writeln!(
        out,
        "order {}, rows from {}, columns {}, id {}, width {}",
        letter_of(layout.order),
        layout.start,
        layout.columns,
        layout.id,
        layout.width
    )?;
    for c in layout.cols.iter().take(layout.columns) {
        say_column(out, *c)?;
    }
    Ok(())
}

// The answer, each step through the columns of an accepted header, and the step at the place where these end.
fn say_header(out: &mut impl Write, file: &[u8]) -> io::Result<()> {
    let mut place = header::first_place(file);
    match header::read_header(file) {
        Ok(h) => {
            say(out, b"accepted, ")?;
            say_layout(out, h.layout)?;
            for _ in 0..h.layout.columns {
                place = say_step(out, file, place)?;
            }
        }
        Err(bad) => writeln!(
            out,
            "refused {bad}, order L, rows from 0, columns 0, id 0, width 0"
        )?,
    }
    say_step(out, file, place)?;
    Ok(())
}

// The answer alone, and of an accepted header how many columns it has.
fn say_answer(out: &mut impl Write, file: &[u8]) -> io::Result<()> {
    match header::read_header(file) {
        Ok(h) => writeln!(out, "accepted, columns {}", h.layout.columns),
        Err(bad) => writeln!(out, "refused {bad}"),
    }
}

fn run_case(out: &mut impl Write, case: &[u8], brief: bool) -> io::Result<()> {
    let file = casefile::part(case, 1);
    let place = number::read::<u64>(casefile::part(case, 2), 0, Order::Least) as usize;
    let name = casefile::part(case, 3);
    say(out, casefile::part(case, 0))?;
    say(out, b": ")?;
    if brief {
        return say_answer(out, file);
    }
    say_header(out, file)?;
    say_step(out, file, place)?;
    say(out, b"  `")?;
    say(out, name)?;
    let column = header::find_column(file, name).unwrap_or(0);
    writeln!(out, "` is column {column}")
}

fn run_file(files: &impl Files, out: &mut impl Write, path: &[u8], brief: bool) -> io::Result<()> {
    let mut buf = [0u8; FILE_ROOM];
    let n = casefile::load(files, path, &mut buf);
    for case in Fields::new(&buf[..n]) {
        run_case(out, case, brief)?;
    }
    Ok(())
}

fn main(rt: HostRuntime) -> io::Result<()> {
    let mut out = BufWriter::new(rt.alloc(), io::writer(&rt))?;
    run_file(&rt, &mut out, b"cases", false)?;
    run_file(&rt, &mut out, b"long", false)?;
    run_file(&rt, &mut out, b"longer", false)?;
    run_file(&rt, &mut out, b"names", true)?;
    run_file(&rt, &mut out, b"more_names", true)?;
    out.flush()
}
