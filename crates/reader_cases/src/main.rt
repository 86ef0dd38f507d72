// Runs the cases of data/cases over the header reader: for each its label and where a new reader stands; what one reader gives that
// is held over two steps; what each of so many further steps gives, and where the reader stands after it; then the same of two steps
// from a place that the case names. A case is a field of four fields: the label, the table file, the number of further steps
// (2 bytes) and the place (8 bytes).
#![tactic(auto)]

ghost use Rattle.std.specs.Prelude.{◌≡◌};
ghost use Rattle.reader_cases.specs.Trails.{trail_of};

use casefile::{FILE_ROOM, Fields, say, say_part};
use header::Definition;
use number::Order;
use refusal::Refusal;
use std::io;
use std::io::{BufWriter, Write};

// What a step gives: the column, the end, or the refusal.
type Step = Result<Option<Definition>, Refusal>;

// What two steps of one reader gave, and where it stands after them.
#[derive(Clone, Copy)]
struct Trail {
    first: Step,
    second: Step,
    at: usize,
}

// A new reader, held over two steps.
fn two_steps(file: &[u8]) -> Trail
    ensures { result ≡ trail_of file.now }
{
    let mut r = reader::open(file);
    let first = r.step();
    let second = r.step();
    Trail {
        first,
        second,
        at: r.at,
    }
}

// The name of the column that a step gave, the end, or the refusal.
fn say_given(out: &mut impl Write, file: &[u8], step: Step) -> io::Result<()> {
    match step {
        Ok(Some(d)) => say_part(out, file, d.name.start, d.name.end),
        Ok(None) => say(out, b"done"),
        Err(bad) => write!(out, "refused {bad}"),
    }
}

// Says a step of a reader at a place, and answers where the reader stands after it.
fn say_step(out: &mut impl Write, file: &[u8], place: usize) -> io::Result<usize> {
    let moved = reader::step_from(file, place);
    write!(out, "  at {place} ")?;
    say_given(out, file, moved.step)?;
    writeln!(out, ", then at {}", moved.at)?;
    Ok(moved.at)
}

// Says two steps of one reader, and answers where it stands after them.
fn say_held(out: &mut impl Write, file: &[u8]) -> io::Result<usize> {
    let trail = two_steps(file);
    say(out, b"  held: ")?;
    say_given(out, file, trail.first)?;
    say(out, b", ")?;
    say_given(out, file, trail.second)?;
    writeln!(out, ", then at {}", trail.at)?;
    Ok(trail.at)
}

// So many steps from a place.
fn say_steps(out: &mut impl Write, file: &[u8], first: usize, count: usize) -> io::Result<()> {
    let mut place = first;
    for _ in 0..count {
        place = say_step(out, file, place)?;
    }
    Ok(())
}

fn run_case(out: &mut impl Write, case: &[u8]) -> io::Result<()> {
    let file = casefile::part(case, 1);
    let count = number::read::<u16>(casefile::part(case, 2), 0, Order::Least) as usize;
    let place = number::read::<u64>(casefile::part(case, 3), 0, Order::Least) as usize;
    say(out, casefile::part(case, 0))?;
    writeln!(out, ": a new reader at {}", header::first_place(file))?;
    let held = say_held(out, file)?;
    say_steps(out, file, held, count)?;
    say_steps(out, file, place, 2)
}

fn main(rt: HostRuntime) -> io::Result<()> {
    let mut buf = [0u8; FILE_ROOM];
    let n = casefile::load(&rt, b"cases", &mut buf);
    let mut out = BufWriter::new(rt.alloc(), io::writer(&rt))?;
    for case in Fields::new(&buf[..n]) {
        run_case(&mut out, case)?;
    }
    out.flush()
}
