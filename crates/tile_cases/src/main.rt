// Runs the cases of data/cases over the tile's check and walk, and prints for each: its label, the verdict and the owner marks
// before and after; then a line for each walk that it asks, with the answer and the output afterwards. A case is a field of two
// fields: the label, and numbers of four bytes. The numbers begin with the start and the length of twelve columns among them:
// the ten of the tile, the length of the owner marks to lend, and for each walk its ring row and the length of the output.
#![tactic(auto)]

ghost use Rattle.std.specs.Prelude.{◌≤◌};

use casefile::{FILE_ROOM, Fields, say, say_number, say_refusal};
use number::Order;
use side::Edges;
use std::io;
use std::io::{BufWriter, Write};
use tile::Tile;

// What marks and outputs hold before, and the most of them that a case has lent.
const BEFORE: u32 = 7;

const MOST_LENT: usize = 48;

// The most numbers of a case.
const MOST_NUMBERS: usize = 256;

// The columns of a case: those of the tile in document 01's order, and then these.
const SPACE: usize = 10;

const WALKS: usize = 11;

fn say_next(out: &mut impl Write, n: u32) -> io::Result<()> {
    say(out, b" ")?;
    say_number(out, n as u64)
}

fn say_numbers(out: &mut impl Write, numbers: &[u32]) -> io::Result<()> {
    for &n in numbers {
        say_next(out, n)?;
    }
    Ok(())
}

// The number at a place, or 0 past the end.
fn entry(numbers: &[u32], at: usize) -> usize {
    numbers.get(at).map_or(0, |&n| n as usize)
}

// A column of the case; nothing where it does not lie among the numbers.
fn column(numbers: &[u32], which: usize) -> &[u32]
    requires { which ≤ 11 }
{
    let start = entry(numbers, 2 * which);
    let count = entry(numbers, 2 * which + 1);
    if numbers.len() < start {
        return &numbers[0..0];
    }
    if numbers.len() - start < count {
        return &numbers[0..0];
    }
    let end = start + count;
    &numbers[start..end]
}

// So many as a case asks to be lent.
fn lent(asked: usize) -> usize
    ensures { result ≤ 48 }
{
    asked.min(MOST_LENT)
}

fn tile_of(numbers: &[u32]) -> Tile {
    Tile {
        edges: Edges {
            start_node: column(numbers, 0),
            end_node: column(numbers, 1),
            right_face: column(numbers, 2),
            left_face: column(numbers, 3),
            right_edge: column(numbers, 4),
            left_edge: column(numbers, 5),
        },
        ring_ptr: column(numbers, 6),
        fac_id: column(numbers, 7),
        start_edge: column(numbers, 8),
        first_edge: column(numbers, 9),
    }
}

fn check(out: &mut impl Write, tile: &Tile, marks: &mut [u32]) -> io::Result<()> {
    say(out, b"marks")?;
    say_numbers(out, marks)?;
    say(out, b", ")?;
    match tile::check(tile, marks) {
        Ok(()) => say(out, b"accepted")?,
        Err(bad) => say_refusal(out, bad)?,
    }
    say(out, b", marks")?;
    say_numbers(out, marks)?;
    say(out, b"\n")
}

fn walk(out: &mut impl Write, tile: &Tile, row: usize, steps: &mut [u32]) -> io::Result<()> {
    say(out, b"  ring ")?;
    say_number(out, row as u64)?;
    say(out, b" into")?;
    say_numbers(out, steps)?;
    say(out, b": ")?;
    match tile::walk(tile, row, steps) {
        Ok(n) => {
            say_number(out, n as u64)?;
            say(out, b" steps")?;
        }
        Err(bad) => say_refusal(out, bad)?,
    }
    say(out, b", written")?;
    say_numbers(out, steps)?;
    say(out, b"\n")
}

// One walk, over an output of its own.
fn walk_into(out: &mut impl Write, tile: &Tile, row: usize, room: usize) -> io::Result<()> {
    let mut steps = [BEFORE; MOST_LENT];
    let n = lent(room);
    walk(out, tile, row, &mut steps[0..n])
}

// The walks of a case: a ring row and the length of the output in turn.
fn walk_all(out: &mut impl Write, tile: &Tile, walks: &[u32]) -> io::Result<()> {
    for asked in walks.chunks_exact(2) {
        walk_into(out, tile, entry(asked, 0), entry(asked, 1))?;
    }
    Ok(())
}

// A tile: checked, then walked.
fn run_tile(out: &mut impl Write, numbers: &[u32; 256]) -> io::Result<()> {
    let tile = tile_of(numbers);
    let mut marks = [BEFORE; MOST_LENT];
    let space = lent(entry(column(numbers, SPACE), 0));
    check(out, &tile, &mut marks[0..space])?;
    walk_all(out, &tile, column(numbers, WALKS))
}

// The numbers that the bytes say; 0 past their end.
fn decode(bytes: &[u8], numbers: &mut [u32; 256]) {
    for (i, n) in numbers.iter_mut().enumerate() {
        *n = number::read::<u32>(bytes, 4 * i, Order::Least);
    }
}

fn run_case(out: &mut impl Write, case: &[u8]) -> io::Result<()> {
    let mut numbers = [0u32; MOST_NUMBERS];
    say(out, casefile::part(case, 0))?;
    say(out, b": ")?;
    decode(casefile::part(case, 1), &mut numbers);
    run_tile(out, &numbers)
}

fn run(out: &mut impl Write, file: &[u8]) -> io::Result<()> {
    for case in Fields::new(file) {
        run_case(out, case)?;
    }
    Ok(())
}

fn main(rt: HostRuntime) -> io::Result<()> {
    let mut buf = [0u8; FILE_ROOM];
    let n = casefile::load(&rt, b"cases", &mut buf);
    let mut out = BufWriter::new(rt.alloc(), io::writer(&rt))?;
    run(&mut out, &buf[..n])?;
    out.flush()
}
