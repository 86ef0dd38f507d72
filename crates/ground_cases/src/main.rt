// Runs the cases of data/cases over wave heights, triplet ids, numbers and field types, and prints a line for each: the case's
// label and the whole answer. A case is a field of three fields: the label, whose first letter says what is asked, and two of
// which it is asked.
#![tactic(auto)]

ghost use Rattle.std.specs.Prelude.{◌≤◌};

use casefile::{FILE_ROOM, Fields, say, say_bytes, say_refusal};
use field::{Double, FieldType, Float, Integer, Known, NullValue, Short};
use number::{Order, Unsigned};
use std::io;
use std::io::{BufWriter, Write};
use triplet::{Ids, Triplet};
use wave::Judgement;

// What a row holds before a writer is asked, and the most bytes that a case lends of it.
const ROW_BEFORE: u8 = 0xee;

const MOST_ROW: usize = 24;

fn say_yes(out: &mut impl Write, answer: bool) -> io::Result<()> {
    if answer {
        say(out, b"yes")
    } else {
        say(out, b"no")
    }
}

fn say_also(out: &mut impl Write, answer: bool) -> io::Result<()> {
    say(out, b" ")?;
    say_yes(out, answer)
}

fn height(out: &mut impl Write, text: &[u8]) -> io::Result<()> {
    match wave::thousandths(text) {
        Ok(height) => write!(out, "{height}"),
        Err(bad) => say_refusal(out, bad),
    }
}

fn judgement(out: &mut impl Write, measured: &[u8], limit: &[u8]) -> io::Result<()> {
    match wave::passes(measured, limit) {
        Ok(Judgement::Passes) => say(out, b"passes"),
        Ok(Judgement::TooHigh) => say(out, b"too high"),
        Err(bad) => say_refusal(out, bad),
    }
}

// The byte order that a question names in its first byte.
fn order_asked(ask: &[u8]) -> Order {
    number::order_of(number::read::<u8>(ask, 0, Order::Least)).unwrap_or(Order::Least)
}

fn triplet_read(out: &mut impl Write, bytes: &[u8], order: Order) -> io::Result<()> {
    match triplet::read(bytes, order) {
        Ok(Triplet { ids, bytes }) => {
            write!(out, "{} {} {} in {bytes}", ids.id, ids.tile, ids.other)
        }
        Err(bad) => say_refusal(out, bad),
    }
}

// The question: order letter, place (8 bytes), id, tile and external id (4 bytes each).
fn triplet_written(
    out: &mut impl Write,
    row: &mut [u8],
    ask: &[u8],
    order: Order,
) -> io::Result<()> {
    let at = number::read::<u64>(ask, 1, Order::Least) as usize;
    let ids = Ids {
        id: number::read::<u32>(ask, 9, Order::Least),
        tile: number::read::<u32>(ask, 13, Order::Least),
        other: number::read::<u32>(ask, 17, Order::Least),
    };
    match triplet::write(row, at, ids, order) {
        Ok(bytes) => write!(out, "{bytes}")?,
        Err(bad) => say_refusal(out, bad)?,
    }
    say(out, b" row ")?;
    say_bytes(out, row)
}

// The question: order letter, width, place (8 bytes).
fn number_read(out: &mut impl Write, bytes: &[u8], ask: &[u8], order: Order) -> io::Result<()> {
    let at = number::read::<u64>(ask, 2, Order::Least) as usize;
    match number::read::<u8>(ask, 1, Order::Least) {
        1 => write!(out, "{}", number::read::<u8>(bytes, at, order)),
        2 => write!(out, "{}", number::read::<u16>(bytes, at, order)),
        4 => write!(out, "{}", number::read::<u32>(bytes, at, order)),
        _ => write!(out, "{}", number::read::<u64>(bytes, at, order)),
    }
}

// Writes the number of a question into the row.
fn put<T: Unsigned>(row: &mut [u8], at: usize, ask: &[u8], order: Order) {
    number::write(row, at, number::read::<T>(ask, 10, Order::Least), order);
}

// The question: order letter, width, place (8 bytes), the number (8 bytes, the least significant first).
fn number_written(
    out: &mut impl Write,
    row: &mut [u8],
    ask: &[u8],
    order: Order,
) -> io::Result<()> {
    let at = number::read::<u64>(ask, 2, Order::Least) as usize;
    match number::read::<u8>(ask, 1, Order::Least) {
        1 => put::<u8>(row, at, ask, order),
        2 => put::<u16>(row, at, ask, order),
        4 => put::<u32>(row, at, ask, order),
        _ => put::<u64>(row, at, ask, order),
    }
    say(out, b"row ")?;
    say_bytes(out, row)
}

fn say_null(out: &mut impl Write, null: NullValue) -> io::Result<()> {
    match null {
        NullValue::Nothing => say(out, b" null none"),
        NullValue::Number(number) => write!(out, " null {number}"),
        NullValue::NotANumber => say(out, b" null NaN"),
    }
}

// Width, star, null, and whether the counts `*`, 0, 1, 2, 65,535, 65,536 and the largest number are right.
fn say_type(out: &mut impl Write, t: FieldType) -> io::Result<()> {
    write!(out, "{}", t.width())?;
    say_also(out, t.star())?;
    say_null(out, t.null())?;
    say(out, b" counts")?;
    say_also(out, t.count_right(true, 0))?;
    for count in [0, 1, 2, 65535, 65536, u32::MAX] {
        say_also(out, t.count_right(false, count))?;
    }
    say(out, b" I")?;
    say_also(out, t.is_integer())?;
    say(out, b" K")?;
    say_also(out, t.is_triplet())
}

fn letter(out: &mut impl Write, b: u8) -> io::Result<()> {
    match FieldType::of(b) {
        Some(t) => say_type(out, t),
        None => say(out, b"unlisted"),
    }
}

// Whether the bytes of a value, the least significant first, are the null of the type with this letter.
fn null_value(out: &mut impl Write, bytes: &[u8], kind: u8) -> io::Result<()> {
    let answer = match kind {
        Short::LETTER => Short::is_null(number::read::<u16>(bytes, 0, Order::Least)),
        Integer::LETTER => Integer::is_null(number::read::<u32>(bytes, 0, Order::Least)),
        Float::LETTER => Float::is_null(number::read::<u32>(bytes, 0, Order::Least)),
        _ => Double::is_null(number::read::<u64>(bytes, 0, Order::Least)),
    };
    say_yes(out, answer)
}

// So many bytes of the row as the case lends of it.
fn lent(bytes: &[u8]) -> usize
    ensures { result ≤ 24 }
{
    MOST_ROW.min(number::read::<u8>(bytes, 0, Order::Least) as usize)
}

fn answer(out: &mut impl Write, kind: u8, a: &[u8], b: &[u8]) -> io::Result<()> {
    let mut row = [ROW_BEFORE; MOST_ROW];
    let n = lent(a);
    let order = order_asked(b);
    match kind {
        b'h' => height(out, a),
        b'p' => judgement(out, a, b),
        b'r' => triplet_read(out, a, order),
        b'w' => triplet_written(out, &mut row[0..n], b, order),
        b'n' => number_read(out, a, b, order),
        b'm' => number_written(out, &mut row[0..n], b, order),
        b'l' => letter(out, number::read::<u8>(a, 0, Order::Least)),
        b'v' => null_value(out, a, number::read::<u8>(b, 0, Order::Least)),
        _ => say(out, b"no such question"),
    }
}

fn run_case(out: &mut impl Write, case: &[u8]) -> io::Result<()> {
    let label = casefile::part(case, 0);
    say(out, label)?;
    say(out, b": ")?;
    let kind = number::read::<u8>(label, 0, Order::Least);
    answer(out, kind, casefile::part(case, 1), casefile::part(case, 2))?;
    say(out, b"\n")
}

fn run(out: &mut impl Write, file: &[u8]) -> io::Result<()> {
    for case in Fields::new(file) {
        run_case(out, case)?;
    }
    Ok(())
}

fn main(rt: HostRuntime) -> io::Result<()> {
    let mut buf = [0u8; FILE_ROOM];
    let n = casefile::load(&rt, b"cases", &mut buf);
    let mut out = BufWriter::new(rt.alloc(), io::writer(&rt))?;
    run(&mut out, &buf[..n])?;
    out.flush()
}
