// Runs the tiles of data/cases as the program tilecheck would: for each its label and a line end, then the lines. A case is a field of
// eight fields: the label, the paths of the six files edg, edx, fac, rng, cnd, cnx, and their sizes (eight bytes each).
#![tactic(auto)]

ghost use Rattle.std.specs.Prelude.{◌<◌};

use casefile::{FILE_ROOM, Fields};
use directory::{Directory, Sizes};
use limits::MOST_BYTES;
use number::Order;
use std::io;
use std::io::{BufWriter, Write};
use std::rt::Files;
use teller::TEXT_SPACE;

// The size of one of the six files, from 0.
fn size_of(sizes: &[u8], file: usize) -> usize
    requires { file < 6 }
{
    number::read::<u64>(sizes, 8 * file, Order::Least) as usize
}

// The text's first n bytes.
fn say_front(out: &mut impl Write, text: &[u8; TEXT_SPACE], n: usize) -> io::Result<()> {
    casefile::say_part(out, text, 0, n)
}

// What was read of a file.
fn lent(buf: &[u8], size: usize) -> &[u8] {
    buf.get(..size).unwrap_or(buf)
}

// What is told of the six files, which are said to have these sizes.
fn tell(out: &mut impl Write, said: &[u8], lent: &Directory) -> io::Result<()> {
    let sizes = Sizes {
        edg: size_of(said, 0),
        edx: size_of(said, 1),
        fac: size_of(said, 2),
        rng: size_of(said, 3),
        cnd: size_of(said, 4),
        cnx: size_of(said, 5),
    };
    let mut text = [0u8; TEXT_SPACE];
    let n = teller::tell_tile(sizes, lent, &mut text);
    say_front(out, &text, n)
}

fn run_case(files: &impl Files, out: &mut impl Write, case: &[u8]) -> io::Result<()> {
    let mut edg = [0u8; MOST_BYTES];
    let mut edx = [0u8; MOST_BYTES];
    let mut fac = [0u8; MOST_BYTES];
    let mut rng = [0u8; MOST_BYTES];
    let mut cnd = [0u8; MOST_BYTES];
    let mut cnx = [0u8; MOST_BYTES];
    let of_edg = casefile::load(files, casefile::part(case, 1), &mut edg);
    let of_edx = casefile::load(files, casefile::part(case, 2), &mut edx);
    let of_fac = casefile::load(files, casefile::part(case, 3), &mut fac);
    let of_rng = casefile::load(files, casefile::part(case, 4), &mut rng);
    let of_cnd = casefile::load(files, casefile::part(case, 5), &mut cnd);
    let of_cnx = casefile::load(files, casefile::part(case, 6), &mut cnx);
    casefile::say(out, casefile::part(case, 0))?;
    casefile::say(out, b"\n")?;
    let files = Directory {
        edg: lent(&edg, of_edg),
        edx: lent(&edx, of_edx),
        fac: lent(&fac, of_fac),
        rng: lent(&rng, of_rng),
        cnd: lent(&cnd, of_cnd),
        cnx: lent(&cnx, of_cnx),
    };
    tell(out, casefile::part(case, 7), &files)
}

fn run(files: &impl Files, out: &mut impl Write, file: &[u8]) -> io::Result<()> {
    for case in Fields::new(file) {
        run_case(files, out, case)?;
    }
    Ok(())
}

fn main(rt: HostRuntime) -> io::Result<()> {
    let mut buf = [0u8; FILE_ROOM];
    let n = casefile::load(&rt, b"cases", &mut buf);
    let mut out = BufWriter::new(rt.alloc(), io::writer(&rt))?;
    run(&rt, &mut out, &buf[..n])?;
    out.flush()
}
