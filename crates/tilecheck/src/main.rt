// Reads the tile of the directory that it is run in, and writes what document 01 says of it.
#![tactic(auto)]

ghost use Rattle.std.specs.Prelude.{◌≤◌, ◌+◌, ◌-◌, length};
ghost use Rattle.tilecheck.specs.Reading.{Within, WithinIf};

use directory::{Directory, Sizes};
use limits::MOST_BYTES;
use report::FileName;
use std::io::{ErrorKind, Read, Write};
use std::rt::Files;
use std::{fs, io, str};
use teller::TEXT_SPACE;

// How many interrupted reads of a file are tried again.
const MOST_TRIES: usize = 100;

// Why a read gave nothing: a signal came before the first byte, or it failed.
#[derive(Clone, Copy)]
enum Unread {
    Interrupted,
    Failed,
}

// One read of a file, to the bytes of the buffer from a place on: how many, none at the file's end.
fn read_part(file: &mut impl Read, buf: &mut [u8], at: usize) -> Result<usize, Unread>
    requires { at ≤ length buf.old }
    ensures { Within result (length buf.old - at) }
{
    match file.read(&mut buf[at..]) {
        Ok(n) => Ok(n),
        Err(e) if e.kind() == ErrorKind::Interrupted => Err(Unread::Interrupted),
        Err(_) => Err(Unread::Failed),
    }
}

// Reads an open file to its end, or until the buffer is full: how many bytes, or nothing where it cannot be read, whatever came before a
// read that fails.
fn read_whole(file: &mut impl Read, buf: &mut [u8]) -> Option<usize>
    ensures { WithinIf result (length buf.old) }
{
    let mut at = 0;
    let mut tries = MOST_TRIES;
    while at < buf.len() {
        match read_part(file, buf, at) {
            Ok(0) => return Some(at),
            Ok(n) => at += n,
            Err(Unread::Interrupted) => {
                if tries == 0 {
                    return None;
                }
                tries -= 1;
            }
            Err(Unread::Failed) => return None,
        }
    }
    Some(at)
}

// Reads an open file into the buffer: how many bytes it has, or one more than the buffer holds where it has more. One that cannot be read
// has none.
fn read_open(file: &mut impl Read, buf: &mut [u8]) -> usize
    ensures { result ≤ length buf.old + 1 }
{
    let Some(n) = read_whole(file, buf) else {
        return 0;
    };
    if n < buf.len() {
        return n;
    }
    let mut beyond = [0u8; 1];
    let Some(more) = read_whole(file, &mut beyond) else {
        return 0;
    };
    n + more
}

// "A file that cannot be read counts as empty."
fn read_file(files: &impl Files, file: FileName, buf: &mut [u8; MOST_BYTES]) -> usize
    ensures { result ≤ length buf.old + 1 }
{
    let name = report::name_of(file);
    let Ok(path) = str::from_utf8(&name) else {
        return 0;
    };
    let Ok(mut opened) = fs::open(files, path) else {
        return 0;
    };
    read_open(&mut opened, buf)
}

// What was read of a file of this size: as many bytes as the buffer holds of it.
fn lent(buf: &[u8], size: usize) -> &[u8] {
    buf.get(..size).unwrap_or(buf)
}

// "cnx if K occurs": it is read only beside a cnd that shows K.
fn read_node_index(files: &impl Files, cnd: &[u8], buf: &mut [u8; MOST_BYTES]) -> usize
    ensures { result ≤ length buf.old + 1 }
{
    if directory::files::shows_triplet(cnd) {
        return read_file(files, FileName::Cnx, buf);
    }
    0
}

// Writes the text of the six files, each with its size.
fn write_text(out: &mut impl Write, sizes: Sizes, lent: &Directory) -> io::Result<()> {
    let mut text = [0u8; TEXT_SPACE];
    let n = teller::tell_tile(sizes, lent, &mut text);
    out.write_all(&text[0..n])
}

fn main(rt: HostRuntime) -> io::Result<()> {
    let mut edg = [0u8; MOST_BYTES];
    let mut edx = [0u8; MOST_BYTES];
    let mut fac = [0u8; MOST_BYTES];
    let mut rng = [0u8; MOST_BYTES];
    let mut cnd = [0u8; MOST_BYTES];
    let mut cnx = [0u8; MOST_BYTES];
    let of_edg = read_file(&rt, FileName::Edg, &mut edg);
    let of_edx = read_file(&rt, FileName::Edx, &mut edx);
    let of_fac = read_file(&rt, FileName::Fac, &mut fac);
    let of_rng = read_file(&rt, FileName::Rng, &mut rng);
    let of_cnd = read_file(&rt, FileName::Cnd, &mut cnd);
    let nodes = lent(&cnd, of_cnd);
    let of_cnx = read_node_index(&rt, nodes, &mut cnx);
    let sizes = Sizes {
        edg: of_edg,
        edx: of_edx,
        fac: of_fac,
        rng: of_rng,
        cnd: of_cnd,
        cnx: of_cnx,
    };
    let files = Directory {
        edg: lent(&edg, of_edg),
        edx: lent(&edx, of_edx),
        fac: lent(&fac, of_fac),
        rng: lent(&rng, of_rng),
        cnd: nodes,
        cnx: lent(&cnx, of_cnx),
    };
    write_text(&mut io::writer(&rt), sizes, &files)
}
