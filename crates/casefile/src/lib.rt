// A file of test cases: read whole, and taken apart field by field. A field is two bytes of length, the least significant
// first, and so many bytes; a field that runs past the file's end is cut there, so that any bytes are a file of cases. And what the
// programs of cases say alike. What a program writes is no value that a contract can speak of: it is held to the file `stdout` beside it.
#![tactic(auto)]

ghost use Rattle.std.specs.Prelude.{◌≡◌, ◌+◌, ◌≤◌, min, length, MatchOption};
ghost use Rattle.std.specs.Iterator.{at_most};
ghost use Rattle.casefile.specs.Fields.{IsPrefixLen, start_of, end_of, field_at, place_of, IsFieldThen};

use number::Order;
use refusal::Refusal;
use std::io::{Read, Write};
use std::rt::Files;
use std::{fs, io, str};

// Room for the longest file of cases.
pub const FILE_ROOM: usize = 65536;

// The bytes of a field's length.
const LENGTH_BYTES: usize = 2;

// Reads an open file until the buffer is full, the file ends or a read fails, also one that a signal interrupts: how many bytes came.
fn fill(file: &mut impl Read, buf: &mut [u8]) -> usize
    ensures { result ≤ length buf.new }
{
    let mut done = 0;
    while done < buf.len() {
        let n = file.read(&mut buf[done..]).unwrap_or(0);
        if n == 0 {
            break;
        }
        done += n;
    }
    done
}

// Reads a file into the buffer and answers how many bytes there are: 0 where it cannot be read, and no more than fit.
pub fn load(files: &impl Files, path: &[u8], buf: &mut [u8]) -> usize
    ensures { IsPrefixLen result buf.new }
{
    let Ok(name) = str::from_utf8(path) else {
        return 0;
    };
    let Ok(mut file) = fs::open(files, name) else {
        return 0;
    };
    fill(&mut file, buf)
}

// The place so many bytes further on, or the file's end where that comes first.
fn forward(file: &[u8], at: usize, bytes: usize) -> usize
    ensures { result ≡ min (at + bytes) (length file.now) }
{
    at.saturating_add(bytes).min(file.len())
}

// Where the bytes of the field at a place start.
fn start(file: &[u8], at: usize) -> usize
    ensures { result ≡ start_of file.now at }
{
    forward(file, at, LENGTH_BYTES)
}

// The place after the field at a place. Inside the file it is further on, so that a walk from field to field ends.
pub fn after(file: &[u8], at: usize) -> usize
    ensures value { result ≡ end_of file.now at }
    ensures lower_bound { min (at + 1) (length file.now) ≤ result }
{
    let bytes = number::read::<u16>(file, at, Order::Least) as usize;
    forward(file, start(file, at), bytes)
}

// The bytes of the field at a place.
pub fn field(file: &[u8], at: usize) -> &[u8]
    ensures { result.now ≡ field_at file.now at }
{
    let from = start(file, at);
    let to = after(file, at);
    &file[from..to]
}

// The bytes of field k of a case, from 0.
pub fn part(case: &[u8], k: usize) -> &[u8]
    ensures { result.now ≡ field_at case.now (place_of case.now k) }
{
    let mut at = 0;
    for _ in 0..k {
        at = after(case, at);
    }
    field(case, at)
}

// The fields of a file, one after the other.
#[derive(Drop)]
pub struct Fields<'a> {
    rest: &'a [u8],
}

impl<'a> Fields<'a> {
    pub fn new(file: &'a [u8]) -> Fields<'a>
        ensures { result.rest.now ≡ file.now }
    {
        Fields { rest: file }
    }
}

impl<'a> Iterator for Fields<'a> {
    type Item = &'a [u8];

    ghost next_gives = { λ s r t. MatchOption r (length s.rest.now ≡ 0) (λ field. IsFieldThen s.rest.now field.now t.rest.now) };

    ghost remaining = { λ s. at_most (length s.rest.now) };

    fn next(&mut self) -> Option<&'a [u8]> {
        let rest = self.rest;
        if rest.is_empty() {
            return None;
        }
        let end = after(rest, 0);
        self.rest = &rest[end..];
        Some(field(rest, 0))
    }
}

// ---- sayings

pub fn say(out: &mut impl Write, text: &[u8]) -> io::Result<()> {
    out.write_all(text)
}

pub fn say_number(out: &mut impl Write, n: u64) -> io::Result<()> {
    write!(out, "{n}")
}

pub fn say_refusal(out: &mut impl Write, bad: Refusal) -> io::Result<()> {
    write!(out, "refused {} at {}", bad.number, bad.place)
}

// Each byte as two hexadecimal digits.
pub fn say_bytes(out: &mut impl Write, bytes: &[u8]) -> io::Result<()> {
    for byte in bytes {
        write!(out, "{byte:02x}")?;
    }
    Ok(())
}

// The bytes of a file from start to end; nothing where they are not there.
pub fn say_part(out: &mut impl Write, file: &[u8], start: usize, end: usize) -> io::Result<()> {
    match file.get(start..end) {
        Some(part) => say(out, part),
        None => Ok(()),
    }
}
