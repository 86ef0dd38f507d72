// What the program writes: the bytes of each line.
#![tactic(auto)]

ghost use Rattle.std.specs.Prelude.{◌≡◌, [], ◌∷◌, ◌++◌, ◌+◌, ◌≤◌, ◌<◌, length};
ghost use Rattle.std.proofs.lemmas.List.Edits.{sets};
ghost use Rattle.report.specs.Text.{digit, most_digits, decimal};
ghost use Rattle.report.specs.Lines.{file_text, refuse_line, accept_line, ring_line, steps_line, bytes_told, told};

use load::Counts;
use refusal::Refusal;

// Room for every line, whatever its numbers: the longest has 115 bytes. A buffer that has less is left as it is, and no line is told.
pub const LINE_ROOM: usize = 128;

#[derive(Clone, Copy, Debug, PartialEq, Eq)]
pub enum FileName {
    Edg,
    Edx,
    Fac,
    Rng,
    Cnd,
    Cnx,
}

// "every line ends with one LF"
const LINE_END: u8 = b'\n';

// One byte written at a place; the place after it.
fn put_byte(out: &mut [u8], at: usize, byte: u8) -> usize
    requires { at < length out.old }
    ensures value { result ≡ at + 1 }
    ensures out_after { out.new ≡ sets out.old at (byte ∷ []) }
{
    out[at] = byte;
    at + 1
}

// A text written at a place; the place after it.
fn put_text(out: &mut [u8], at: usize, text: &[u8]) -> usize
    requires { at + length text.now ≤ length out.old }
    ensures value { result ≡ at + length text.now }
    ensures out_after { out.new ≡ sets out.old at text.now }
{
    let mut i = 0;
    while i < text.len() {
        out[at + i] = text[i];
        i += 1;
    }
    at + i
}

// The digit of a number below ten.
fn digit_of(n: usize) -> u8
    requires { n < 10 }
    ensures { result ≡ digit n }
{
    b'0' + n as u8
}

// A number written in decimal at a place: what stands before its last digit, then that digit; the place after it.
// By hand, since there is no heap: `write!` to a lent slice would need a writer of its own, longer than this.
fn put_number(out: &mut [u8], at: usize, n: usize) -> usize
    requires { at + most_digits ≤ length out.old }
    ensures value { (result ≡ at + length (decimal n)) × (result ≤ at + most_digits) }
    ensures out_after { out.new ≡ sets out.old at (decimal n) }
{
    if n < 10 {
        return put_byte(out, at, digit_of(n));
    }
    let next = put_number(out, at, n / 10);
    put_byte(out, next, digit_of(n % 10))
}

// A text and a number behind it, written at a place; the place after them.
fn put_named(out: &mut [u8], at: usize, text: &[u8], n: usize) -> usize
    requires { at + (length text.now + most_digits) ≤ length out.old }
    ensures value { (result ≡ at + length (text.now ++ decimal n)) × (result ≤ at + (length text.now + most_digits)) }
    ensures out_after { out.new ≡ sets out.old at (text.now ++ decimal n) }
{
    let next = put_text(out, at, text);
    put_number(out, next, n)
}

// The name of a file.
pub fn name_of(file: FileName) -> [u8; 3]
    ensures { result ≡ file_text file }
{
    match file {
        FileName::Edg => *b"edg",
        FileName::Edx => *b"edx",
        FileName::Fac => *b"fac",
        FileName::Rng => *b"rng",
        FileName::Cnd => *b"cnd",
        FileName::Cnx => *b"cnx",
    }
}

// "A refused tile writes `REFUSE edg 23 2`: file, number, place." How many bytes the line has.
pub fn refuse_line(file: FileName, refused: Refusal, out: &mut [u8]) -> usize
    ensures value { result ≡ bytes_told (refuse_line file refused) out.old }
    ensures out_after { out.new ≡ told (refuse_line file refused) out.old }
{
    if out.len() < LINE_ROOM {
        return 0;
    }
    let name = name_of(file);
    let mut at = put_text(out, 0, b"REFUSE ");
    at = put_text(out, at, &name);
    at = put_named(out, at, b" ", refused.number as usize);
    at = put_named(out, at, b" ", refused.place);
    put_byte(out, at, LINE_END)
}

// "ACCEPT nodes 3 edges 3 faces 2 rings 2": how many rows each table has. How many bytes the line has.
pub fn accept_line(counts: Counts, out: &mut [u8]) -> usize
    ensures value { result ≡ bytes_told (accept_line counts) out.old }
    ensures out_after { out.new ≡ told (accept_line counts) out.old }
{
    if out.len() < LINE_ROOM {
        return 0;
    }
    let mut at = put_named(out, 0, b"ACCEPT nodes ", counts.nodes);
    at = put_named(out, at, b" edges ", counts.edges);
    at = put_named(out, at, b" faces ", counts.faces);
    at = put_named(out, at, b" rings ", counts.rings);
    put_byte(out, at, LINE_END)
}

// "ring 1 face 1 steps 3": a ring row, its face, and the steps of its walk. How many bytes the line has.
pub fn ring_line(row: usize, face: u32, steps: usize, out: &mut [u8]) -> usize
    ensures value { result ≡ bytes_told (ring_line row face steps) out.old }
    ensures out_after { out.new ≡ told (ring_line row face steps) out.old }
{
    if out.len() < LINE_ROOM {
        return 0;
    }
    let mut at = put_named(out, 0, b"ring ", row);
    at = put_named(out, at, b" face ", face as usize);
    at = put_named(out, at, b" steps ", steps);
    put_byte(out, at, LINE_END)
}

// "steps 6": the steps of all rings. How many bytes the line has.
pub fn steps_line(n: usize, out: &mut [u8]) -> usize
    ensures value { result ≡ bytes_told (steps_line n) out.old }
    ensures out_after { out.new ≡ told (steps_line n) out.old }
{
    if out.len() < LINE_ROOM {
        return 0;
    }
    let at = put_named(out, 0, b"steps ", n);
    put_byte(out, at, LINE_END)
}
