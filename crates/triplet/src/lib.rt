// Triplet ids: a type byte, then id, tile and external id, each in 0, 1, 2 or 4 bytes.
#![tactic(auto)]

ghost use Rattle.std.specs.Prelude.{◌≡◌, ◌++◌, ◌+◌, ◌≤◌, ◌<◌, length, drop};
ghost use Rattle.std.specs.Option.{ok_or};
ghost use Rattle.number.specs.Bytes.{number, written};
ghost use Rattle.laws.specs.Lowest.{lowest, found};
ghost use Rattle.refusal.specs.Order.{refusal};
ghost use Rattle.triplet.specs.Triplet.{bad_triplet, width_of, Width, part_at, triplet_of};
ghost use Rattle.triplet.specs.Written.{part_too_large, code_for, width_for, type_byte, size_of, encoded, written_of, row_after};

use number::Order;
use refusal::{Kind, Refusal};

const LARGEST_PART: u32 = 2147483647;

// The largest number that one byte holds.
const ONE_BYTE: u32 = 255;

// The largest number that two bytes hold.
const TWO_BYTES: u32 = 65535;

// What an absent part reads as, and what is written as one.
const ABSENT: u32 = 0;

// The weight of the code of the id in the type byte: bits 7-6.
const ID_WEIGHT: u8 = 64;

// Bits 5-4.
const TILE_WEIGHT: u8 = 16;

// Bits 3-2; below them stand the two bits that are zero.
const OTHER_WEIGHT: u8 = 4;

#[derive(Clone, Copy, Debug, PartialEq, Eq)]
pub struct Ids {
    pub id: u32,
    pub tile: u32,
    pub other: u32,
}

// The ids, and how many bytes they took.
#[derive(Clone, Copy, Debug, PartialEq, Eq)]
pub struct Triplet {
    pub ids: Ids,
    pub bytes: usize,
}

// The number of bytes that a two-bit code says.
fn width_of(code: u8) -> usize
    requires { code < 4 }
    ensures value { result ≡ width_of code }
    ensures width { Width result }
{
    if code == 3 { 4 } else { code as usize }
}

// The number in the w bytes at a place.
#[tactic(auto, using(number::proofs::NumberLaws::number_nothing))]
fn number_at(s: &[u8], at: usize, w: usize, order: Order) -> u32
    requires { Width w }
    ensures { result ≡ number order s.now at w }
{
    match w {
        0 => 0,
        1 => number::read::<u8>(s, at, order) as u32,
        2 => number::read::<u16>(s, at, order) as u32,
        _ => number::read::<u32>(s, at, order),
    }
}

// The part of w bytes at a place. One that is too large or cut short is refused at its first byte.
#[tactic(auto, unfolding(crate::specs::Triplet::part_at))]
fn part_at(s: &[u8], at: usize, w: usize, order: Order) -> Result<u32, Refusal>
    requires width { Width w }
    requires place { at ≤ 9 }
    ensures { result ≡ ok_or (part_at order s.now at w) (refusal bad_triplet at) }
{
    if w == 0 {
        return Ok(ABSENT);
    }
    if s.len() < at + w {
        return Err(Kind::BadTriplet.at(at));
    }
    let v = number_at(s, at, w, order);
    if LARGEST_PART < v {
        return Err(Kind::BadTriplet.at(at));
    }
    Ok(v)
}

// The triplet id that the bytes begin with. Bytes after it are not looked at.
// Example: `64 06 04 01 D2` under `L` is 6, 260, 210 in 5 bytes; a type byte `41` is refused with 11 at 0.
#[tactic(auto, unfolding(crate::specs::Triplet::triplet_of, crate::specs::Triplet::parts_of))]
pub fn read(s: &[u8], order: Order) -> Result<Triplet, Refusal>
    ensures { result ≡ triplet_of order s.now }
{
    let Some(&t) = s.first() else {
        return Err(Kind::BadTriplet.at(0));
    };
    if t % OTHER_WEIGHT != 0 {
        return Err(Kind::BadTriplet.at(0));
    }
    let id_width = width_of(t / ID_WEIGHT % 4);
    let tile_width = width_of(t / TILE_WEIGHT % 4);
    let other_width = width_of(t / OTHER_WEIGHT % 4);
    let tile_place = 1 + id_width;
    let other_place = tile_place + tile_width;
    let id = part_at(s, 1, id_width, order)?;
    let tile = part_at(s, tile_place, tile_width, order)?;
    let other = part_at(s, other_place, other_width, order)?;
    Ok(Triplet {
        ids: Ids { id, tile, other },
        bytes: other_place + other_width,
    })
}

// The lowest part that is too large, 1 to 3.
fn too_large(ids: Ids) -> Option<usize>
    ensures { result ≡ found (lowest (part_too_large ids) 3) }
{
    if LARGEST_PART < ids.id {
        Some(1)
    } else if LARGEST_PART < ids.tile {
        Some(2)
    } else if LARGEST_PART < ids.other {
        Some(3)
    } else {
        None
    }
}

// The code of the shortest form of a part.
fn code_for(v: u32) -> u8
    ensures value { result ≡ code_for v }
    ensures upper_bound { result < 4 }
{
    match v {
        ABSENT => 0,
        ..=ONE_BYTE => 1,
        ..=TWO_BYTES => 2,
        _ => 3,
    }
}

// The bytes of the shortest form of a part.
#[tactic(auto, unfolding(crate::specs::Written::width_for))]
fn width_for(v: u32) -> usize
    ensures value { result ≡ width_for v }
    ensures upper_bound { result ≤ 4 }
{
    width_of(code_for(v))
}

// The bytes of the shortest form of a triplet.
#[tactic(auto, unfolding(crate::specs::Written::size_of))]
fn size_of(ids: Ids) -> usize
    ensures value { result ≡ size_of ids }
    ensures upper_bound { result ≤ 13 }
{
    1 + width_for(ids.id) + width_for(ids.tile) + width_for(ids.other)
}

// The type byte of the shortest form.
fn type_byte(ids: Ids) -> u8
    ensures { result ≡ type_byte (code_for ids.id) (code_for ids.tile) (code_for ids.other) }
{
    code_for(ids.id) * ID_WEIGHT
        + code_for(ids.tile) * TILE_WEIGHT
        + code_for(ids.other) * OTHER_WEIGHT
}

// Writes a part in its shortest form.
#[tactic(auto, using(number::proofs::NumberLaws::written_nothing), unfolding(crate::specs::Written::width_for))]
fn put_part(s: &mut [u8], at: usize, v: u32, order: Order)
    ensures { s.new ≡ written order s.old at (width_for v) v }
{
    match v {
        ABSENT => {}
        ..=ONE_BYTE => number::write(s, at, v as u8, order),
        ..=TWO_BYTES => number::write(s, at, v as u16, order),
        _ => number::write(s, at, v, order),
    }
}

// Writes the triplet at the front of what is lent.
#[tactic(auto, using(crate::proofs::WriterLaws::encoded_by), unfolding(crate::specs::Written::size_of))]
fn put(s: &mut [u8], ids: Ids, order: Order)
    requires { size_of ids ≤ length s.old }
    ensures { s.new ≡ encoded order ids ++ drop (size_of ids) s.old }
{
    let tile_place = 1 + width_for(ids.id);
    let other_place = tile_place + width_for(ids.tile);
    s[0] = type_byte(ids);
    put_part(s, 1, ids.id, order);
    put_part(s, tile_place, ids.tile, order);
    put_part(s, other_place, ids.other, order);
}

// Writes the triplet into the row at a place and changes no other byte; where it is refused it changes none.
// Example: 1, 0, 0 is written as `40 01`. Of a row of 10 bytes, 6, 260, 210 at 5 fills it to the end, and at 6 is refused with 14 at 11.
#[tactic(auto, using(crate::proofs::WriterLaws::no_part, crate::proofs::WriterLaws::parts, crate::proofs::WriterLaws::no_place, crate::proofs::WriterLaws::no_room, crate::proofs::WriterLaws::writes))]
pub fn write(row: &mut [u8], at: usize, ids: Ids, order: Order) -> Result<usize, Refusal>
    ensures value { result ≡ written_of (length row.old) at ids }
    ensures row_after { row.new ≡ row_after result order row.old at ids }
{
    Kind::BadTriplet.at_lowest(too_large(ids))?;
    if row.len() < at {
        return Err(Kind::NoSuch.at(at));
    }
    let n = size_of(ids);
    if row.len() - at < n {
        return Err(Kind::TooShort.at(at + n));
    }
    put(&mut row[at..], ids, order);
    Ok(n)
}
