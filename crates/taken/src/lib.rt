// The number that a tile takes from an I or K field of a row.
#![tactic(auto)]

ghost use Rattle.std.specs.Prelude.{◌≡◌, ◌-◌, take, drop};
ghost use Rattle.taken.specs.Numbers.{natural, internal_id, number_by};

use field::Known;
use number::Order;
use refusal::Refusal;
use triplet::Triplet;

// The patterns from here on are the negative numbers and null.
const NEGATIVE: u32 = 0x80000000;

// Null and negative numbers are 0.
#[tactic(auto, unfolding(crate::specs::Numbers::natural))]
fn natural_of(bits: u32) -> u32
    ensures { result ≡ natural bits }
{
    if bits < NEGATIVE { bits } else { 0 }
}

// "From K the internal id is taken"
fn internal_id(read: Result<Triplet, Refusal>) -> u32
    ensures { result ≡ internal_id read }
{
    match read {
        Ok(triplet) => triplet.ids.id,
        Err(_) => 0,
    }
}

// The bytes from a place to the row's end, cut where the file ends.
fn row_from(file: &[u8], place: usize, end: usize) -> &[u8]
    ensures { result.now ≡ take (end - place) (drop place file.now) }
{
    let end = end.min(file.len());
    &file[place.min(end)..end]
}

// The number of a field of type I or K, by its letter, that starts at a place of a row that ends at `end`; 0 of another type.
#[tactic(auto, unfolding(crate::specs::Numbers::number_by))]
pub fn number_by(file: &[u8], letter: u8, place: usize, end: usize, order: Order) -> u32
    ensures { result ≡ number_by order file.now letter place end }
{
    match letter {
        field::Integer::LETTER => natural_of(number::read::<u32>(file, place, order)),
        field::Triplet::LETTER => internal_id(triplet::read(row_from(file, place, end), order)),
        _ => 0,
    }
}
