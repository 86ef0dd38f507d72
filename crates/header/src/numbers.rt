// One number for a name, of its length and of all its letters: the same for the same text.
ghost use Rattle.std.specs.Prelude.{◌≡◌, ◌<◌};
ghost use Rattle.header.specs.Serving.Numbers.{caseless, with_letter, number_of, slots, slot_of};

// No multiple of 37, so that every letter has a say in the slot.
pub(crate) const SLOTS: usize = 251;

// 26 bits: with one letter more a number has room in 32.
const KEPT: u32 = 67108864;

// A number with one letter more, of which five bits count: they do not tell its case.
fn with_letter(number: u32, letter: u8) -> u32
    ensures { result ≡ with_letter number (caseless letter) }
{
    number % KEPT * 37 + (letter % 32) as u32
}

// The number of a name. Example: of `ab` it is (2 * 37 + 1) * 37 + 2 = 2,777, and of `AB` too.
pub(crate) fn number_of(name: &[u8]) -> u32
    ensures { result ≡ number_of name.now }
{
    let mut number = (name.len() % 32) as u32;
    for &letter in name {
        number = with_letter(number, letter);
    }
    number
}

// The slot of a number.
pub(crate) fn slot_of(number: u32) -> usize
    ensures value { result ≡ slot_of number }
    ensures upper_bound { result < slots }
{
    number as usize % SLOTS
}
