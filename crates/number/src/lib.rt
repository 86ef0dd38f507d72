// Unsigned numbers of 1, 2, 4 and 8 bytes in either byte order, at a place of a slice. A number that does not lie wholly
// inside the slice reads as 0, and writing one there changes nothing.
#![tactic(auto)]

ghost use Rattle.std.specs.Prelude.{◌≡◌, ◌<◌, ℕ, reverse};
ghost use Rattle.number.specs.declared.Order.{Order};
ghost use Rattle.number.specs.Bytes.{order_of, in_order, least_first, digits, number, written};

#[derive(Clone, Copy, Debug, PartialEq, Eq)]
pub enum Order {
    Least,
    Most,
}

// The byte order that a letter gives; no letter (`;`) is read as `L`.
#[tactic(auto, unfolding(crate::specs::Bytes::order_of))]
pub fn order_of(letter: u8) -> Option<Order>
    ensures { result ≡ order_of letter }
{
    match letter {
        b'L' | b';' => Some(Order::Least),
        b'M' => Some(Order::Most),
        _ => None,
    }
}

// An unsigned type of numbers: how many bytes it has, the number that a value is, and both ways between values and bytes.
pub trait Unsigned: Copy {
    ghost width: { ℕ };

    ghost as_number: { Self → ℕ };

    fn read_at(s: &[u8], at: usize, order: Order) -> Self
        ensures { as_number result ≡ number order s.now at width };

    fn write_at(self, s: &mut [u8], at: usize, order: Order)
        ensures { s.new ≡ written order s.old at width (as_number self) };
}

impl Unsigned for u8 {
    ghost width = { 1 };

    ghost as_number = { λ n. n };

    fn read_at(s: &[u8], at: usize, order: Order) -> u8 {
        match order {
            Order::Least => u8::from_le_bytes(bytes_at(s, at)),
            Order::Most => u8::from_be_bytes(bytes_at(s, at)),
        }
    }

    fn write_at(self, s: &mut [u8], at: usize, order: Order) {
        put_bytes(s, at, self.to_le_bytes(), self.to_be_bytes(), order);
    }
}

impl Unsigned for u16 {
    ghost width = { 2 };

    ghost as_number = { λ n. n };

    fn read_at(s: &[u8], at: usize, order: Order) -> u16 {
        match order {
            Order::Least => u16::from_le_bytes(bytes_at(s, at)),
            Order::Most => u16::from_be_bytes(bytes_at(s, at)),
        }
    }

    fn write_at(self, s: &mut [u8], at: usize, order: Order) {
        put_bytes(s, at, self.to_le_bytes(), self.to_be_bytes(), order);
    }
}

impl Unsigned for u32 {
    ghost width = { 4 };

    ghost as_number = { λ n. n };

    fn read_at(s: &[u8], at: usize, order: Order) -> u32 {
        match order {
            Order::Least => u32::from_le_bytes(bytes_at(s, at)),
            Order::Most => u32::from_be_bytes(bytes_at(s, at)),
        }
    }

    fn write_at(self, s: &mut [u8], at: usize, order: Order) {
        put_bytes(s, at, self.to_le_bytes(), self.to_be_bytes(), order);
    }
}

impl Unsigned for u64 {
    ghost width = { 8 };

    ghost as_number = { λ n. n };

    fn read_at(s: &[u8], at: usize, order: Order) -> u64 {
        match order {
            Order::Least => u64::from_le_bytes(bytes_at(s, at)),
            Order::Most => u64::from_be_bytes(bytes_at(s, at)),
        }
    }

    fn write_at(self, s: &mut [u8], at: usize, order: Order) {
        put_bytes(s, at, self.to_le_bytes(), self.to_be_bytes(), order);
    }
}

// The N bytes at a place; zeros where they do not lie wholly inside. What they say is taken by the caller, in one step for
// each order: to put them in order first, byte by byte, makes reading up to four times as slow. They are taken
// anew under each order, so that the compiler may make a loop over many numbers once for each order, and need not look at it in each turn.
fn bytes_at<const N: usize>(s: &[u8], at: usize) -> [u8; N]
    requires { 0 < N }
    ensures { (o : Order) → least_first (in_order o result) ≡ number o s.now at N }
{
    if s.len().saturating_sub(at) < N {
        return [0; N];
    }
    match s[at..at + N].first_chunk::<N>() {
        Some(bytes) => *bytes,
        None => [0; N],
    }
}

// Writes N bytes at a place, given the least and given the most significant first; nothing where they do not lie wholly inside.
fn put_bytes<const N: usize>(s: &mut [u8], at: usize, least: [u8; N], most: [u8; N], order: Order)
    requires { 0 < N }
    ensures { (v : ℕ) → least.entry ≡ digits N v → most.entry ≡ reverse (digits N v) → s.new ≡ written order s.old at N v }
{
    if s.len().saturating_sub(at) < N {
        return;
    }
    let bytes = match order {
        Order::Least => least,
        Order::Most => most,
    };
    s[at..at + N].copy_from_slice(&bytes);
}

// The number of the type's bytes at a place; 0 where it does not lie wholly inside.
pub fn read<T: Unsigned>(s: &[u8], at: usize, order: Order) -> T
    ensures { T.as_number result ≡ number order s.now at T.width }
{
    T::read_at(s, at, order)
}

// Writes the number in the type's bytes at a place; nothing where they do not lie wholly inside.
pub fn write<T: Unsigned>(s: &mut [u8], at: usize, v: T, order: Order)
    ensures { s.new ≡ written order s.old at T.width (T.as_number v) }
{
    v.write_at(s, at, order);
}
