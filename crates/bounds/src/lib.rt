// The rectangle of an edge's coordinates given as bytes: the least and greatest x and y, found by comparison alone, the
// earliest coordinate winning a tie. In f32 and in f64: one code over the width, as are the definitions and laws.
#![tactic(auto)]

ghost use Rattle.std.specs.Prelude.{◌≡◌, ◌+◌, ◌*◌, ◌≤◌, ◌<◌, ℕ, Float, length, refl};
ghost use Rattle.std.specs.Ordering.{partial_lt};
ghost use Rattle.std.specs.Float.{Format, binary32, binary64};
ghost use Rattle.std.specs.Float.Ieee.{lt};
ghost use Rattle.laws.specs.Foremost.{foremost_of_two, reversed};
ghost use Rattle.bounds.specs.Bounds.{part_count, part_bytes, strided, coordinates, count, bounds_of, Reached, fit_at, point_at, extended, around, rectangle_by, bounds_by, part_by, point_by};
ghost use Rattle.bounds.specs.Serving.{compares};

use number::Order;
use refusal::{Kind, Refusal};

// x y, or x y z.
#[derive(Clone, Copy, Debug, PartialEq, Eq)]
pub enum Parts {
    Two,
    Three,
}

impl Parts {
    fn count(self) -> usize
        ensures { (result ≡ part_count self) × (2 ≤ result) × (result ≤ 3) }
    {
        match self {
            Parts::Two => 2,
            Parts::Three => 3,
        }
    }
}

// The four bounds travel as one record.
#[derive(Clone, Copy)]
pub struct Rectangle<F> {
    pub least_x: F,
    pub least_y: F,
    pub greatest_x: F,
    pub greatest_y: F,
}

// A float that x and y can be: the bytes of one, the finite one at a place, and that its order is that of the values.
pub trait Coordinate: Copy + PartialOrd {
    ghost format: { Format };

    ghost value: { Self → Float };

    ghost BYTES: { ℕ };

    const BYTES: usize;

    fn fit_at(bytes: &[u8], place: usize, order: Order) -> Option<Self>
        ensures { part_by value result ≡ fit_at format order bytes.now place };

    ghost wide: { BYTES ≡ part_bytes format };

    ghost compares: { (x y : Self) → partial_lt Self.partial_cmp x y ≡ lt (value x) (value y) };
}

// The weight of the sign in a pattern.
const SIGN32: u32 = 2147483648;

const SIGN64: u64 = 9223372036854775808;

// The pattern of an infinity, without its sign: those of finite numbers lie below it, those of NaNs above.
const INFINITE32: u32 = 2139095040;

const INFINITE64: u64 = 9218868437227405312;

// The pattern is tested before there is a float, so that none is ever made of a NaN.
impl Coordinate for f32 {
    ghost format = { binary32 };

    ghost value = { λ x. x };

    ghost BYTES = { 4 };

    const BYTES: usize = 4;

    #[tactic(auto, using(crate::proofs::FiniteLaws::finite_no_nan, crate::proofs::ReadLaws::part_fit, crate::proofs::ReadLaws::part_unfit))]
    fn fit_at(bytes: &[u8], place: usize, order: Order) -> Option<f32> {
        let pattern = number::read::<u32>(bytes, place, order);
        if pattern % SIGN32 < INFINITE32 {
            Some(f32::from_bits(pattern))
        } else {
            None
        }
    }

    ghost wide = { refl };

    ghost compares = { compares };
}

impl Coordinate for f64 {
    ghost format = { binary64 };

    ghost value = { λ x. x };

    ghost BYTES = { 8 };

    const BYTES: usize = 8;

    #[tactic(auto, using(crate::proofs::FiniteLaws::finite_no_nan, crate::proofs::ReadLaws::part_fit, crate::proofs::ReadLaws::part_unfit))]
    fn fit_at(bytes: &[u8], place: usize, order: Order) -> Option<f64> {
        let pattern = number::read::<u64>(bytes, place, order);
        if pattern % SIGN64 < INFINITE64 {
            Some(f64::from_bits(pattern))
        } else {
            None
        }
    }

    ghost wide = { refl };

    ghost compares = { compares };
}

// The earlier of two, unless the later is less.
fn lesser<F: Coordinate>(earlier: F, later: F) -> F
    ensures { F.value result ≡ foremost_of_two lt (F.value earlier) (F.value later) }
{
    if later < earlier { later } else { earlier }
}

// The earlier of two, unless the later is greater.
fn greater<F: Coordinate>(earlier: F, later: F) -> F
    ensures { F.value result ≡ foremost_of_two (reversed lt) (F.value earlier) (F.value later) }
{
    if earlier < later { later } else { earlier }
}

impl<F: Coordinate> Rectangle<F> {
    // The rectangle of one coordinate alone.
    fn around(x: F, y: F) -> Rectangle<F>
        ensures { rectangle_by F.value result ≡ around (F.value x) (F.value y) }
    {
        Rectangle {
            least_x: x,
            least_y: y,
            greatest_x: x,
            greatest_y: y,
        }
    }

    // The rectangle with one coordinate more.
    fn extended(self, x: F, y: F) -> Rectangle<F>
        ensures { rectangle_by F.value result ≡ extended (rectangle_by F.value self) (F.value x) (F.value y) }
    {
        Rectangle {
            least_x: lesser(self.least_x, x),
            least_y: lesser(self.least_y, y),
            greatest_x: greater(self.greatest_x, x),
            greatest_y: greater(self.greatest_y, y),
        }
    }
}

// The x and y at a place, where both are finite.
fn point_at<F: Coordinate>(bytes: &[u8], place: usize, order: Order) -> Option<(F, F)>
    requires { place + 2 * part_bytes F.format ≤ length bytes.now }
    ensures { point_by F.value result ≡ point_at F.format order bytes.now place }
{
    let x = F::fit_at(bytes, place, order)?;
    let y = F::fit_at(bytes, place + F::BYTES, order)?;
    Some((x, y))
}

// The bounds, given the rectangle of the first coordinate: each further one is read once.
fn further<F: Coordinate>(
    bytes: &[u8],
    stride: usize,
    order: Order,
    first: Rectangle<F>,
) -> Result<Rectangle<F>, Refusal>
    requires { (2 * part_bytes F.format ≤ stride) × (0 < count (strided F.format stride order bytes.now)) × Reached (strided F.format stride order bytes.now) 1 (rectangle_by F.value first) }
    ensures { bounds_by F.value result ≡ bounds_of (strided F.format stride order bytes.now) }
{
    let mut rectangle = first;
    for i in 1..bytes.len() / stride {
        let Some((x, y)) = point_at::<F>(bytes, i * stride, order) else {
            return Err(Kind::NotFinite.at(i + 1));
        };
        rectangle = rectangle.extended(x, y);
    }
    Ok(rectangle)
}

// The bounds of as many whole coordinates as the bytes hold.
pub fn find_bounds<F: Coordinate>(
    bytes: &[u8],
    parts: Parts,
    order: Order,
) -> Result<Rectangle<F>, Refusal>
    ensures { bounds_by F.value result ≡ bounds_of (coordinates F.format parts order bytes.now) }
{
    let stride = parts.count() * F::BYTES;
    if bytes.len() < stride {
        return Err(Kind::NotFinite.at(0));
    }
    let Some((x, y)) = point_at::<F>(bytes, 0, order) else {
        return Err(Kind::NotFinite.at(1));
    };
    further(bytes, stride, order, Rectangle::around(x, y))
}
