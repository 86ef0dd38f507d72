// A refusal: one number and one place, and what is refused by its kind. An answer that refuses nothing is `Ok`; the definitions say it by the
// number 0.
#![tactic(auto)]

ghost use Rattle.std.specs.Prelude.{◌≡◌, eqb, Some};
ghost use Rattle.refusal.specs.Kinds.{number_of, NumberOf};
ghost use Rattle.refusal.specs.Order.{refusal, refused_at};
ghost use Rattle.refusal.specs.Shown.{refusal_text};

use std::fmt;

// What is refused: a row of document 01's table, each with its words.
#[derive(Clone, Copy, Debug, PartialEq, Eq, Hash)]
pub enum Kind {
    // "file under 5 bytes, or L + 4 past its end"
    CutOff,

    // "byte 4 not `L`, `M`, `;`"
    NoOrderLetter,

    // "text leaves the grammar"
    NotInGrammar,

    // "unlisted type or key, or count wrong for the type"
    WrongDefinition,

    // "more than 128 columns .., else same name" (document 02, No. 6)
    WrongColumns,

    // "id column or key P rule broken"
    WrongKey,

    // "fixed body not whole rows, or index lent for it"
    WrongBody,

    // "index rule broken"
    WrongIndex,

    // "id in row wrong"
    WrongId,

    // "row too short or not used up"
    WrongRow,

    // "type byte or part bad, or cut short"
    BadTriplet,

    // "x or y not finite, or no coordinates"
    NotFinite,

    // "no such row, ring or column"
    NoSuch,

    // "lent output too short"
    TooShort,

    // "L over 32,767; over 1,000,000 rows; tile slices of one table unequal; F or R zero"
    OverLimit,

    // "text is no wave height"
    NoWaveHeight,

    // "tile column missing or of wrong type"
    WrongColumn,

    // "number out of range"
    NodeOutOfRange,
    FaceOutOfRange,
    EdgeOutOfRange,

    // "link does not touch; face differs; loop with the face on both sides"
    NotTouching,
    FaceDiffers,
    LoopOfOneFace,

    // "more than one predecessor"
    ManyBefore,

    // "first_edge out of range or not touching"
    WrongFirstEdge,

    // "ring's face out of range; else run or ring_ptr wrong"
    WrongRingRows,

    // "start wrong; cycle already owned"
    WrongStart,
    CycleOwned,

    // "side without ring"
    NoRing,

    // "walk does not close"
    NotClosed,
}

// A number that no row of the table has.
#[derive(Clone, Copy, Debug, PartialEq, Eq, Hash)]
pub struct Unlisted(pub u32);

impl Kind {
    // Document 01's number.
    pub fn number(self) -> u32
        ensures { result ≡ number_of self }
    {
        match self {
            Kind::CutOff => 1,
            Kind::NoOrderLetter => 2,
            Kind::NotInGrammar => 3,
            Kind::WrongDefinition => 4,
            Kind::WrongColumns => 5,
            Kind::WrongKey => 6,
            Kind::WrongBody => 7,
            Kind::WrongIndex => 8,
            Kind::WrongId => 9,
            Kind::WrongRow => 10,
            Kind::BadTriplet => 11,
            Kind::NotFinite => 12,
            Kind::NoSuch => 13,
            Kind::TooShort => 14,
            Kind::OverLimit => 15,
            Kind::NoWaveHeight => 16,
            Kind::WrongColumn => 17,
            Kind::NodeOutOfRange => 20,
            Kind::FaceOutOfRange => 21,
            Kind::EdgeOutOfRange => 22,
            Kind::NotTouching => 23,
            Kind::FaceDiffers => 24,
            Kind::LoopOfOneFace => 25,
            Kind::ManyBefore => 26,
            Kind::WrongFirstEdge => 27,
            Kind::WrongRingRows => 28,
            Kind::WrongStart => 29,
            Kind::CycleOwned => 30,
            Kind::NoRing => 31,
            Kind::NotClosed => 32,
        }
    }

    // Refused at a place.
    pub fn at(self, place: usize) -> Refusal
        ensures { result ≡ refusal (number_of self) place }
    {
        refuse(self.number(), place)
    }

    // Refused at the lowest row or side that fails, if there is one.
    pub fn at_lowest(self, lowest: Option<usize>) -> Result<(), Refusal>
        ensures { result ≡ refused_at (number_of self) lowest }
    {
        refuse_at(self.number(), lowest)
    }
}

impl From<Kind> for u32 {
    ghost from_gives = { λ kind n. n ≡ number_of kind };

    fn from(kind: Kind) -> u32 {
        kind.number()
    }
}

impl TryFrom<u32> for Kind {
    type Error = Unlisted;

    ghost try_from_gives = { NumberOf };

    fn try_from(number: u32) -> Result<Self, Unlisted> {
        match number {
            1 => Ok(Kind::CutOff),
            2 => Ok(Kind::NoOrderLetter),
            3 => Ok(Kind::NotInGrammar),
            4 => Ok(Kind::WrongDefinition),
            5 => Ok(Kind::WrongColumns),
            6 => Ok(Kind::WrongKey),
            7 => Ok(Kind::WrongBody),
            8 => Ok(Kind::WrongIndex),
            9 => Ok(Kind::WrongId),
            10 => Ok(Kind::WrongRow),
            11 => Ok(Kind::BadTriplet),
            12 => Ok(Kind::NotFinite),
            13 => Ok(Kind::NoSuch),
            14 => Ok(Kind::TooShort),
            15 => Ok(Kind::OverLimit),
            16 => Ok(Kind::NoWaveHeight),
            17 => Ok(Kind::WrongColumn),
            20 => Ok(Kind::NodeOutOfRange),
            21 => Ok(Kind::FaceOutOfRange),
            22 => Ok(Kind::EdgeOutOfRange),
            23 => Ok(Kind::NotTouching),
            24 => Ok(Kind::FaceDiffers),
            25 => Ok(Kind::LoopOfOneFace),
            26 => Ok(Kind::ManyBefore),
            27 => Ok(Kind::WrongFirstEdge),
            28 => Ok(Kind::WrongRingRows),
            29 => Ok(Kind::WrongStart),
            30 => Ok(Kind::CycleOwned),
            31 => Ok(Kind::NoRing),
            32 => Ok(Kind::NotClosed),
            _ => Err(Unlisted(number)),
        }
    }
}

// What is refused, by its number, and where.
#[derive(Clone, Copy, Debug, PartialEq, Eq, Hash)]
pub struct Refusal {
    pub number: u32,
    pub place: usize,
}

impl Refusal {
    // Whether it is of this kind.
    pub fn is(self, kind: Kind) -> bool
        ensures { result ≡ eqb self.number (number_of kind) }
    {
        self.number == kind.number()
    }
}

// As `13 at 5`: the number, and where.
impl fmt::Display for Refusal {
    ghost output = { λ q. Some (refusal_text q) };

    fn fmt<W: fmt::Write>(&self, f: &mut fmt::Formatter<W>) -> fmt::Result {
        write!(f, "{} at {}", self.number, self.place)
    }
}

// A number at a place, whatever the number.
pub fn refuse(number: u32, place: usize) -> Refusal
    ensures { result ≡ refusal number place }
{
    Refusal { number, place }
}

// The number at the lowest row or side that fails, if there is one.
pub fn refuse_at(number: u32, lowest: Option<usize>) -> Result<(), Refusal>
    ensures { result ≡ refused_at number lowest }
{
    match lowest {
        Some(place) => Err(refuse(number, place)),
        None => Ok(()),
    }
}
