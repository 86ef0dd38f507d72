// Field types: each knows its letter, the width of its element in bytes, its null, and whether a star count is allowed.
#![tactic(auto)]

ghost use Rattle.std.specs.Prelude.{◌≡◌, ◌≤◌, Bool, ℕ};
ghost use Rattle.field.specs.Fields.{letter_of, width_of, widest, star_of, null_of, rule_of, type_of, is_integer, is_triplet, count_right};
ghost use Rattle.field.specs.Nulls.{short_is_null, integer_is_null, float_is_null, double_is_null};
ghost use Rattle.field.specs.declared.FieldType.TheVariants as type;
ghost use Rattle.field.specs.declared.NullValue.{NullValue};

// The value of a field type that stands for none.
#[derive(Clone, Copy, Debug, PartialEq, Eq)]
pub enum NullValue {
    Nothing,
    Number(i32),
    NotANumber,
}

// What a field type knows.
pub trait Known {
    // The letter that a header has for the type.
    const LETTER: u8;

    // The bytes of one element.
    const WIDTH: usize;

    // Whether the count may be `*`.
    const STAR: bool;

    // The value that stands for none.
    const NULL: NullValue;

    ghost LETTER: { ℕ };

    ghost WIDTH: { ℕ };

    ghost STAR: { Bool };

    ghost NULL: { NullValue };
}

// T: text.
#[derive(Clone, Copy)]
pub struct Text;

impl Known for Text {
    const LETTER: u8 = b'T';

    const WIDTH: usize = 1;

    const STAR: bool = true;

    const NULL: NullValue = NullValue::Nothing;

    ghost LETTER = { letter_of type.Text };

    ghost WIDTH = { width_of type.Text };

    ghost STAR = { star_of type.Text };

    ghost NULL = { null_of type.Text };
}

// L: text in the alphabet Latin 1.
#[derive(Clone, Copy)]
pub struct Latin;

impl Known for Latin {
    const LETTER: u8 = b'L';

    const WIDTH: usize = 1;

    const STAR: bool = true;

    const NULL: NullValue = NullValue::Nothing;

    ghost LETTER = { letter_of type.Latin };

    ghost WIDTH = { width_of type.Latin };

    ghost STAR = { star_of type.Latin };

    ghost NULL = { null_of type.Latin };
}

// F: a float of four bytes.
#[derive(Clone, Copy)]
pub struct Float;

impl Known for Float {
    const LETTER: u8 = b'F';

    const WIDTH: usize = 4;

    const STAR: bool = false;

    const NULL: NullValue = NullValue::NotANumber;

    ghost LETTER = { letter_of type.Float };

    ghost WIDTH = { width_of type.Float };

    ghost STAR = { star_of type.Float };

    ghost NULL = { null_of type.Float };
}

// Of its own width, as `Double` is: a trait for two bodies of one comparison each would be longer than both.
impl Float {
    // The bit of the sign, and the pattern of infinity: exponent all ones, fraction zero.
    const SIGN: u32 = 0x8000_0000;

    const INFINITY: u32 = 0x7f80_0000;

    // Every pattern of a NaN is null: without its sign it is above infinity's.
    pub fn is_null(bits: u32) -> bool
        ensures { result ≡ float_is_null bits }
    {
        Self::INFINITY < bits % Self::SIGN
    }
}

// R: a float of eight bytes.
#[derive(Clone, Copy)]
pub struct Double;

impl Known for Double {
    const LETTER: u8 = b'R';

    const WIDTH: usize = 8;

    const STAR: bool = false;

    const NULL: NullValue = NullValue::NotANumber;

    ghost LETTER = { letter_of type.Double };

    ghost WIDTH = { width_of type.Double };

    ghost STAR = { star_of type.Double };

    ghost NULL = { null_of type.Double };
}

// Of its own width, as `Float` is: a trait for two bodies of one comparison each would be longer than both.
impl Double {
    // The bit of the sign, and the pattern of infinity: exponent all ones, fraction zero.
    const SIGN: u64 = 0x8000_0000_0000_0000;

    const INFINITY: u64 = 0x7ff0_0000_0000_0000;

    // Every pattern of a NaN is null: without its sign it is above infinity's.
    pub fn is_null(bits: u64) -> bool
        ensures { result ≡ double_is_null bits }
    {
        Self::INFINITY < bits % Self::SIGN
    }
}

// S: an integer of two bytes.
#[derive(Clone, Copy)]
pub struct Short;

impl Known for Short {
    const LETTER: u8 = b'S';

    const WIDTH: usize = 2;

    const STAR: bool = false;

    const NULL: NullValue = NullValue::Number(-32768);

    ghost LETTER = { letter_of type.Short };

    ghost WIDTH = { width_of type.Short };

    ghost STAR = { star_of type.Short };

    ghost NULL = { null_of type.Short };
}

// Of its own width, as `Integer` is: a trait for two bodies of one comparison each would be longer than both.
impl Short {
    // The bytes of null, as an unsigned number.
    pub const NULL_BITS: u16 = 0x8000;

    pub fn is_null(bits: u16) -> bool
        ensures { result ≡ short_is_null bits }
    {
        bits == Self::NULL_BITS
    }
}

// I: an integer of four bytes.
#[derive(Clone, Copy)]
pub struct Integer;

impl Known for Integer {
    const LETTER: u8 = b'I';

    const WIDTH: usize = 4;

    const STAR: bool = false;

    const NULL: NullValue = NullValue::Number(-2147483648);

    ghost LETTER = { letter_of type.Integer };

    ghost WIDTH = { width_of type.Integer };

    ghost STAR = { star_of type.Integer };

    ghost NULL = { null_of type.Integer };
}

// Of its own width, as `Short` is: a trait for two bodies of one comparison each would be longer than both.
impl Integer {
    // The bytes of null, as an unsigned number.
    pub const NULL_BITS: u32 = 0x8000_0000;

    pub fn is_null(bits: u32) -> bool
        ensures { result ≡ integer_is_null bits }
    {
        bits == Self::NULL_BITS
    }
}

// C: short coordinates of two parts.
#[derive(Clone, Copy)]
pub struct ShortPair;

impl Known for ShortPair {
    const LETTER: u8 = b'C';

    const WIDTH: usize = 8;

    const STAR: bool = true;

    const NULL: NullValue = NullValue::Nothing;

    ghost LETTER = { letter_of type.ShortPair };

    ghost WIDTH = { width_of type.ShortPair };

    ghost STAR = { star_of type.ShortPair };

    ghost NULL = { null_of type.ShortPair };
}

// Z: short coordinates of three parts.
#[derive(Clone, Copy)]
pub struct ShortTriple;

impl Known for ShortTriple {
    const LETTER: u8 = b'Z';

    const WIDTH: usize = 12;

    const STAR: bool = true;

    const NULL: NullValue = NullValue::Nothing;

    ghost LETTER = { letter_of type.ShortTriple };

    ghost WIDTH = { width_of type.ShortTriple };

    ghost STAR = { star_of type.ShortTriple };

    ghost NULL = { null_of type.ShortTriple };
}

// B: double coordinates of two parts.
#[derive(Clone, Copy)]
pub struct DoublePair;

impl Known for DoublePair {
    const LETTER: u8 = b'B';

    const WIDTH: usize = 16;

    const STAR: bool = true;

    const NULL: NullValue = NullValue::Nothing;

    ghost LETTER = { letter_of type.DoublePair };

    ghost WIDTH = { width_of type.DoublePair };

    ghost STAR = { star_of type.DoublePair };

    ghost NULL = { null_of type.DoublePair };
}

// Y: double coordinates of three parts.
#[derive(Clone, Copy)]
pub struct DoubleTriple;

impl Known for DoubleTriple {
    const LETTER: u8 = b'Y';

    const WIDTH: usize = 24;

    const STAR: bool = true;

    const NULL: NullValue = NullValue::Nothing;

    ghost LETTER = { letter_of type.DoubleTriple };

    ghost WIDTH = { width_of type.DoubleTriple };

    ghost STAR = { star_of type.DoubleTriple };

    ghost NULL = { null_of type.DoubleTriple };
}

// D: a date.
#[derive(Clone, Copy)]
pub struct Date;

impl Known for Date {
    const LETTER: u8 = b'D';

    const WIDTH: usize = 20;

    const STAR: bool = false;

    const NULL: NullValue = NullValue::Nothing;

    ghost LETTER = { letter_of type.Date };

    ghost WIDTH = { width_of type.Date };

    ghost STAR = { star_of type.Date };

    ghost NULL = { null_of type.Date };
}

// X: a null field, of no bytes.
#[derive(Clone, Copy)]
pub struct NullField;

impl Known for NullField {
    const LETTER: u8 = b'X';

    const WIDTH: usize = 0;

    const STAR: bool = false;

    const NULL: NullValue = NullValue::Nothing;

    ghost LETTER = { letter_of type.NullField };

    ghost WIDTH = { width_of type.NullField };

    ghost STAR = { star_of type.NullField };

    ghost NULL = { null_of type.NullField };
}

// K: a triplet id, which says its own length: it has no width of an element.
#[derive(Clone, Copy)]
pub struct Triplet;

impl Known for Triplet {
    const LETTER: u8 = b'K';

    const WIDTH: usize = 0;

    const STAR: bool = false;

    const NULL: NullValue = NullValue::Nothing;

    ghost LETTER = { letter_of type.Triplet };

    ghost WIDTH = { width_of type.Triplet };

    ghost STAR = { star_of type.Triplet };

    ghost NULL = { null_of type.Triplet };
}

// The thirteen types.
#[derive(Clone, Copy, Debug, PartialEq, Eq)]
pub enum FieldType {
    Text,
    Latin,
    Float,
    Double,
    Short,
    Integer,
    ShortPair,
    ShortTriple,
    DoublePair,
    DoubleTriple,
    Date,
    NullField,
    Triplet,
}

// A count that is a number is at most 65,535.
pub const MOST_COUNT: u32 = 65535;

// What a type knows, as values.
#[derive(Clone, Copy)]
struct Rule {
    letter: u8,
    width: usize,
    star: bool,
    null: NullValue,
}

fn rule_of<K: Known>() -> Rule
    ensures { result ≡ record { letter = K.LETTER; width = K.WIDTH; star = K.STAR; null = K.NULL } }
{
    Rule {
        letter: K::LETTER,
        width: K::WIDTH,
        star: K::STAR,
        null: K::NULL,
    }
}

impl FieldType {
    // What each type knows, by its own constants.
    fn rule(self) -> Rule
        ensures value { result ≡ rule_of self }
        ensures width_le_widest { result.width ≤ widest }
    {
        match self {
            FieldType::Text => rule_of::<Text>(),
            FieldType::Latin => rule_of::<Latin>(),
            FieldType::Float => rule_of::<Float>(),
            FieldType::Double => rule_of::<Double>(),
            FieldType::Short => rule_of::<Short>(),
            FieldType::Integer => rule_of::<Integer>(),
            FieldType::ShortPair => rule_of::<ShortPair>(),
            FieldType::ShortTriple => rule_of::<ShortTriple>(),
            FieldType::DoublePair => rule_of::<DoublePair>(),
            FieldType::DoubleTriple => rule_of::<DoubleTriple>(),
            FieldType::Date => rule_of::<Date>(),
            FieldType::NullField => rule_of::<NullField>(),
            FieldType::Triplet => rule_of::<Triplet>(),
        }
    }

    // The letter that a header has for the type.
    pub fn letter(self) -> u8
        ensures { result ≡ letter_of self }
    {
        self.rule().letter
    }

    // The bytes of one element. A triplet says its own length, and has 0 here.
    pub fn width(self) -> usize
        ensures value { result ≡ width_of self }
        ensures upper_bound { result ≤ widest }
    {
        self.rule().width
    }

    // Whether the count may be `*`.
    pub fn star(self) -> bool
        ensures { result ≡ star_of self }
    {
        self.rule().star
    }

    // The value that stands for none.
    pub fn null(self) -> NullValue
        ensures { result ≡ null_of self }
    {
        self.rule().null
    }

    // The type of a letter, if the letter is listed.
    #[tactic(auto, unfolding(crate::specs::Fields::type_of))]
    pub fn of(letter: u8) -> Option<FieldType>
        ensures { result ≡ type_of letter }
    {
        match letter {
            Text::LETTER => Some(FieldType::Text),
            Latin::LETTER => Some(FieldType::Latin),
            Float::LETTER => Some(FieldType::Float),
            Double::LETTER => Some(FieldType::Double),
            Short::LETTER => Some(FieldType::Short),
            Integer::LETTER => Some(FieldType::Integer),
            ShortPair::LETTER => Some(FieldType::ShortPair),
            ShortTriple::LETTER => Some(FieldType::ShortTriple),
            DoublePair::LETTER => Some(FieldType::DoublePair),
            DoubleTriple::LETTER => Some(FieldType::DoubleTriple),
            Date::LETTER => Some(FieldType::Date),
            NullField::LETTER => Some(FieldType::NullField),
            Triplet::LETTER => Some(FieldType::Triplet),
            _ => None,
        }
    }

    // Whether it is type I, which `id` and most columns of a tile have.
    pub fn is_integer(self) -> bool
        ensures { result ≡ is_integer self }
    {
        self == FieldType::Integer
    }

    // Whether it is type K, whose values say their own length.
    pub fn is_triplet(self) -> bool
        ensures { result ≡ is_triplet self }
    {
        self == FieldType::Triplet
    }

    // Whether a count is right for the type: `*` where it is allowed, a number in range where `*` is, and else 1.
    #[tactic(auto, unfolding(crate::specs::Fields::count_right))]
    pub fn count_right(self, star: bool, count: u32) -> bool
        ensures { result ≡ count_right self star count }
    {
        if star {
            self.star()
        } else if self.star() {
            (1..=MOST_COUNT).contains(&count)
        } else {
            count == 1
        }
    }
}
