// The grammar of a header text: a machine that reads it byte by byte, and a way past a text of the grammar field by field.
#![tactic(auto)]

ghost use Rattle.std.specs.Prelude.{◌≡◌, ◌+◌, ◌≤◌, ◌<◌, ◌^◌, length, IfSome};
ghost use Rattle.grammar.specs.declared.Class.{Class};
ghost use Rattle.grammar.specs.Fields.{rule, printable, letter, plain, digit, holds, allowed};
ghost use Rattle.grammar.specs.Scan.{takes, closes, ends, stars, lacks_comma, columns_after, closed, special_move, past_move, move, finish, spot, scan_of};
ghost use Rattle.grammar.specs.Serving.Passing.{stands, Run, Shut, Past};

// The fields of the text in their order; of a column from Name to ColumnEnd.
#[derive(Clone, Copy, PartialEq, Eq)]
pub enum Field {
    OrderLetter,
    TableDescription,
    TableNarrative,
    Name,
    Kind,
    Numeral,
    AfterStar,
    Key,
    Description,
    ValueTable,
    ThematicIndex,
    Narrative,
    ColumnEnd,
    TextEnd,
}

// Which bytes a field holds.
#[derive(Clone, Copy, PartialEq, Eq)]
pub enum Class {
    Letters,
    NoSemicolon,
    Plain,
    Digits,
}

// What is special of a field: at its start `;` may end the columns, or a star may stand for the count; after its bytes `:` may stand
// without the comma; closing it makes a column whole; the text is whole.
#[derive(Clone, Copy, PartialEq, Eq)]
pub enum Special {
    Usual,
    ColumnsMayEnd,
    StarMayStand,
    ColonMayStand,
    ColumnIsWhole,
    TextIsWhole,
}

#[derive(Clone, Copy)]
pub struct Rule {
    pub least: usize,
    pub most: usize,
    pub holds: Class,
    pub closer: u8,
    pub next: Field,
    pub special: Special,
}

// Where a reading stands: in a field after n of its bytes, and after so many whole columns.
#[derive(Clone, Copy)]
pub struct Spot {
    pub field: Field,
    pub n: usize,
    pub cols: usize,
}

// What each field asks.
fn rule_of(field: Field) -> Rule
    ensures { result ≡ rule field }
{
    match field {
        Field::OrderLetter => Rule {
            least: 0,
            most: 1,
            holds: Class::Letters,
            closer: b';',
            next: Field::TableDescription,
            special: Special::Usual,
        },
        Field::TableDescription => Rule {
            least: 0,
            most: 80,
            holds: Class::NoSemicolon,
            closer: b';',
            next: Field::TableNarrative,
            special: Special::Usual,
        },
        Field::TableNarrative => Rule {
            least: 1,
            most: 12,
            holds: Class::NoSemicolon,
            closer: b';',
            next: Field::Name,
            special: Special::Usual,
        },
        Field::Name => Rule {
            least: 1,
            most: 24,
            holds: Class::Plain,
            closer: b'=',
            next: Field::Kind,
            special: Special::ColumnsMayEnd,
        },
        Field::Kind => Rule {
            least: 1,
            most: 1,
            holds: Class::Plain,
            closer: b',',
            next: Field::Numeral,
            special: Special::Usual,
        },
        Field::Numeral => Rule {
            least: 1,
            most: 5,
            holds: Class::Digits,
            closer: b',',
            next: Field::Key,
            special: Special::StarMayStand,
        },
        Field::AfterStar => Rule {
            least: 0,
            most: 0,
            holds: Class::Plain,
            closer: b',',
            next: Field::Key,
            special: Special::Usual,
        },
        Field::Key => Rule {
            least: 1,
            most: 1,
            holds: Class::Plain,
            closer: b',',
            next: Field::Description,
            special: Special::Usual,
        },
        Field::Description => Rule {
            least: 0,
            most: 80,
            holds: Class::Plain,
            closer: b',',
            next: Field::ValueTable,
            special: Special::Usual,
        },
        Field::ValueTable => Rule {
            least: 1,
            most: 12,
            holds: Class::Plain,
            closer: b',',
            next: Field::ThematicIndex,
            special: Special::Usual,
        },
        Field::ThematicIndex => Rule {
            least: 1,
            most: 12,
            holds: Class::Plain,
            closer: b',',
            next: Field::Narrative,
            special: Special::Usual,
        },
        Field::Narrative => Rule {
            least: 1,
            most: 12,
            holds: Class::Plain,
            closer: b',',
            next: Field::ColumnEnd,
            special: Special::ColonMayStand,
        },
        Field::ColumnEnd => Rule {
            least: 0,
            most: 0,
            holds: Class::Plain,
            closer: b':',
            next: Field::Name,
            special: Special::ColumnIsWhole,
        },
        Field::TextEnd => Rule {
            least: 1,
            most: 0,
            holds: Class::Plain,
            closer: b';',
            next: Field::TextEnd,
            special: Special::TextIsWhole,
        },
    }
}

// Bytes are 32 to 126.
#[tactic(auto, using(std::proofs::lemmas::Bool::Decides::nat_tests), unfolding(crate::specs::Fields::printable))]
fn is_printable(byte: u8) -> bool
    ensures { result ≡ printable byte }
{
    matches!(byte, 32..=126)
}

// Whether the byte is an order letter.
#[tactic(auto, using(std::proofs::lemmas::Bool::Decides::nat_tests), unfolding(crate::specs::Fields::letter))]
fn is_letter(byte: u8) -> bool
    ensures { result ≡ letter byte }
{
    matches!(byte, b'L' | b'M')
}

// Whether a column field may hold the byte: none of `; : , =`.
// `matches!` was tried: a header of 128 columns took a third longer, since the compiler then makes four tests of each byte in place of one.
#[tactic(auto, using(std::proofs::lemmas::Bool::Decides::nat_tests), unfolding(crate::specs::Fields::plain))]
fn is_plain(byte: u8) -> bool
    ensures { result ≡ plain byte }
{
    byte != b';' && byte != b':' && byte != b',' && byte != b'='
}

// Whether the byte may stand as digit n of a count, from 0: the first is not `0`.
#[tactic(auto, using(std::proofs::lemmas::Bool::Decides::nat_tests), unfolding(crate::specs::Fields::digit))]
fn is_digit(n: usize, byte: u8) -> bool
    ensures { result ≡ digit n byte }
{
    if n == 0 {
        matches!(byte, b'1'..=b'9')
    } else {
        byte.is_ascii_digit()
    }
}

// Whether a field of the class may hold the byte as byte n, from 0, as far as the class goes.
#[tactic(auto, unfolding(crate::specs::Fields::holds))]
fn class_holds(class: Class, n: usize, byte: u8) -> bool
    ensures { result ≡ holds class n byte }
{
    match class {
        Class::Letters => is_letter(byte),
        Class::NoSemicolon => byte != b';',
        Class::Plain => is_plain(byte),
        Class::Digits => is_digit(n, byte),
    }
}

// Whether the byte may stand as byte n, from 0, of a field of the class.
#[tactic(auto, unfolding(crate::specs::Fields::allowed))]
fn is_allowed(class: Class, n: usize, byte: u8) -> bool
    ensures { result ≡ allowed class n byte }
{
    is_printable(byte) && class_holds(class, n, byte)
}

// Whether the byte is one more of the field, after n of them.
#[tactic(auto, using(std::proofs::lemmas::Bool::Decides::nat_tests), unfolding(crate::specs::Scan::takes))]
fn takes_byte(field: Field, n: usize, byte: u8) -> bool
    ensures { result ≡ takes field n byte }
{
    let rule = rule_of(field);
    n < rule.most && is_allowed(rule.holds, n, byte)
}

// Whether the byte closes the field after n bytes.
#[tactic(auto, using(std::proofs::lemmas::Bool::Decides::nat_tests), unfolding(crate::specs::Scan::closes))]
fn closes_at(field: Field, n: usize, byte: u8) -> bool
    ensures { result ≡ closes field n byte }
{
    let rule = rule_of(field);
    byte == rule.closer && rule.least <= n
}

// Whether the byte ends the columns: where a name would start, after one column at least.
#[tactic(auto, using(std::proofs::lemmas::Bool::Decides::nat_tests), unfolding(crate::specs::Scan::ends))]
fn ends_columns(special: Special, n: usize, cols: usize, byte: u8) -> bool
    ensures { result ≡ ends special n cols byte }
{
    special == Special::ColumnsMayEnd && byte == b';' && n == 0 && 0 < cols
}

// Whether the byte is a star that stands for a count.
#[tactic(auto, using(std::proofs::lemmas::Bool::Decides::nat_tests), unfolding(crate::specs::Scan::stars))]
fn is_star(special: Special, n: usize, byte: u8) -> bool
    ensures { result ≡ stars special n byte }
{
    special == Special::StarMayStand && byte == b'*' && n == 0
}

// Whether the byte is the colon of a column that lacks its last comma.
#[tactic(auto, using(std::proofs::lemmas::Bool::Decides::nat_tests), unfolding(crate::specs::Scan::lacks_comma))]
fn lacks_comma(special: Special, n: usize, byte: u8) -> bool
    ensures { result ≡ lacks_comma special n byte }
{
    special == Special::ColonMayStand && byte == b':' && 0 < n
}

// The columns that are whole once a field is closed.
fn columns_after(special: Special, cols: usize) -> usize
    requires { cols + 1 < 2 ^ 64 }
    ensures { result ≡ columns_after special cols }
{
    if special == Special::ColumnIsWhole {
        cols + 1
    } else {
        cols
    }
}

// What a byte does to a reading that neither takes it into its field nor closes the field by it: where the reading stands then, if
// anywhere.
fn step_specially(special: Special, n: usize, cols: usize, byte: u8) -> Option<Spot>
    requires { cols + 1 < 2 ^ 64 }
    ensures { result ≡ special_move special n cols byte }
{
    if ends_columns(special, n, cols, byte) {
        Some(Spot {
            field: Field::TextEnd,
            n: 0,
            cols: cols,
        })
    } else if is_star(special, n, byte) {
        Some(Spot {
            field: Field::AfterStar,
            n: 0,
            cols: cols,
        })
    } else if lacks_comma(special, n, byte) {
        Some(Spot {
            field: Field::Name,
            n: 0,
            cols: cols + 1,
        })
    } else {
        None
    }
}

// What a byte does to a reading that does not take it into its field.
fn step_past(field: Field, n: usize, cols: usize, byte: u8) -> Option<Spot>
    requires { cols + 1 < 2 ^ 64 }
    ensures { result ≡ past_move field n cols byte }
{
    let rule = rule_of(field);
    if closes_at(field, n, byte) {
        Some(Spot {
            field: rule.next,
            n: 0,
            cols: columns_after(rule.special, cols),
        })
    } else {
        step_specially(rule.special, n, cols, byte)
    }
}

// What the byte does to a reading. No reading of a text has 2^64 - 1 bytes of a field or whole columns behind it.
fn step(at: Spot, byte: u8) -> Option<Spot>
    requires { (at.n + 1 < 2 ^ 64) × (at.cols + 1 < 2 ^ 64) }
    ensures { result ≡ move at byte }
{
    if takes_byte(at.field, at.n, byte) {
        Some(Spot {
            field: at.field,
            n: at.n + 1,
            cols: at.cols,
        })
    } else {
        step_past(at.field, at.n, at.cols, byte)
    }
}

// What a reading that stands at the end of its text, of n bytes, has found.
fn finish_at(n: usize, special: Special, cols: usize) -> Result<usize, usize>
    ensures { result ≡ finish n special cols }
{
    if special == Special::TextIsWhole {
        Ok(cols)
    } else {
        Err(n)
    }
}

// The number of columns of a header text, or the first byte that cannot continue, found byte by byte.
fn scan_bytes(text: &[u8]) -> Result<usize, usize>
    ensures { result ≡ scan_of text.now }
{
    let mut at = Spot {
        field: Field::OrderLetter,
        n: 0,
        cols: 0,
    };
    for (i, byte) in text.iter().enumerate() {
        at = step(at, *byte).ok_or(i)?;
    }
    let rule = rule_of(at.field);
    finish_at(text.len(), rule.special, at.cols)
}

// ---- A text of the grammar passed field by field: each function answers the place past what it passes, or None where that does not
// stand there.

// The bytes that fields of one class hold, a type for each class, so that a loop over a field's bytes does not choose its test anew for
// each of them.
trait Bytes {
    ghost class: { Class };

    // Whether the byte may stand as byte n, from 0.
    fn may_stand(n: usize, byte: u8) -> bool
        ensures { result ≡ allowed class n byte };
}

struct Letters;

impl Bytes for Letters {
    ghost class = { Class.Letters };

    fn may_stand(n: usize, byte: u8) -> bool {
        is_allowed(Class::Letters, n, byte)
    }
}

struct NoSemicolon;

impl Bytes for NoSemicolon {
    ghost class = { Class.NoSemicolon };

    fn may_stand(n: usize, byte: u8) -> bool {
        is_allowed(Class::NoSemicolon, n, byte)
    }
}

struct Plain;

impl Bytes for Plain {
    ghost class = { Class.Plain };

    fn may_stand(n: usize, byte: u8) -> bool {
        is_allowed(Class::Plain, n, byte)
    }
}

struct Digits;

impl Bytes for Digits {
    ghost class = { Class.Digits };

    fn may_stand(n: usize, byte: u8) -> bool {
        is_allowed(Class::Digits, n, byte)
    }
}

// How many bytes from a place on may stand in a field of the class that has at most so many.
// A field of one byte has no loop, and no `usize::from` of its test: both were tried, and a header of 128 columns took 6 and 4 percent more instructions.
#[tactic(auto, using(crate::proofs::PassLaws::run_none, crate::proofs::PassLaws::run_more))]
#[inline(always)]
fn run_of<B: Bytes>(text: &[u8], from: usize, most: usize) -> usize
    requires { from ≤ length text.now }
    ensures { Run text.now B.class most from result }
{
    if most == 1 {
        return if from < text.len() && B::may_stand(0, text[from]) {
            1
        } else {
            0
        };
    }
    let room = most.min(text.len() - from);
    for n in 0..room {
        if !B::may_stand(n, text[from + n]) {
            return n;
        }
    }
    room
}

// Whether the byte stands at the place.
#[tactic(auto, using(std::proofs::lemmas::Bool::Decides::nat_tests), unfolding(crate::specs::Serving::Passing::stands))]
fn stands_at(text: &[u8], place: usize, byte: u8) -> bool
    ensures { result ≡ stands text.now place byte }
{
    place < text.len() && text[place] == byte
}

// The place past the byte that closes a field, of n bytes from a place on.
#[tactic(auto, using(crate::proofs::PassLaws::stands_says))]
fn past_closer(text: &[u8], from: usize, n: usize, least: usize, closer: u8) -> Option<usize>
    requires { from + n ≤ length text.now }
    ensures { IfSome result (λ place. Shut text.now from n least closer place) }
{
    let end = from + n;
    if least <= n && stands_at(text, end, closer) {
        Some(end + 1)
    } else {
        None
    }
}

// The place past a field and its closer. It is made for each field that is named in a call, so that its rule is not looked up.
#[inline(always)]
fn past_field<B: Bytes>(text: &[u8], from: usize, field: Field) -> Option<usize>
    requires { (from ≤ length text.now) × ((rule field).holds ≡ B.class) }
    ensures { IfSome result (λ place. Past text.now from place (spot field 0) (closed field)) }
{
    let rule = rule_of(field);
    let n = run_of::<B>(text, from, rule.most);
    past_closer(text, from, n, rule.least, rule.closer)
}

// The place past a count, a star or digits, and its closer.
#[tactic(auto, using(crate::proofs::PassLaws::stands_says))]
fn past_count(text: &[u8], from: usize) -> Option<usize>
    requires { from ≤ length text.now }
    ensures { IfSome result (λ place. Past text.now from place (spot Field.Numeral 0) (spot Field.Key 0)) }
{
    if stands_at(text, from, b'*') {
        past_field::<Plain>(text, from + 1, Field::AfterStar)
    } else {
        past_field::<Digits>(text, from, Field::Numeral)
    }
}

// The place past a column's last name and what ends the column, `,` and `:` or `:` alone.
fn past_last(text: &[u8], from: usize) -> Option<usize>
    requires { from ≤ length text.now }
    ensures { IfSome result (λ place. Past text.now from place (spot Field.Narrative 0) (λ cols. spot Field.Name 0 (cols + 1))) }
{
    let rule = rule_of(Field::Narrative);
    let n = run_of::<Plain>(text, from, rule.most);
    match past_closer(text, from, n, rule.least, rule.closer) {
        Some(end) => past_closer(text, end, 0, 0, b':'),
        None => past_closer(text, from, n, rule.least, b':'),
    }
}

// The place past a column.
fn past_column(text: &[u8], from: usize) -> Option<usize>
    requires { from ≤ length text.now }
    ensures { IfSome result (λ place. Past text.now from place (spot Field.Name 0) (λ cols. spot Field.Name 0 (cols + 1))) }
{
    let kind = past_field::<Plain>(text, from, Field::Name)?;
    let count = past_field::<Plain>(text, kind, Field::Kind)?;
    let key = past_count(text, count)?;
    let description = past_field::<Plain>(text, key, Field::Key)?;
    let value_table = past_field::<Plain>(text, description, Field::Description)?;
    let thematic_index = past_field::<Plain>(text, value_table, Field::ValueTable)?;
    let narrative = past_field::<Plain>(text, thematic_index, Field::ThematicIndex)?;
    past_last(text, narrative)
}

// The place past what stands before the columns.
fn past_title(text: &[u8]) -> Option<usize>
    ensures { IfSome result (λ place. Past text.now 0 place (spot Field.OrderLetter 0) (spot Field.Name 0)) }
{
    let description = past_field::<Letters>(text, 0, Field::OrderLetter)?;
    let narrative = past_field::<NoSemicolon>(text, description, Field::TableDescription)?;
    past_field::<NoSemicolon>(text, narrative, Field::TableNarrative)
}

// The number of columns of a text, if it is in the grammar.
#[tactic(auto, using(crate::proofs::PassLaws::counted_more, crate::proofs::PassLaws::counted_all))]
fn columns_of(text: &[u8]) -> Option<usize>
    ensures { IfSome result (λ cols. scan_of text.now ≡ Ok cols) }
{
    let first = past_title(text)?;
    let mut at = past_column(text, first)?;
    let mut cols = 1;
    while !stands_at(text, at, b';') {
        at = past_column(text, at)?;
        cols += 1;
    }
    if at + 1 == text.len() {
        Some(cols)
    } else {
        None
    }
}

// The number of columns of a header text, or the first byte that cannot continue: the text's length where it ends too soon. A text
// that is in the grammar is passed by its fields; only one that is not is read byte by byte, for the place.
pub fn scan_text(text: &[u8]) -> Result<usize, usize>
    ensures { result ≡ scan_of text.now }
{
    match columns_of(text) {
        Some(cols) => Ok(cols),
        None => scan_bytes(text),
    }
}
