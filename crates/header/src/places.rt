// Where things lie in a header. The head is the four bytes of L and the text.
ghost use Rattle.std.specs.Prelude.{◌≡◌, ◌+◌, ◌-◌, ◌≤◌, length, get_or, take, drop};
ghost use Rattle.header.specs.Places.{seek, most_digits, decimal, count_of, last_end, definition, first_place};
ghost use Rattle.header.specs.Serving.Stages.{most_head};

use crate::{Definition, Span};

// "1 to 5 digits"
const MOST_DIGITS: usize = 5;

// The byte at a place, 0 past the end.
fn byte_at(head: &[u8], p: usize) -> u8
    ensures { result ≡ get_or head.now p 0 }
{
    if p < head.len() { head[p] } else { 0 }
}

// The first place from p on that holds the byte, or the length.
fn seek_byte(head: &[u8], p: usize, byte: u8) -> usize
    ensures value { result ≡ seek head.now p byte }
    ensures upper_bound { result ≤ length head.now }
{
    for i in p..head.len() {
        if head[i] == byte {
            return i;
        }
    }
    head.len()
}

// What a digit says; no more than 207 whatever the byte.
fn digit_of(byte: u8) -> u32
    ensures value { result ≡ byte - 48 }
    ensures upper_bound { result ≤ 207 }
{
    byte.saturating_sub(b'0') as u32
}

// The number that the at most five bytes from p to e say.
fn number_from(head: &[u8], p: usize, e: usize) -> u32
    requires { (e ≤ length head.now) × (e ≤ p + most_digits) }
    ensures { result ≡ decimal 0 (take (e - p) (drop p head.now)) }
{
    let mut value: u32 = 0;
    for i in p..e {
        value = value * 10 + digit_of(head[i]);
    }
    value
}

// The number of the count that stands from p to e.
fn count_of(head: &[u8], p: usize, e: usize) -> u32
    requires { (e ≤ length head.now) × (p ≤ most_head + 3) }
    ensures { result ≡ count_of head.now p e }
{
    number_from(head, p, e.min(p + MOST_DIGITS))
}

// Where the last name of a definition ends, whose colon is given: at the comma just before it, or where that is missing at the colon.
fn last_end(head: &[u8], colon: usize) -> usize
    requires { colon ≤ length head.now }
    ensures { result ≡ last_end head.now colon }
{
    if 0 < colon && head[colon - 1] == b',' {
        colon - 1
    } else {
        colon
    }
}

// The definition at p: each field ends at the next byte that separates. Between a name and a count stand `=`, the type and `,`;
// between a count and a description `,`, the key and `,`; after the last name `,` and `:`, or `:` alone. The last name is therefore found
// by its colon: the next comma may be one of the next definition.
pub(crate) fn definition_at(head: &[u8], p: usize) -> Definition
    requires { length head.now ≤ most_head }
    ensures { result ≡ definition head.now p }
{
    let name_end = seek_byte(head, p, b'=');
    let count_end = seek_byte(head, name_end + 3, b',');
    let description_end = seek_byte(head, count_end + 3, b',');
    let value_end = seek_byte(head, description_end + 1, b',');
    let thematic_end = seek_byte(head, value_end + 1, b',');
    let colon = seek_byte(head, thematic_end + 1, b':');
    let narrative_end = last_end(head, colon);
    let count = count_of(head, name_end + 3, count_end);
    Definition {
        name: Span {
            start: p,
            end: name_end,
        },
        kind: byte_at(head, name_end + 1),
        star: byte_at(head, name_end + 3) == b'*',
        count: count,
        key: byte_at(head, count_end + 1),
        comma: narrative_end < colon,
        description: Span {
            start: count_end + 3,
            end: description_end,
        },
        value: Span {
            start: description_end + 1,
            end: value_end,
        },
        thematic: Span {
            start: value_end + 1,
            end: thematic_end,
        },
        narrative: Span {
            start: thematic_end + 1,
            end: narrative_end,
        },
        after: colon + 1,
    }
}

// The first definition stands past the third `;`.
pub(crate) fn first_definition(head: &[u8]) -> usize
    requires { length head.now ≤ most_head }
    ensures { result ≡ first_place head.now }
{
    let letter_end = seek_byte(head, 4, b';');
    let description_end = seek_byte(head, letter_end + 1, b';');
    let narrative_end = seek_byte(head, description_end + 1, b';');
    narrative_end + 1
}
