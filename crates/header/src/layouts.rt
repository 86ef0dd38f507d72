// The definitions gathered in one pass: tested one by one (4), and laid out for the rows.
ghost use Rattle.std.specs.Prelude.{◌≡◌, cond, true, ◌≤◌, length};
ghost use Rattle.limits.specs.Limits.{most_columns};
ghost use Rattle.field.specs.Fields.{type_of};
ghost use Rattle.header.specs.Judge.{key_listed, sound};
ghost use Rattle.header.specs.Layouts.{kind_of, varies, count_kept, blank_column};
ghost use Rattle.header.specs.Serving.Stages.{most_head, laid_after, gathered_of};

use crate::{ColumnLayout, Definition, Kept, NameSpan, Names, places};
use field::FieldType;
use limits::MOST_COLUMNS;
use refusal::{Kind, Refusal};

// The type of a letter; text where it is not listed.
fn kind_of(letter: u8) -> FieldType
    ensures { result ≡ kind_of (type_of letter) }
{
    FieldType::of(letter).unwrap_or(FieldType::Text)
}

// Whether a field of the definition has no fixed width.
fn is_varying(d: Definition) -> bool
    ensures { result ≡ varies d }
{
    d.star || kind_of(d.kind).is_triplet()
}

// The count of a sound definition, 0 for a star. No other count has more than sixteen bits.
fn count_kept(d: Definition) -> u16
    requires { sound d ≡ true }
    ensures { result ≡ count_kept d }
{
    if d.star { 0 } else { d.count as u16 }
}

// What a row needs of a column.
fn lay_column(d: Definition, offset: u32) -> ColumnLayout
    requires { sound d ≡ true }
    ensures { result ≡ laid_after d offset }
{
    let kind = kind_of(d.kind);
    let count = count_kept(d);
    ColumnLayout {
        kind: kind,
        star: d.star,
        count: count,
        offset: offset,
    }
}

// What stands past the last column of a layout.
pub(crate) fn blank_column() -> ColumnLayout
    ensures { result ≡ blank_column }
{
    ColumnLayout {
        kind: FieldType::Text,
        star: false,
        count: 0,
        offset: 0,
    }
}

fn key_listed(key: u8) -> bool
    ensures { result ≡ key_listed key }
{
    matches!(key, b'P' | b'U' | b'N')
}

// Whether type, key and count of a definition are right (4).
pub(crate) fn is_sound(d: Definition) -> bool
    ensures { result ≡ sound d }
{
    match FieldType::of(d.kind) {
        Some(kind) => key_listed(d.key) && kind.count_right(d.star, d.count),
        None => false,
    }
}

// One pass over no more definitions than the limit: the lowest column that has a wrong type, key or count, or what is kept of the columns.
pub(crate) fn gather(head: &[u8], n: usize) -> Result<Kept, Refusal>
    requires { (length head.now ≤ most_head) × (n ≤ most_columns) }
    ensures { result ≡ gathered_of head.now n }
{
    let blank = blank_column();
    let mut cols = [blank; MOST_COLUMNS];
    let mut names = Names {
        spans: [NameSpan { start: 0, end: 0 }; MOST_COLUMNS],
    };
    let mut keys = [0u8; MOST_COLUMNS];
    let first = places::first_definition(head);
    let mut at = first;
    let mut bytes: u32 = 0;
    let mut varying = false;
    for k in 0..n {
        let d = places::definition_at(head, at);
        if !is_sound(d) {
            return Err(Kind::WrongDefinition.at(k + 1));
        }
        let column = lay_column(d, bytes);
        names.spans[k] = NameSpan {
            start: d.name.start as u16,
            end: d.name.end as u16,
        };
        keys[k] = d.key;
        cols[k] = column;
        bytes = bytes + crate::fixed_bytes(column);
        varying = varying || is_varying(d);
        at = d.after;
    }
    Ok(Kept {
        names: names,
        keys: keys,
        cols: cols,
        width: if varying { 0 } else { bytes },
        first: first,
        after: at,
    })
}
