// The tests of a header in their order.
ghost use Rattle.std.specs.Prelude.{◌≡◌, not, ◌&&◌, ◌≤◌, ◌<◌, eqb, ltb, length, get_or, drop, Some};
ghost use Rattle.laws.specs.Lowest.{lowest};
ghost use Rattle.refusal.specs.Order.{first_of, unless};
ghost use Rattle.number.specs.Bytes.{order_of};
ghost use Rattle.grammar.specs.Scan.{scan_of};
ghost use Rattle.limits.specs.Limits.{most_columns};
ghost use Rattle.header.specs.Places.{place_after};
ghost use Rattle.header.specs.Judge.{key_p};
ghost use Rattle.header.specs.Serving.Stages.{most_head, unsound, id_laid, other_key_in, id_wrong_at, column_tests, accepted_of};
ghost use Rattle.header.specs.Serving.Stages.{judged_text, judged_file};

use crate::{ColumnLayout, Header, Judged, Layout, layouts, places};
use limits::{MOST_COLUMNS, MOST_TEXT};
use number::Order;
use refusal::{Kind, Refusal};

// "with type I, count 1, key P"
fn id_sound(column: ColumnLayout, key: u8) -> bool
    ensures { result ≡ id_laid column key }
{
    column.kind.is_integer() && !column.star && column.count == 1 && key == b'P'
}

// Whether a column other than `id` has key P.
fn key_elsewhere(keys: &[u8; MOST_COLUMNS], n: usize, id: usize) -> bool
    requires { n ≤ most_columns }
    ensures { result ≡ ltb 0 (lowest (other_key_in keys.now id) n) }
{
    for k in 0..n {
        if keys[k] == b'P' && k + 1 != id {
            return true;
        }
    }
    false
}

// Whether the rule of the `id` column, which this one is, or of key P is broken (6).
fn id_wrong(column: ColumnLayout, keys: &[u8; MOST_COLUMNS], n: usize, id: usize) -> bool
    requires { (n ≤ most_columns) × (0 < id) × (id ≤ n) }
    ensures { result ≡ id_wrong_at column keys.now n id }
{
    !id_sound(column, keys[id - 1]) || key_elsewhere(keys, n, id)
}

// 4 at the lowest column past the limit that has a wrong type, key or count, else 5 at the first past it: nothing is kept of these.
fn judge_past(head: &[u8], after: usize, n: usize) -> Refusal
    requires head_len_bound { (length head.now ≤ most_head) × (most_columns < n) }
    requires after_value { (after ≡ place_after head.now most_columns) × (lowest (unsound head.now) most_columns ≡ 0) }
    ensures value { result ≡ first_of (column_tests head.now n) }
    ensures number_nonzero { 0 < result.number }
{
    let mut at = after;
    for k in MOST_COLUMNS..n {
        let d = places::definition_at(head, at);
        if !layouts::is_sound(d) {
            return Kind::WrongDefinition.at(k + 1);
        }
        at = d.after;
    }
    Kind::WrongColumns.at(MOST_COLUMNS + 1)
}

// 4, 5 for more columns than the limit, 5 for a name, then 6. What is kept has more than a kilobyte, so that it is given on once, at the
// end, and to no other function.
fn judge_columns(head: &[u8], order: Order, n: usize) -> Result<Judged, Refusal>
    requires { length head.now ≤ most_head }
    ensures { result ≡ unless (first_of (column_tests head.now n)) (accepted_of order (length head.now) head.now n) }
{
    let kept = layouts::gather(head, limits::columns_within(n))?;
    if MOST_COLUMNS < n {
        return Err(judge_past(head, kept.after, n));
    }
    Kind::WrongColumns.at_lowest(kept.names.doubled(head, n))?;
    let Some(id) = kept.names.column(head, n, b"id") else {
        return Err(Kind::WrongKey.at(0));
    };
    if id_wrong(kept.cols[id - 1], &kept.keys, n, id) {
        return Err(Kind::WrongKey.at(0));
    }
    Ok(Judged {
        header: Header {
            layout: Layout {
                order: order,
                start: head.len() as u32,
                columns: n,
                id: id,
                width: kept.width,
                cols: kept.cols,
            },
            names: kept.names,
        },
        first: kept.first,
        after: kept.after,
    })
}

// 3, then the columns.
fn judge_text(head: &[u8], order: Order) -> Result<Judged, Refusal>
    requires { (4 ≤ length head.now) × (length head.now ≤ most_head) }
    ensures { result ≡ judged_text order head.now (scan_of (drop 4 head.now)) }
{
    match grammar::scan_text(&head[4..]) {
        Ok(n) => judge_columns(head, order, n),
        Err(i) => Err(Kind::NotInGrammar.at(i + 4)),
    }
}

// 1 and 15 by L, which is read in the file's order, then the text.
fn judge_sized(file: &[u8], order: Order) -> Result<Judged, Refusal>
    requires { (5 ≤ length file.now) × (order_of (get_or file.now 4 0) ≡ Some order) }
    ensures { result ≡ judged_file file.now }
{
    let size = number::read::<u32>(file, 0, order) as usize;
    if file.len() < size + 4 {
        return Err(Kind::CutOff.at(file.len()));
    }
    if MOST_TEXT < size {
        return Err(Kind::OverLimit.at(0));
    }
    judge_text(&file[0..size + 4], order)
}

// All tests of a header in their order.
pub(crate) fn judge_file(file: &[u8]) -> Result<Judged, Refusal>
    ensures { result ≡ judged_file file.now }
{
    if file.len() < 5 {
        return Err(Kind::CutOff.at(file.len()));
    }
    match number::order_of(file[4]) {
        Some(order) => judge_sized(file, order),
        None => Err(Kind::NoOrderLetter.at(4)),
    }
}
