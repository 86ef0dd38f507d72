// Opening a table with its lent index: 8 at 0 for a needed index under 8 bytes, 15 for the rows, 7 or 8.
#![tactic(auto)]

ghost use Rattle.std.specs.Prelude.{◌≡◌, cond, false, ◌+◌, ◌*◌, ◌-◌, ◌≤◌, ltb, length};
ghost use Rattle.laws.specs.Lowest.{lowest, found};
ghost use Rattle.refusal.specs.Order.{answered};
ghost use Rattle.limits.specs.Limits.{most_rows};
ghost use Rattle.opening.specs.Opening.{needs_index, entry_end, entry_wrong, size_wrong, head_wrong, index_refusal, fixed_refusal};
ghost use Rattle.opening.specs.Opening.{rows_said, body_refusal, open_refusal, opened_of};

use header::{Layout, Names};
use limits::MOST_ROWS;
use number::Order;
use refusal::{Kind, Refusal};

// An opened table: what its header says of the rows, and how many there are. Whoever has one may lend it with any file: rows past
// the millionth and columns past the limit are not there.
#[derive(Clone, Copy)]
pub struct Table {
    pub layout: Layout,
    pub rows: usize,
}

// The table, and where the names of its columns lie in the file (`header::column_among` finds one of them).
#[derive(Clone, Copy)]
pub struct Opened {
    pub table: Table,
    pub names: Names,
}

// The bytes after the header.
fn body_size(layout: &Layout, size: usize) -> usize
    ensures { result ≡ size - layout.now.start }
{
    size.saturating_sub(layout.start as usize)
}

// The rows of a table: whole ones in a fixed body, n in an index.
#[tactic(auto, using(std::proofs::lemmas::Bool::Decides::nat_tests), unfolding(crate::specs::Opening::rows_said))]
fn count_rows(index: &[u8], layout: &Layout, size: usize) -> usize
    ensures { result ≡ rows_said layout.now index.now size }
{
    if layout.width == 0 {
        number::read::<u32>(index, 0, layout.order) as usize
    } else {
        body_size(layout, size) / layout.width as usize
    }
}

// A needed index under 8 bytes.
#[tactic(auto, using(std::proofs::lemmas::Bool::Decides::nat_tests))]
fn lacks_head(index: &[u8], layout: &Layout) -> bool
    ensures { result ≡ cond (needs_index layout.now) (ltb (length index.now) 8) false }
{
    layout.width == 0 && index.len() < 8
}

// The header size is neither L nor L + 4.
#[tactic(auto, using(std::proofs::lemmas::Bool::Decides::nat_tests), unfolding(crate::specs::Opening::size_wrong))]
fn size_wrong(index: &[u8], layout: &Layout) -> bool
    ensures { result ≡ size_wrong layout.now index.now }
{
    let start = layout.start as usize;
    let size = number::read::<u32>(index, 4, layout.order) as usize;
    size != start && size + 4 != start
}

// The index has another length than its count says, or a wrong header size.
#[tactic(auto, using(std::proofs::lemmas::Bool::Decides::nat_tests), unfolding(crate::specs::Opening::head_wrong))]
fn head_wrong(index: &[u8], layout: &Layout) -> bool
    ensures { result ≡ head_wrong layout.now index.now }
{
    let n = number::read::<u32>(index, 0, layout.order) as usize;
    index.len() != 8 + 8 * n || size_wrong(index, layout)
}

// The lowest entry that does not start where the last row ended, in an index that has so many. Each entry is cut out first, so that the
// compiler leaves out the test of each number's place: with these tests an index took twice as long and more.
fn wrong_entry(index: &[u8], layout: &Layout, n: u32) -> Option<usize>
    requires { 8 + 8 * n ≤ length index.now }
    ensures { result ≡ found (lowest (entry_wrong layout.now index.now) n) }
{
    let mut end = layout.start as usize;
    for i in 0..n as usize {
        let at = 8 * (i + 1);
        let entry = &index[at..at + 8];
        let offset = number::read::<u32>(entry, 0, layout.order) as usize;
        if offset != end {
            return Some(i + 1);
        }
        end = offset + number::read::<u32>(entry, 4, layout.order) as usize;
    }
    None
}

// Where row k ends by its entry, which stands at 8k, and row k + 1 starts; row 1 starts at `first`. What is not in the index reads as 0.
pub fn entry_end(index: &[u8], order: Order, first: u32, k: usize) -> usize
    ensures { result ≡ entry_end order index.now first k }
{
    if k == 0 {
        return first as usize;
    }
    if index.len() / 8 < k {
        return 0;
    }
    let at = 8 * k;
    number::read::<u32>(index, at, order) as usize
        + number::read::<u32>(index, at + 4, order) as usize
}

// 8 for the head, for the lowest entry that starts elsewhere, for the last end.
fn judge_index(index: &[u8], layout: &Layout, size: usize) -> Result<(), Refusal>
    ensures { result ≡ answered (index_refusal layout.now index.now size) }
{
    if head_wrong(index, layout) {
        return Err(Kind::WrongIndex.at(0));
    }
    let n = number::read::<u32>(index, 0, layout.order);
    Kind::WrongIndex.at_lowest(wrong_entry(index, layout, n))?;
    if entry_end(index, layout.order, layout.start, n as usize) != size {
        return Err(Kind::WrongIndex.at(n as usize));
    }
    Ok(())
}

// 7 for a lent index, and for a body that is not whole rows.
#[tactic(auto, using(std::proofs::lemmas::Bool::Decides::nat_tests), unfolding(crate::specs::Opening::fixed_refusal))]
fn judge_fixed(index: &[u8], layout: &Layout, size: usize) -> Result<(), Refusal>
    requires { layout.now.width ≡ 0 → ⊥ }
    ensures { result ≡ answered (fixed_refusal layout.now index.now size) }
{
    if index.len() != 0 || body_size(layout, size) % layout.width as usize != 0 {
        return Err(Kind::WrongBody.at(size));
    }
    Ok(())
}

// The tests after the header's own: 8 at 0 for the lack of an index, 15, then 7 or 8.
fn judge_opening(index: &[u8], layout: &Layout, size: usize, most: usize) -> Result<(), Refusal>
    ensures { result ≡ answered (open_refusal layout.now index.now size most) }
{
    if lacks_head(index, layout) {
        return Err(Kind::WrongIndex.at(0));
    }
    if most.min(MOST_ROWS) < count_rows(index, layout, size) {
        return Err(Kind::OverLimit.at(0));
    }
    if layout.width == 0 {
        judge_index(index, layout, size)
    } else {
        judge_fixed(index, layout, size)
    }
}

// Opens a table with its lent index, for a caller that takes at most so many rows, and never over 1,000,000.
pub fn open_within(file: &[u8], index: &[u8], most: usize) -> Result<Opened, Refusal>
    ensures { result ≡ opened_of file.now index.now most }
{
    let head = header::read_header(file)?;
    judge_opening(index, &head.layout, file.len(), most)?;
    Ok(Opened {
        table: Table {
            layout: head.layout,
            rows: count_rows(index, &head.layout, file.len()),
        },
        names: head.names,
    })
}

// Opens a table with its lent index.
// Example: the ring table with L = 93 in a file of 121 bytes, and no index, has 2 rows of 12; one of 122 bytes is refused with 7 at 122.
pub fn open_table(file: &[u8], index: &[u8]) -> Result<Opened, Refusal>
    ensures { result ≡ opened_of file.now index.now most_rows }
{
    open_within(file, index, MOST_ROWS)
}
