// The rows of a table by plain numbers, which are taken of the layout once for all rows, so that a row costs its own bytes and no copy
// of the layout: walked past column after column, and judged lowest first.
ghost use Rattle.std.specs.Prelude.{◌≡◌, min, ◌≤◌, ◌<◌, ◌-◌, length};
ghost use Rattle.refusal.specs.Order.{answered};
ghost use Rattle.limits.specs.Limits.{most_columns, most_rows};
ghost use Rattle.table.specs.Rows.{rows_refusal};
ghost use Rattle.table.specs.Plans.{bound_by, code_of, plan_of, id_offset, rows_by, code_end, plan_reach, places_left, walk_of, places_after};
ghost use Rattle.table.specs.Serving.RowPlans.{fixed_row, planned_row, planned_places, judged_by, places_by, place_by};

use crate::Unreached;
use header::{ColumnLayout, Layout, Span};
use limits::{MOST_COLUMNS, MOST_ROWS};
use number::Order;
use opening::Table;
use refusal::{Kind, Refusal};

// What the rows of a table need of its layout: the byte order; where row 1 starts; their width, or 0 where they have an index; the columns
// that there are, and which of them is `id`; where it starts in a row of one width, if it is there; and the codes of the columns, for
// rows that must be walked.
#[derive(Clone, Copy)]
pub struct Rows {
    pub order: Order,
    pub first: u32,
    pub width: u32,
    pub columns: usize,
    pub id: usize,
    pub offset: Option<usize>,
    pub plan: [u64; MOST_COLUMNS],
}

// The code of a column in a plan: a triplet's; from 1 on, a `*` field's with elements of 0, 1, .. 24 bytes; from 26 on, a field's of 0,
// 1, .. bytes.
const TRIPLET_CODE: u64 = 0;

const STAR_CODE: u64 = 1;

const FIXED_CODE: u64 = 26;

// The code of a column.
#[tactic(auto, unfolding(crate::specs::Plans::code_of))]
fn code_of(column: ColumnLayout) -> u64
    ensures { result ≡ code_of column }
{
    let kind = column.kind;
    if kind.is_triplet() {
        return TRIPLET_CODE;
    }
    if column.star {
        return STAR_CODE + kind.width() as u64;
    }
    FIXED_CODE + header::fixed_bytes(column) as u64
}

// The codes of the columns that there are.
pub fn plan_of(layout: Layout) -> [u64; MOST_COLUMNS]
    ensures { result ≡ plan_of layout }
{
    codes(&layout)
}

// The same of a layout that is lent, which has a kilobyte.
#[tactic(auto, unfolding(crate::specs::Plans::plan_of))]
fn codes(layout: &Layout) -> [u64; MOST_COLUMNS]
    ensures { result ≡ plan_of layout.now }
{
    let n = limits::columns_within(layout.columns);
    let mut plan = [0u64; MOST_COLUMNS];
    for j in 0..n {
        plan[j] = code_of(layout.cols[j]);
    }
    plan
}

// Where the id column starts in a row by its offset, if it is there.
#[tactic(auto, unfolding(crate::specs::Plans::id_offset))]
fn id_offset(layout: &Layout) -> Option<usize>
    ensures { result ≡ id_offset layout.now }
{
    let id = layout.id;
    if crate::lacks_column(layout, id) {
        return None;
    }
    let c = layout.cols[id - 1];
    Some(c.offset as usize)
}

// Where a field of this code ends.
#[tactic(auto, unfolding(crate::specs::Plans::code_end))]
fn code_end(file: &[u8], at: usize, end: usize, code: u64, order: Order) -> Result<usize, Unreached>
    requires { (at ≤ end) × (end ≤ length file.now) }
    ensures { result ≡ code_end order file.now end code at }
{
    if FIXED_CODE <= code {
        return crate::plain_end(at, end, (code - FIXED_CODE) as usize);
    }
    if code == TRIPLET_CODE {
        return crate::triplet_end(file, at, end, order);
    }
    crate::star_end(file, at, end, (code - STAR_CODE) as usize, order)
}

// The end of row k, and the start of row k + 1; past the millionth row, its end.
#[tactic(auto, unfolding(crate::specs::Plans::bound_by))]
fn bound_by(index: &[u8], order: Order, first: u32, width: u32, k: usize) -> usize
    ensures { result ≡ bound_by order index.now first width (min k most_rows) }
{
    let row = k.min(MOST_ROWS);
    if width == 0 {
        return opening::entry_end(index, order, first, row);
    }
    first as usize + width as usize * row
}

// A row of fixed width: 10 outside the file, 9 where there is no id column, then its id, which stands at an offset.
#[tactic(auto, unfolding(refusal::specs::Order::first))]
fn judge_fixed(
    file: &[u8],
    order: Order,
    offset: Option<usize>,
    lies: Span,
    row: usize,
) -> Result<(), Refusal>
    ensures { result ≡ answered (fixed_row order file.now offset lies.start lies.end row) }
{
    if crate::lies_outside(file, lies) {
        return Err(Kind::WrongRow.at(row));
    }
    match offset {
        Some(offset) => {
            let place = crate::place_within(lies.start, lies.end, offset);
            crate::judge_id(file, order, place, row)
        }
        None => Err(Kind::WrongId.at(row)),
    }
}

impl Rows {
    // The rows of a layout: only rows with an index need the plan of a walk.
    pub fn of(layout: &Layout) -> Rows
        ensures { result ≡ rows_by layout.now }
    {
        let plan = if layout.width == 0 {
            codes(layout)
        } else {
            [0u64; MOST_COLUMNS]
        };
        Rows {
            order: layout.order,
            first: layout.start,
            width: layout.width,
            columns: limits::columns_within(layout.columns),
            id: layout.id,
            offset: id_offset(layout),
            plan,
        }
    }

    // ---- where rows lie

    // The end of row k, and the start of row k + 1; past the millionth row, its end.
    pub fn bound(&self, index: &[u8], k: usize) -> usize
        ensures { result ≡ bound_by self.now.order index.now self.now.first self.now.width (min k most_rows) }
    {
        bound_by(index, self.order, self.first, self.width, k)
    }

    // ---- the walk over a row

    // The walk, where the row lies inside the file.
    fn walk_within(
        &self,
        file: &[u8],
        n: usize,
        lies: Span,
        places: &mut [usize; MOST_COLUMNS],
    ) -> Result<usize, Unreached>
        requires { (lies.start ≤ lies.end) × (lies.end ≤ length file.now) × (n ≤ most_columns) }
        ensures value { result ≡ plan_reach self.now.order file.now self.now.plan lies.start lies.end n }
        ensures places_after { places.new ≡ places_left (plan_reach self.now.order file.now self.now.plan lies.start lies.end) n places.old }
    {
        let mut at = lies.start;
        for j in 0..n {
            places[j] = at;
            at = code_end(file, at, lies.end, self.plan[j], self.order)?;
        }
        Ok(at)
    }

    // THE WALK over a row: past the columns 1..n that the plan tells, from where the row starts, and at most to its end. It keeps where
    // each column starts that it comes to, column k's at k - 1; the other places stay.
    #[tactic(auto, unfolding(crate::specs::Plans::walk_of, crate::specs::Plans::places_after))]
    pub fn walk(
        &self,
        file: &[u8],
        n: usize,
        lies: Span,
        places: &mut [usize; MOST_COLUMNS],
    ) -> Result<usize, Unreached>
        ensures value { result ≡ walk_of self.now.order file.now self.now.plan n lies.start lies.end }
        ensures places_after { places.new ≡ places_after self.now.order file.now self.now.plan n lies.start lies.end places.old }
    {
        if crate::lies_outside(file, lies) {
            return Err(Unreached::Short);
        }
        self.walk_within(file, n.min(MOST_COLUMNS), lies, places)
    }

    // ---- one row

    // A row that must be walked: 10 outside the file, 9 where there is no id column, 10 and 11 by column, 10 where it is not used up, then
    // its id, by the place that the walk kept.
    #[tactic(auto, unfolding(crate::specs::Serving::RowPlans::planned_row, crate::specs::Serving::RowPlans::planned_places, refusal::specs::Order::first))]
    fn judge_walked(
        &self,
        file: &[u8],
        lies: Span,
        row: usize,
        places: &mut [usize; MOST_COLUMNS],
    ) -> Result<(), Refusal>
        requires { (self.now.columns ≤ most_columns) × (length places.old ≡ most_columns) }
        ensures value { result ≡ answered (planned_row self.now.order file.now self.now.plan self.now.columns self.now.id lies.start lies.end row) }
        ensures places_after { places.new ≡ planned_places self.now.order file.now self.now.plan self.now.columns self.now.id lies.start lies.end row places.old }
    {
        if crate::lies_outside(file, lies) {
            return Err(Kind::WrongRow.at(row));
        }
        if crate::no_such(self.columns, self.id) {
            return Err(Kind::WrongId.at(row));
        }
        let reach = self.walk_within(file, self.columns, lies, places);
        crate::judge_end(reach, lies.end, row)?;
        crate::judge_id(file, self.order, places[self.id - 1], row)
    }

    // One row: the places are those of its columns where it was walked.
    #[tactic(auto, unfolding(crate::specs::Serving::RowPlans::judged_by, crate::specs::Serving::RowPlans::places_by))]
    pub(crate) fn judge(
        &self,
        file: &[u8],
        lies: Span,
        row: usize,
        places: &mut [usize; MOST_COLUMNS],
    ) -> Result<(), Refusal>
        requires { (self.now.columns ≤ most_columns) × (length places.old ≡ most_columns) }
        ensures value { result ≡ answered (judged_by self.now file.now lies.start lies.end row) }
        ensures places_after { places.new ≡ places_by self.now file.now lies.start lies.end row places.old }
    {
        if self.width == 0 {
            self.judge_walked(file, lies, row, places)
        } else {
            judge_fixed(file, self.order, self.offset, lies, row)
        }
    }
}

// ---- one row alone: where rows have one width, no `Rows` with its plan is made for it, which would cost more than the row

// Where a row lies: from the end of the one before it.
pub(crate) fn lies(index: &[u8], layout: &Layout, row: usize) -> Span
    requires { 0 < row }
    ensures start { result.start ≡ bound_by layout.now.order index.now layout.now.start layout.now.width (min (row - 1) most_rows) }
    ensures end { result.end ≡ bound_by layout.now.order index.now layout.now.start layout.now.width (min row most_rows) }
{
    Span {
        start: bound_by(index, layout.order, layout.start, layout.width, row - 1),
        end: bound_by(index, layout.order, layout.start, layout.width, row),
    }
}

// Its judgement: the places are those of its columns where it was walked.
#[tactic(auto, unfolding(crate::specs::Serving::RowPlans::judged_by, crate::specs::Serving::RowPlans::places_by))]
pub(crate) fn judge_row(
    file: &[u8],
    layout: &Layout,
    lies: Span,
    row: usize,
    places: &mut [usize; MOST_COLUMNS],
) -> Result<(), Refusal>
    requires { length places.old ≡ most_columns }
    ensures value { result ≡ answered (judged_by (rows_by layout.now) file.now lies.start lies.end row) }
    ensures places_after { places.new ≡ places_by (rows_by layout.now) file.now lies.start lies.end row places.old }
{
    if layout.width == 0 {
        judge_walked_row(file, layout, lies, row, places)
    } else {
        judge_fixed(file, layout.order, id_offset(layout), lies, row)
    }
}

// A row that must be walked, apart, so that a row of one width makes no room for the plan.
#[inline(never)]
fn judge_walked_row(
    file: &[u8],
    layout: &Layout,
    lies: Span,
    row: usize,
    places: &mut [usize; MOST_COLUMNS],
) -> Result<(), Refusal>
    requires { length places.old ≡ most_columns }
    ensures value { let r = rows_by layout.now in result ≡ answered (planned_row r.order file.now r.plan r.columns r.id lies.start lies.end row) }
    ensures places_after { let r = rows_by layout.now in places.new ≡ planned_places r.order file.now r.plan r.columns r.id lies.start lies.end row places.old }
{
    Rows::of(layout).judge_walked(file, lies, row, places)
}

// Where a column starts in a row that is judged: as the walk kept it, or by its offset where all rows have one width.
#[tactic(auto, unfolding(crate::specs::Serving::RowPlans::place_by))]
pub(crate) fn place(
    places: &[usize; MOST_COLUMNS],
    column: usize,
    width: u32,
    offset: usize,
    lies: Span,
) -> usize
    requires { (0 < column) × (column ≤ most_columns) }
    ensures { result ≡ place_by places.now column width offset lies.start lies.end }
{
    if width == 0 {
        return places[column - 1];
    }
    crate::place_within(lies.start, lies.end, offset)
}

// ---- all rows

// The rows of a table, lowest first, each from where the last ended.
#[tactic(auto, unfolding(crate::specs::Rows::rows_refusal))]
pub fn judge_rows(file: &[u8], index: &[u8], table: Table) -> Result<(), Refusal>
    ensures { result ≡ answered (rows_refusal file.now index.now table) }
{
    let layout = &table.layout;
    let rows = Rows::of(layout);
    let mut places = [0usize; MOST_COLUMNS];
    let mut start = layout.start as usize;
    for i in 0..table.rows.min(MOST_ROWS) {
        let end = rows.bound(index, i + 1);
        rows.judge(file, Span { start, end }, i + 1, &mut places)?;
        start = end;
    }
    Ok(())
}
