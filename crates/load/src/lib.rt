// Four tables to the ten columns of a tile: opened, tested, every row judged; then, and only then, written.
#![tactic(auto)]

mod cells;
mod fitting;

ghost use Rattle.std.specs.Prelude.{◌≡◌};
ghost use Rattle.table.specs.Rows.{rows_refusal};
ghost use Rattle.load.specs.Sources.{file_of, index_of, table_in, in_tables};
ghost use Rattle.load.specs.Columns.{lengths};
ghost use Rattle.load.specs.Lent.{contents, SameColumns};
ghost use Rattle.load.specs.Load.{finding, reported, rows_finding, counts, load_of, columns_left};
ghost use Rattle.load.specs.Serving.Named.{tables_among};
ghost use Rattle.load.specs.Serving.Stages.{opened_as, opened_all, all_rows_finding, judged_of};

use opening::Opened;
use refusal::Refusal;
use std::marker::Model;

#[derive(Clone, Copy, Debug, PartialEq, Eq)]
pub enum TableName {
    Edg,
    Fac,
    Rng,
    Cnd,
}

// A refusal, and the table that it speaks of.
#[derive(Clone, Copy)]
pub struct Finding {
    pub table: TableName,
    pub refusal: Refusal,
}

#[derive(Clone, Copy)]
pub struct Counts {
    pub edges: usize,
    pub faces: usize,
    pub rings: usize,
    pub nodes: usize,
}

// The files of the four tables, each with its lent index.
#[derive(Drop)]
pub struct Sources<'a> {
    pub edg: &'a [u8],
    pub edx: &'a [u8],
    pub fac: &'a [u8],
    pub fax: &'a [u8],
    pub rng: &'a [u8],
    pub rnx: &'a [u8],
    pub cnd: &'a [u8],
    pub cnx: &'a [u8],
}

impl<'a> Model for Sources<'a> {
    ghost use Rattle.load.specs.Sources.{Files, files};

    ghost Value = { Files };

    ghost view = { λ s. files s.edg.now s.edx.now s.fac.now s.fax.now s.rng.now s.rnx.now s.cnd.now s.cnx.now };
}

impl<'a> Sources<'a> {
    // The file of a table.
    fn file(&self, table: TableName) -> &'a [u8]
        ensures { result.now ≡ file_of self.now table }
    {
        match table {
            TableName::Edg => self.edg,
            TableName::Fac => self.fac,
            TableName::Rng => self.rng,
            TableName::Cnd => self.cnd,
        }
    }

    // The index of a table.
    fn index(&self, table: TableName) -> &'a [u8]
        ensures { result.now ≡ index_of self.now table }
    {
        match table {
            TableName::Edg => self.edx,
            TableName::Fac => self.fax,
            TableName::Rng => self.rnx,
            TableName::Cnd => self.cnx,
        }
    }
}

// The ten columns of a tile, lent to be written.
#[derive(Drop)]
pub struct ColumnsMut<'a> {
    pub start_node: &'a mut [u32],
    pub end_node: &'a mut [u32],
    pub right_face: &'a mut [u32],
    pub left_face: &'a mut [u32],
    pub right_edge: &'a mut [u32],
    pub left_edge: &'a mut [u32],
    pub ring_ptr: &'a mut [u32],
    pub fac_id: &'a mut [u32],
    pub start_edge: &'a mut [u32],
    pub first_edge: &'a mut [u32],
}

// Of each of the four tables one.
#[derive(Clone, Copy)]
pub struct OfTables<T> {
    pub edg: T,
    pub fac: T,
    pub rng: T,
    pub cnd: T,
}

impl<T> OfTables<T> {
    // That of a table.
    fn of(&self, table: TableName) -> &T
        ensures { result.now ≡ in_tables self.now table }
    {
        match table {
            TableName::Edg => &self.edg,
            TableName::Fac => &self.fac,
            TableName::Rng => &self.rng,
            TableName::Cnd => &self.cnd,
        }
    }
}

// What the writing needs of a tile that passes all tests: its tables, and the numbers of the ten columns by their places.
#[derive(Clone, Copy)]
struct Judged {
    opened: OfTables<Opened>,
    columns: [usize; 10],
}

// ---- opening

fn open(sources: &Sources, table: TableName, most: usize) -> Result<Opened, Finding>
    ensures { result ≡ opened_as sources.now most table }
{
    match opening::open_within(sources.file(table), sources.index(table), most) {
        Ok(opened) => Ok(opened),
        Err(refusal) => Err(Finding { table, refusal }),
    }
}

// Opens the four tables in turn, or says what the first that is refused says.
fn open_all(sources: &Sources, most: usize) -> Result<OfTables<Opened>, Finding>
    ensures { result ≡ opened_all sources.now most }
{
    Ok(OfTables {
        edg: open(sources, TableName::Edg, most)?,
        fac: open(sources, TableName::Fac, most)?,
        rng: open(sources, TableName::Rng, most)?,
        cnd: open(sources, TableName::Cnd, most)?,
    })
}

// ---- rows

// The rows of one table.
fn judge_rows(sources: &Sources, table: TableName, opened: &OfTables<Opened>) -> Result<(), Finding>
    ensures { result ≡ reported (rows_finding sources.now (tables_among opened.now) table) }
{
    match table::rows::judge_rows(
        sources.file(table),
        sources.index(table),
        opened.of(table).table,
    ) {
        Ok(()) => Ok(()),
        Err(refusal) => Err(Finding { table, refusal }),
    }
}

// The rows table by table.
fn judge_all_rows(sources: &Sources, opened: &OfTables<Opened>) -> Result<(), Finding>
    ensures { result ≡ reported (all_rows_finding sources.now (tables_among opened.now)) }
{
    judge_rows(sources, TableName::Edg, opened)?;
    judge_rows(sources, TableName::Fac, opened)?;
    judge_rows(sources, TableName::Rng, opened)?;
    judge_rows(sources, TableName::Cnd, opened)
}

// ---- the load

// All tests in order; rows only of a tile that passes those before them. `lengths` are those of the ten lent columns.
fn judge(sources: &Sources, most: usize, lengths: [usize; 10]) -> Result<Judged, Finding>
    ensures { result ≡ judged_of sources.now most lengths }
{
    let opened = open_all(sources, most)?;
    let columns = fitting::judge_fit(sources, &opened, lengths)?;
    judge_all_rows(sources, &opened)?;
    Ok(Judged { opened, columns })
}

// How long each of the ten columns is.
fn lengths(columns: &ColumnsMut) -> [usize; 10]
    ensures { result ≡ lengths (contents columns.now) }
{
    [
        columns.start_node.len(),
        columns.end_node.len(),
        columns.right_face.len(),
        columns.left_face.len(),
        columns.right_edge.len(),
        columns.left_edge.len(),
        columns.ring_ptr.len(),
        columns.fac_id.len(),
        columns.start_edge.len(),
        columns.first_edge.len(),
    ]
}

// Four tables and their indexes to ten columns; `most` is the most rows that the caller takes of a table, and never over 1,000,000.
pub fn load(sources: &Sources, most: usize, columns: &mut ColumnsMut) -> Result<Counts, Finding>
    ensures value { result ≡ load_of sources.now most (lengths (contents columns.old)) }
    ensures columns_after { contents columns.new ≡ columns_left result sources.now most (contents columns.old) }
    ensures same_columns { SameColumns columns.old columns.new }
{
    let judged = judge(sources, most, lengths(columns))?;
    let opened = &judged.opened;
    let numbers = judged.columns;
    cells::write_edges(
        sources.edg,
        sources.edx,
        &opened.edg.table,
        &numbers,
        columns,
    );
    cells::write_column(
        sources.fac,
        sources.fax,
        &opened.fac.table,
        numbers[6],
        columns.ring_ptr,
    );
    cells::write_column(
        sources.rng,
        sources.rnx,
        &opened.rng.table,
        numbers[7],
        columns.fac_id,
    );
    cells::write_column(
        sources.rng,
        sources.rnx,
        &opened.rng.table,
        numbers[8],
        columns.start_edge,
    );
    cells::write_column(
        sources.cnd,
        sources.cnx,
        &opened.cnd.table,
        numbers[9],
        columns.first_edge,
    );
    Ok(Counts {
        edges: opened.edg.table.rows,
        faces: opened.fac.table.rows,
        rings: opened.rng.table.rows,
        nodes: opened.cnd.table.rows,
    })
}
