// A directory's files loaded, sizes first, and the tile that they say checked; with the file that a refusal speaks of.
#![tactic(auto)]

pub mod files;

ghost use Rattle.std.specs.Prelude.{◌≡◌, cond, ◌||◌, [], length, take, Err};
ghost use Rattle.refusal.specs.Order.{refusal};
ghost use Rattle.tile.specs.Walk.{walk_of, sides_written};
ghost use Rattle.load.specs.Columns.{lengths};
ghost use Rattle.load.specs.Lent.{contents, SameColumns};
ghost use Rattle.directory.specs.Columns.{held, short, edges_short, short_of};
ghost use Rattle.directory.specs.Files.{files_read, sizes_taken};
ghost use Rattle.directory.specs.Outcome.{named, loaded_as, loaded_of, columns_after, checked_by, checked_of, marks_checked};

use limits::PROGRAM_ROWS;
use load::{ColumnsMut, Counts, Finding, Sources};
use refusal::{Kind, Refusal};
use report::FileName;
use side::Edges;
use std::marker::Model;
use tile::Tile;

// How many bytes each file is said to have; any number above 65,536 stands for a larger file.
#[derive(Clone, Copy)]
pub struct Sizes {
    pub edg: usize,
    pub edx: usize,
    pub fac: usize,
    pub rng: usize,
    pub cnd: usize,
    pub cnx: usize,
}

// What is lent of the files of a directory: all of a file, or the first bytes of one too large.
#[derive(Drop)]
pub struct Directory<'a> {
    pub edg: &'a [u8],
    pub edx: &'a [u8],
    pub fac: &'a [u8],
    pub rng: &'a [u8],
    pub cnd: &'a [u8],
    pub cnx: &'a [u8],
}

impl<'a> Model for Directory<'a> {
    ghost use Rattle.directory.specs.Files.{Directory, directory};

    ghost Value = { Directory };

    ghost view = { λ d. directory d.edg.now d.edx.now d.fac.now d.rng.now d.cnd.now d.cnx.now };
}

// The ten columns of a tile, lent to be read.
#[derive(Drop)]
pub struct Columns<'a> {
    pub start_node: &'a [u32],
    pub end_node: &'a [u32],
    pub right_face: &'a [u32],
    pub left_face: &'a [u32],
    pub right_edge: &'a [u32],
    pub left_edge: &'a [u32],
    pub ring_ptr: &'a [u32],
    pub fac_id: &'a [u32],
    pub start_edge: &'a [u32],
    pub first_edge: &'a [u32],
}

impl<'a> Model for Columns<'a> {
    ghost use Rattle.load.specs.Columns.{Columns, columns};

    ghost Value = { Columns };

    ghost view = { λ c. columns c.start_node.now c.end_node.now c.right_face.now c.left_face.now c.right_edge.now
        c.left_edge.now c.ring_ptr.now c.fac_id.now c.start_edge.now c.first_edge.now };
}

// A refusal, and the file that it speaks of.
#[derive(Clone, Copy)]
pub struct Named {
    pub file: FileName,
    pub refusal: Refusal,
}

// 15 with the file that is over a limit.
fn over_limit(file: FileName) -> Named
    ensures { result ≡ named file (refusal 15 0) }
{
    Named {
        file,
        refusal: Kind::OverLimit.at(0),
    }
}

// ---- loaded

// cnx where it was read, else nothing.
fn lent_index<'a>(cnx: &'a [u8], cnx_read: bool) -> &'a [u8]
    ensures { result.now ≡ cond cnx_read cnx.now [] }
{
    if cnx_read {
        return cnx;
    }
    &cnx[0..0]
}

// The size of each file: what it is said to have, and never less than what is lent of it.
fn take_sizes(sizes: Sizes, lent: &Directory) -> Sizes
    ensures { result ≡ sizes_taken sizes lent.now }
{
    Sizes {
        edg: sizes.edg.max(lent.edg.len()),
        edx: sizes.edx.max(lent.edx.len()),
        fac: sizes.fac.max(lent.fac.len()),
        rng: sizes.rng.max(lent.rng.len()),
        cnd: sizes.cnd.max(lent.cnd.len()),
        cnx: sizes.cnx.max(lent.cnx.len()),
    }
}

// What loading found, with the file that its refusal speaks of.
fn loaded_as(cnx_read: bool, found: Result<Counts, Finding>) -> Result<Counts, Named>
    ensures { result ≡ loaded_as cnx_read found }
{
    match found {
        Ok(counts) => Ok(counts),
        Err(finding) => Err(Named {
            file: files::file_of_finding(cnx_read, finding),
            refusal: finding.refusal,
        }),
    }
}

// The files of a directory, each with the size that it is said to have, loaded to the front of ten columns; a file too large may be lent in
// part. cnx counts only where cnd shows K. A refusal changes nothing.
pub fn load_files(sizes: Sizes, lent: &Directory, columns: &mut ColumnsMut) -> Result<Counts, Named>
    ensures value { result ≡ loaded_of sizes lent.now (lengths (contents columns.old)) }
    ensures columns_after { contents columns.new ≡ columns_after result (files_read lent.now) (contents columns.old) }
    ensures same_columns { SameColumns columns.old columns.new }
{
    let cnx_read = files::shows_triplet(lent.cnd);
    if let Some(file) = files::too_large(take_sizes(sizes, lent), cnx_read) {
        return Err(over_limit(file));
    }
    let none = &lent.cnd[0..0];
    let sources = Sources {
        edg: lent.edg,
        edx: lent.edx,
        fac: lent.fac,
        fax: none,
        rng: lent.rng,
        rnx: none,
        cnd: lent.cnd,
        cnx: lent_index(lent.cnx, cnx_read),
    };
    loaded_as(cnx_read, load::load(&sources, PROGRAM_ROWS, columns))
}

// ---- checked, and walked

// The first n of a column, or as many as it has.
fn front_of<'a>(column: &'a [u32], n: usize) -> &'a [u32]
    ensures { result.now ≡ take n column.now }
{
    if column.len() <= n {
        return column;
    }
    &column[0..n]
}

// The check's verdict, with the file that its refusal speaks of, in a tile with these ring faces and so many faces.
fn checked_by(
    counts: Counts,
    fac_id: &[u32],
    faces: usize,
    verdict: Result<(), Refusal>,
) -> Result<Counts, Named>
    ensures { result ≡ checked_by counts fac_id.now faces verdict }
{
    match verdict {
        Ok(()) => Ok(counts),
        Err(refusal) => Err(Named {
            file: files::file_of_verdict(fac_id, faces, refusal),
            refusal,
        }),
    }
}

impl<'a> Columns<'a> {
    // The tile that stands at the front of the columns, with so many rows of each table.
    fn held(&self, counts: Counts) -> Tile<'a>
        ensures { result ≡ held counts self.now }
    {
        Tile {
            edges: Edges {
                start_node: front_of(self.start_node, counts.edges),
                end_node: front_of(self.end_node, counts.edges),
                right_face: front_of(self.right_face, counts.edges),
                left_face: front_of(self.left_face, counts.edges),
                right_edge: front_of(self.right_edge, counts.edges),
                left_edge: front_of(self.left_edge, counts.edges),
            },
            ring_ptr: front_of(self.ring_ptr, counts.faces),
            fac_id: front_of(self.fac_id, counts.rings),
            start_edge: front_of(self.start_edge, counts.rings),
            first_edge: front_of(self.first_edge, counts.nodes),
        }
    }
}

// Whether one of the six columns of edges has not so many rows.
fn edges_short(counts: Counts, columns: &Columns) -> bool
    ensures { result ≡ edges_short counts columns.now }
{
    let n = counts.edges;
    columns.start_node.len() < n
        || columns.end_node.len() < n
        || columns.right_face.len() < n
        || columns.left_face.len() < n
        || columns.right_edge.len() < n
        || columns.left_edge.len() < n
}

// Whether one of the two columns of rings has not so many rows.
fn rings_short(counts: Counts, columns: &Columns) -> bool
    ensures { result ≡ (short counts.rings columns.now.fac_id || short counts.rings columns.now.start_edge) }
{
    columns.fac_id.len() < counts.rings || columns.start_edge.len() < counts.rings
}

// The first table of which a column is shorter than the counts say.
fn short_table(counts: Counts, columns: &Columns) -> Option<FileName>
    ensures { result ≡ short_of counts columns.now }
{
    if edges_short(counts, columns) {
        return Some(FileName::Edg);
    }
    if columns.ring_ptr.len() < counts.faces {
        return Some(FileName::Fac);
    }
    if rings_short(counts, columns) {
        return Some(FileName::Rng);
    }
    if columns.first_edge.len() < counts.nodes {
        return Some(FileName::Cnd);
    }
    None
}

// The check of the tile that stands at the front of ten columns. Counts that the columns cannot have are refused.
pub fn check_loaded(counts: Counts, columns: &Columns, marks: &mut [u32]) -> Result<Counts, Named>
    ensures value { result ≡ checked_of counts columns.now (length marks.old) }
    ensures marks_after { marks.new ≡ marks_checked counts columns.now marks.old }
{
    if let Some(file) = short_table(counts, columns) {
        return Err(over_limit(file));
    }
    let tile = columns.held(counts);
    let verdict = tile::check(&tile, marks);
    checked_by(counts, tile.fac_id, tile.ring_ptr.len(), verdict)
}

// The walk from a ring row of the tile that stands at the front of ten columns: its steps, and its sides.
pub fn walk_ring(
    counts: Counts,
    columns: &Columns,
    row: usize,
    sides: &mut [u32],
) -> Result<usize, Refusal>
    ensures value { result ≡ walk_of (held counts columns.now) row (length sides.old) }
    ensures sides_after { sides.new ≡ sides_written (held counts columns.now) row result sides.old }
{
    tile::walk(&columns.held(counts), row, sides)
}
