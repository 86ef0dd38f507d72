// What a directory's files decide: whether cnx is read, which file is too large, and which file a refusal speaks of.
ghost use Rattle.std.specs.Prelude.{◌≡◌, cond, eqb};
ghost use Rattle.load.specs.declared.TableName.TheVariants.{Cnd};
ghost use Rattle.report.specs.declared.FileName.TheVariants.{Edg, Fac, Rng};
ghost use Rattle.directory.specs.Files.{too_large, has_triplet, shows_triplet};
ghost use Rattle.directory.specs.Concerned.{of_table, of_index, file_of_finding, ring_row, file_of_verdict};

use crate::Sizes;
use header::Layout;
use limits::MOST_BYTES;
use load::{Finding, TableName};
use refusal::{Kind, Refusal};
use report::FileName;

// The first file that is too large, in document 01's order; cnx only where it is read.
pub(crate) fn too_large(sizes: Sizes, cnx_read: bool) -> Option<FileName>
    ensures { result ≡ too_large sizes cnx_read }
{
    if MOST_BYTES < sizes.edg {
        return Some(FileName::Edg);
    }
    if MOST_BYTES < sizes.edx {
        return Some(FileName::Edx);
    }
    if MOST_BYTES < sizes.fac {
        return Some(FileName::Fac);
    }
    if MOST_BYTES < sizes.rng {
        return Some(FileName::Rng);
    }
    if MOST_BYTES < sizes.cnd {
        return Some(FileName::Cnd);
    }
    if cnx_read {
        if MOST_BYTES < sizes.cnx {
            return Some(FileName::Cnx);
        }
    }
    None
}

// Whether one of the columns is a triplet.
fn has_triplet(layout: &Layout) -> bool
    ensures { result ≡ has_triplet layout.now }
{
    for k in 0..limits::columns_within(layout.columns) {
        if layout.cols[k].kind.is_triplet() {
            return true;
        }
    }
    false
}

// "cnx if K occurs": whether the header of cnd is accepted and shows K.
#[tactic(auto, unfolding(crate::specs::Files::shows_triplet))]
pub fn shows_triplet(cnd: &[u8]) -> bool
    ensures { result ≡ shows_triplet cnd.now }
{
    match header::read_header(cnd) {
        Ok(head) => has_triplet(&head.layout),
        Err(_) => false,
    }
}

// The file of the table itself.
fn of_table(table: TableName) -> FileName
    ensures { result ≡ of_table table }
{
    match table {
        TableName::Edg => FileName::Edg,
        TableName::Fac => FileName::Fac,
        TableName::Rng => FileName::Rng,
        TableName::Cnd => FileName::Cnd,
    }
}

// The file of a node table's index, where it was read, or else of the table.
fn of_node_index(cnx_read: bool) -> FileName
    ensures { result ≡ of_index cnx_read Cnd }
{
    if cnx_read {
        return FileName::Cnx;
    }
    FileName::Cnd
}

// The file of the table's index, where that file was read.
fn of_index(cnx_read: bool, table: TableName) -> FileName
    ensures { result ≡ of_index cnx_read table }
{
    match table {
        TableName::Edg => FileName::Edx,
        TableName::Fac => FileName::Fac,
        TableName::Rng => FileName::Rng,
        TableName::Cnd => of_node_index(cnx_read),
    }
}

// The file that a refusal of loading speaks of: for 8 the index where it was read, else the table.
pub(crate) fn file_of_finding(cnx_read: bool, found: Finding) -> FileName
    ensures { result ≡ file_of_finding cnx_read found }
{
    let table = found.table;
    if found.refusal.number == Kind::WrongIndex.number() {
        return of_index(cnx_read, table);
    }
    of_table(table)
}

// Whether the place is a ring row whose face is out of range.
fn is_ring_row(fac_id: &[u32], faces: usize, place: usize) -> bool
    ensures { result ≡ ring_row fac_id.now faces place }
{
    if side::is_outside(fac_id.len(), place) {
        return false;
    }
    side::is_outside(faces, side::row(fac_id, place) as usize)
}

// "rng or fac for 28 by its place"
fn by_place(fac_id: &[u32], faces: usize, place: usize) -> FileName
    ensures { result ≡ cond (ring_row fac_id.now faces place) Rng Fac }
{
    if is_ring_row(fac_id, faces, place) {
        return FileName::Rng;
    }
    FileName::Fac
}

// "rng for 29 and 30", and edg for what is left.
fn by_number(number: u32) -> FileName
    ensures { result ≡ cond (eqb number 29) Rng (cond (eqb number 30) Rng Edg) }
{
    if number == Kind::WrongStart.number() {
        return FileName::Rng;
    }
    if number == Kind::CycleOwned.number() {
        return FileName::Rng;
    }
    FileName::Edg
}

// The file that a refusal of the check speaks of, in a tile with these ring faces and so many faces.
pub(crate) fn file_of_verdict(fac_id: &[u32], faces: usize, refused: Refusal) -> FileName
    ensures { result ≡ file_of_verdict fac_id.now faces refused }
{
    if refused.number == Kind::WrongFirstEdge.number() {
        return FileName::Cnd;
    }
    if refused.number == Kind::WrongRingRows.number() {
        return by_place(fac_id, faces, refused.place);
    }
    by_number(refused.number)
}
