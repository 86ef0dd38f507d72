// Four tables to the columns of a tile, for callers that are not Rattle.
ghost use Rattle.std.specs.Prelude.{◌≡◌};
ghost use Rattle.load.specs.Sources.{files};
ghost use Rattle.load.specs.Columns.{columns, lengths};
ghost use Rattle.load.specs.Load.{load_of};
ghost use Rattle.abi.specs.PlainLoads.{table_number, plain_loaded, columns_loaded};

use crate::PlainLoaded;
use load::{ColumnsMut, Counts, Finding, Sources, TableName};

// The tables by number: 1 edg, 2 fac, 3 rng, 4 cnd.
fn table_number(name: TableName) -> u32
    ensures { result ≡ table_number name }
{
    match name {
        TableName::Edg => 1,
        TableName::Fac => 2,
        TableName::Rng => 3,
        TableName::Cnd => 4,
    }
}

impl From<Result<Counts, Finding>> for PlainLoaded {
    ghost from_gives = { λ loaded plain. plain ≡ plain_loaded loaded };

    fn from(loaded: Result<Counts, Finding>) -> Self {
        match loaded {
            Ok(c) => PlainLoaded {
                edges: c.edges,
                faces: c.faces,
                rings: c.rings,
                nodes: c.nodes,
                ..PlainLoaded::default()
            },
            Err(found) => PlainLoaded {
                number: found.refusal.number,
                place: found.refusal.place,
                table: table_number(found.table),
                ..PlainLoaded::default()
            },
        }
    }
}

// Four tables and their indexes to the ten columns of a tile.
pub fn vumbarete_load(
    edg: &[u8],
    edx: &[u8],
    fac: &[u8],
    fax: &[u8],
    rng: &[u8],
    rnx: &[u8],
    cnd: &[u8],
    cnx: &[u8],
    most: usize,
    start_node: &mut [u32],
    end_node: &mut [u32],
    right_face: &mut [u32],
    left_face: &mut [u32],
    right_edge: &mut [u32],
    left_edge: &mut [u32],
    ring_ptr: &mut [u32],
    fac_id: &mut [u32],
    start_edge: &mut [u32],
    first_edge: &mut [u32],
) -> PlainLoaded
    ensures value { result ≡ plain_loaded (load_of (files edg.now edx.now fac.now fax.now
        rng.now rnx.now cnd.now cnx.now) most
        (lengths (columns start_node.old end_node.old right_face.old left_face.old
        right_edge.old left_edge.old ring_ptr.old fac_id.old
        start_edge.old first_edge.old))) }
    ensures first_edge_after { columns start_node.new end_node.new right_face.new left_face.new
        right_edge.new left_edge.new ring_ptr.new fac_id.new
        start_edge.new first_edge.new
        ≡ columns_loaded (files edg.now edx.now fac.now fax.now
        rng.now rnx.now cnd.now cnx.now) most
        (columns start_node.old end_node.old right_face.old left_face.old
        right_edge.old left_edge.old ring_ptr.old fac_id.old
        start_edge.old first_edge.old) }
{
    let sources = Sources {
        edg,
        edx,
        fac,
        fax,
        rng,
        rnx,
        cnd,
        cnx,
    };
    let mut columns = ColumnsMut {
        start_node,
        end_node,
        right_face,
        left_face,
        right_edge,
        left_edge,
        ring_ptr,
        fac_id,
        start_edge,
        first_edge,
    };
    load::load(&sources, most, &mut columns).into()
}
