// What the program writes of a directory, as bytes in a lent array: document 01's lines for the tile that its files say, or the refusal with
// its file, number and place. The columns, the owner marks and the side list are its own, so that nothing else is left changed.
#![tactic(auto)]

ghost use Rattle.std.specs.Prelude.{◌≡◌, ◌+◌, ◌*◌, ◌≤◌, length, Ok};
ghost use Rattle.std.proofs.lemmas.List.Edits.{sets};
ghost use Rattle.limits.specs.Limits.{program_rows, program_sides};
ghost use Rattle.report.specs.Lines.{line_room, ring_line, steps_line, with_front};
ghost use Rattle.directory.specs.Columns.{held};
ghost use Rattle.tile.specs.Walk.{steps_of};
ghost use Rattle.directory.specs.Outcome.{checked_of};
ghost use Rattle.teller.specs.Text.{text_space, accepted_text, loaded_text, text_of};

use directory::{Columns, Directory, Sizes};
use limits::{MOST_BUFFER, PROGRAM_ROWS, PROGRAM_SIDES};
use load::{ColumnsMut, Counts};
use refusal::Refusal;

// Room for every text, which has at most 62,062 bytes: as much as a buffer may have.
pub const TEXT_SPACE: usize = MOST_BUFFER;

// The steps of a walk. In an accepted tile every walk has them.
fn steps_of(walked: Result<usize, Refusal>) -> usize
    ensures { result ≡ steps_of walked }
{
    match walked {
        Ok(n) => n,
        Err(_) => 0,
    }
}

// A ring's line, written at a place of the text; the place after it.
fn add_ring(text: &mut [u8], at: usize, row: usize, face: u32, steps: usize) -> usize
    requires { at + line_room ≤ length text.old }
    ensures value { result ≡ at + length (ring_line row face steps) }
    ensures text_after { text.new ≡ sets text.old at (ring_line row face steps) }
{
    at + report::ring_line(row, face, steps, &mut text[at..])
}

// The last line, written at a place of the text; the place after it.
fn add_steps(text: &mut [u8], at: usize, all: usize) -> usize
    requires { at + line_room ≤ length text.old }
    ensures value { result ≡ at + length (steps_line all) }
    ensures text_after { text.new ≡ sets text.old at (steps_line all) }
{
    at + report::steps_line(all, &mut text[at..])
}

// The lines of an accepted tile: its counts, its rings row after row, and the steps of all.
fn tell_rings(counts: Counts, columns: &Columns, text: &mut [u8]) -> usize
    requires text_space_in_bounds { (text_space ≤ length text.old) × (counts.faces ≤ program_rows) × (counts.rings ≤ program_rows) }
    requires program_sides_value { checked_of counts columns.now program_sides ≡ Ok counts }
    ensures value { result ≡ length (accepted_text counts (held counts columns.now)) }
    ensures text_after { text.new ≡ with_front (accepted_text counts (held counts columns.now)) text.old }
{
    let mut sides = [0u32; PROGRAM_SIDES];
    let mut at = report::accept_line(counts, text);
    let mut all: usize = 0;
    for i in 0..counts.rings {
        let row = i + 1;
        let steps = steps_of(directory::walk_ring(counts, columns, row, &mut sides));
        at = add_ring(text, at, row, side::row(columns.fac_id, row), steps);
        all = all + steps;
    }
    add_steps(text, at, all)
}

// What is written of a loaded tile: its lines, or the check's refusal.
fn tell_loaded(counts: Counts, columns: &Columns, text: &mut [u8]) -> usize
    requires text_space { text_space ≤ length text.old }
    requires own_columns { (length columns.now.ring_ptr ≤ program_rows) × (length columns.now.fac_id ≤ program_rows) }
    ensures value { result ≡ length (loaded_text counts columns.now) }
    ensures text_after { text.new ≡ with_front (loaded_text counts columns.now) text.old }
{
    let mut marks = [0u32; PROGRAM_SIDES];
    match directory::check_loaded(counts, columns, &mut marks) {
        Ok(_) => tell_rings(counts, columns, text),
        Err(named) => report::refuse_line(named.file, named.refusal, text),
    }
}

// Judges the files of a directory, each with the size that it is said to have, and leaves what is to be written at the front of the text: how
// many bytes that is.
// Example: of tile MJ21 the lines `ACCEPT nodes 3 edges 3 faces 2 rings 2`, `ring 1 face 1 steps 3`, `ring 2 face 2 steps 3`, `steps 6`.
pub fn tell_tile(sizes: Sizes, lent: &Directory, text: &mut [u8; TEXT_SPACE]) -> usize
    ensures value { result ≡ length (text_of sizes lent.now) }
    ensures text_after { text.new ≡ with_front (text_of sizes lent.now) text.old }
{
    let mut start_node = [0u32; PROGRAM_ROWS];
    let mut end_node = [0u32; PROGRAM_ROWS];
    let mut right_face = [0u32; PROGRAM_ROWS];
    let mut left_face = [0u32; PROGRAM_ROWS];
    let mut right_edge = [0u32; PROGRAM_ROWS];
    let mut left_edge = [0u32; PROGRAM_ROWS];
    let mut ring_ptr = [0u32; PROGRAM_ROWS];
    let mut fac_id = [0u32; PROGRAM_ROWS];
    let mut start_edge = [0u32; PROGRAM_ROWS];
    let mut first_edge = [0u32; PROGRAM_ROWS];
    let mut own = ColumnsMut {
        start_node: &mut start_node,
        end_node: &mut end_node,
        right_face: &mut right_face,
        left_face: &mut left_face,
        right_edge: &mut right_edge,
        left_edge: &mut left_edge,
        ring_ptr: &mut ring_ptr,
        fac_id: &mut fac_id,
        start_edge: &mut start_edge,
        first_edge: &mut first_edge,
    };
    match directory::load_files(sizes, lent, &mut own) {
        Ok(counts) => {
            let columns = Columns {
                start_node: &start_node,
                end_node: &end_node,
                right_face: &right_face,
                left_face: &left_face,
                right_edge: &right_edge,
                left_edge: &left_edge,
                ring_ptr: &ring_ptr,
                fac_id: &fac_id,
                start_edge: &start_edge,
                first_edge: &first_edge,
            };
            tell_loaded(counts, &columns, text)
        }
        Err(named) => report::refuse_line(named.file, named.refusal, text),
    }
}
