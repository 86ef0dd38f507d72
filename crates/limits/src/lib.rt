// The limits of document 01 as the requests of document 02 amend them, each said once in code. `specs/Limits` says them once for the
// definitions; a proof that needs both finds them equal by their values.
#![tactic(auto)]

ghost use Rattle.std.specs.Prelude.{◌≡◌, min};
ghost use Rattle.limits.specs.Limits.{most_columns};

// "15: L over 32,767"
pub const MOST_TEXT: usize = 32767;

// "5: more than 128 columns (place 129)" (No. 6: "Raise 64 columns to 128")
pub const MOST_COLUMNS: usize = 128;

// "15: over 1,000,000 rows"
pub const MOST_ROWS: usize = 1000000;

// The program: "each at most 65,536 bytes, with at most 2,000 rows per table" (No. 6: "and the program's 1,000 rows to 2,000")
pub const MOST_BYTES: usize = 65536;

pub const PROGRAM_ROWS: usize = 2000;

// An edge has two sides.
pub const PROGRAM_SIDES: usize = 2 * PROGRAM_ROWS;

// "No buffer in the program may pass 65,536 bytes." (No. 6)
pub const MOST_BUFFER: usize = 65536;

// What the program's buffers leave of that: a file, the numbers of a column, the owner marks and a list of sides, and what is kept of a
// table's columns, 8 bytes of each. No constant is below 0, so that a limit that makes a buffer too large is refused. `specs/Buffers` says
// the same of the definitions' limits.
const LEFT_OF_FILE: usize = MOST_BUFFER - MOST_BYTES;

const LEFT_OF_COLUMN: usize = MOST_BUFFER - 4 * PROGRAM_ROWS;

const LEFT_OF_SIDES: usize = MOST_BUFFER - 4 * PROGRAM_SIDES;

const LEFT_OF_LAYOUT: usize = MOST_BUFFER - 8 * MOST_COLUMNS;

// As many of n columns as a layout has room for.
pub fn columns_within(n: usize) -> usize
    ensures { result ≡ min n most_columns }
{
    if n <= MOST_COLUMNS { n } else { MOST_COLUMNS }
}
