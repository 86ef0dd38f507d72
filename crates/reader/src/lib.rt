// A header reader: it holds the file and its place in it, and gives one column at each step. The work is done by functions on
// the slice and the number; what takes, makes or moves a reader is thin.
#![tactic(auto)]

ghost use Rattle.std.specs.Prelude.{◌≡◌};
ghost use Rattle.header.specs.Steps.{place_of};
ghost use Rattle.reader.specs.Moves.{reader_at, opened, gives, moved, moved_from};

use header::Definition;
use refusal::Refusal;

// The file, and the place at which the next step looks. A place that anybody puts there has a meaning: what `column_step` says of it.
#[derive(Clone, Copy)]
pub struct Reader<'a> {
    pub file: &'a [u8],
    pub at: usize,
}

// What a step gave, and where the reader stands after it.
#[derive(Clone, Copy)]
pub struct Moved {
    pub step: Result<Option<Definition>, Refusal>,
    pub at: usize,
}

// Where a reader goes after a step: past the definition, or it stays.
fn place_after(step: Result<Option<Definition>, Refusal>, place: usize) -> usize
    ensures { result ≡ place_of place step }
{
    match step {
        Ok(Some(d)) => d.after,
        Ok(None) => place,
        Err(_) => place,
    }
}

// The whole of a step on the slice and the number, so that the reader's own step is thin.
fn step_at(file: &[u8], place: usize) -> Moved
    ensures { result ≡ moved_from file.now place }
{
    let step = header::column_step(file, place);
    let at = place_after(step, place);
    Moved { step: step, at: at }
}

// A reader at a place that the caller names.
pub fn open_at<'a>(file: &'a [u8], place: usize) -> Reader<'a>
    ensures { result ≡ reader_at file.entry place }
{
    Reader { file, at: place }
}

// A reader at the first definition, at 0 where the header is refused.
pub fn open<'a>(file: &'a [u8]) -> Reader<'a>
    ensures { result ≡ opened file.entry }
{
    let at = header::first_place(file);
    Reader { file, at }
}

impl<'a> Reader<'a> {
    // Gives the column at the reader's place and moves past its definition; or gives the end or the refusal, and stays.
    pub fn step(&mut self) -> Result<Option<Definition>, Refusal>
        ensures { (result ≡ gives self.old) × (self.new ≡ moved self.old) }
    {
        let moved = step_at(self.file, self.at);
        self.at = moved.at;
        moved.step
    }
}

// One step of a reader at a place, for callers that hold the slice and the number themselves.
pub fn step_from(file: &[u8], place: usize) -> Moved
    ensures { result ≡ moved_from file.now place }
{
    let mut r = open_at(file, place);
    let step = r.step();
    Moved { step, at: r.at }
}
