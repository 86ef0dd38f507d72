// The columns of a header one by one, for callers that are not Rattle.
ghost use Rattle.std.specs.Prelude.{◌≡◌};
ghost use Rattle.header.specs.Steps.{step_of, start_of};
ghost use Rattle.abi.specs.PlainColumns.{plain_definition, plain_column};

use crate::PlainColumn;
use header::Definition;
use refusal::Refusal;

impl From<Definition> for PlainColumn {
    ghost from_gives = { λ d plain. plain ≡ plain_definition d };

    fn from(d: Definition) -> Self {
        PlainColumn {
            number: 0,
            place: 0,
            given: 1,
            name_start: d.name.start,
            name_end: d.name.end,
            kind: u32::from(d.kind),
            star: u32::from(d.star),
            count: d.count,
            key: u32::from(d.key),
            description_start: d.description.start,
            description_end: d.description.end,
            value_start: d.value.start,
            value_end: d.value.end,
            thematic_start: d.thematic.start,
            thematic_end: d.thematic.end,
            narrative_start: d.narrative.start,
            narrative_end: d.narrative.end,
            comma: u32::from(d.comma),
            after: d.after,
        }
    }
}

impl From<Result<Option<Definition>, Refusal>> for PlainColumn {
    ghost from_gives = { λ step plain. plain ≡ plain_column step };

    fn from(step: Result<Option<Definition>, Refusal>) -> Self {
        match step {
            Ok(Some(d)) => PlainColumn::from(d),
            Ok(None) => PlainColumn::default(),
            Err(q) => PlainColumn {
                number: q.number,
                place: q.place,
                ..PlainColumn::default()
            },
        }
    }
}

// Where the first column definition stands, at which a reader starts; 0 where the header is refused.
pub fn vumbarete_first_place(file: &[u8]) -> usize
    ensures { result ≡ start_of file.now }
{
    header::first_place(file)
}

// One column, at a place.
pub fn vumbarete_column_step(file: &[u8], place: usize) -> PlainColumn
    ensures { result ≡ plain_column (step_of file.now place) }
{
    header::column_step(file, place).into()
}
