// Wave heights as text: 1 to 6 digits, optionally a point and 1 to 3 digits, then only spaces; read as whole thousandths.
#![tactic(auto)]

ghost use Rattle.std.specs.Prelude.{◌≡◌, ◌≤◌};
ghost use Rattle.wave.specs.Height.{kind_of, step_of, finish_of, height_of, Roomy, OneDigit, worth_of};
ghost use Rattle.wave.specs.Judgement.{judgement_of};

use refusal::Refusal;

const MOST_WHOLE_DIGITS: u32 = 6;

const MOST_PART_DIGITS: u32 = 3;

// The thousandths of a whole, a tenth and a hundredth.
const WHOLE: u32 = 1000;

const TENTH: u32 = 100;

const HUNDREDTH: u32 = 10;

// What a byte can be in a wave height; a digit with the number that it says.
#[derive(Clone, Copy)]
enum Kind {
    Digit(u32),
    Point,
    Space,
    Other,
}

// How far a text was read: in the whole digits, with how many there were and the number that they say; after the point,
// with how many digits followed it and the thousandths so far; in the spaces, with the thousandths.
#[derive(Clone, Copy)]
enum State {
    Whole(u32, u32),
    Part(u32, u32),
    Spaces(u32),
}

#[derive(Clone, Copy, Debug, PartialEq, Eq)]
pub enum Judgement {
    Passes,
    TooHigh,
}

// What a byte is.
fn kind_of(b: u8) -> Kind
    ensures { result ≡ kind_of b }
{
    match b {
        b'0'..=b'9' => Kind::Digit((b - b'0') as u32),
        b'.' => Kind::Point,
        b' ' => Kind::Space,
        _ => Kind::Other,
    }
}

// The thousandths that the digit d says with n digits between the point and it.
fn worth(d: u32, n: u32) -> u32
    requires { d ≤ 9 }
    ensures value { result ≡ worth_of d n }
    ensures upper_bound { result ≤ 900 }
{
    match n {
        0 => d * TENTH,
        1 => d * HUNDREDTH,
        _ => d,
    }
}

// What the next byte, of this kind, makes of a reading; nothing where no wave height goes on so.
#[tactic(auto, using(crate::proofs::RoomLaws::ten_room))]
fn step_by(st: State, k: Kind) -> Option<State>
    requires roomy { Roomy st }
    requires one_digit { OneDigit k }
    ensures { result ≡ step_of st k }
{
    match (st, k) {
        (State::Whole(n, v), Kind::Digit(d)) if n < MOST_WHOLE_DIGITS => {
            Some(State::Whole(n + 1, v * 10 + d))
        }
        (State::Whole(n, v), Kind::Point) if 0 < n => Some(State::Part(0, v * WHOLE)),
        (State::Whole(n, v), Kind::Space) if 0 < n => Some(State::Spaces(v * WHOLE)),
        (State::Part(n, v), Kind::Digit(d)) if n < MOST_PART_DIGITS => {
            Some(State::Part(n + 1, v + worth(d, n)))
        }
        (State::Part(n, v), Kind::Space) if 0 < n => Some(State::Spaces(v)),
        (State::Spaces(v), Kind::Space) => Some(State::Spaces(v)),
        _ => None,
    }
}

// What a text is that ended at this place: a height, or refused where a digit is still wanted.
#[tactic(auto, using(crate::proofs::RoomLaws::ten_room))]
fn finish(st: State, at: usize) -> Result<u32, Refusal>
    requires { Roomy st }
    ensures { result ≡ finish_of at st }
{
    match st {
        State::Whole(n, v) if 0 < n => Ok(v * WHOLE),
        State::Part(n, v) if 0 < n => Ok(v),
        State::Spaces(v) => Ok(v),
        _ => Err(refusal::Kind::NoWaveHeight.at(at)),
    }
}

// A wave height in whole thousandths, or 16 at the first bad byte or the text's length.
// Example: `2.5` is 2,500; four spaces are refused at 0, and `2.` at 2, where a digit is still wanted.
pub fn thousandths(text: &[u8]) -> Result<u32, Refusal>
    ensures { result ≡ height_of text.now }
{
    let mut st = State::Whole(0, 0);
    for (i, &byte) in text.iter().enumerate() {
        let Some(next) = step_by(st, kind_of(byte)) else {
            return Err(refusal::Kind::NoWaveHeight.at(i));
        };
        st = next;
    }
    finish(st, text.len())
}

// Whether a measured height is not above the limit. Of two bad texts the limit's is refused.
// Example: against the limit `2.5`, `10.0` is too high and `2.5` passes.
#[tactic(auto, unfolding(crate::specs::Judgement::judgement_of))]
pub fn passes(measured: &[u8], limit: &[u8]) -> Result<Judgement, Refusal>
    ensures { result ≡ judgement_of measured.now limit.now }
{
    let most = thousandths(limit)?;
    let seen = thousandths(measured)?;
    if seen <= most {
        Ok(Judgement::Passes)
    } else {
        Ok(Judgement::TooHigh)
    }
}
