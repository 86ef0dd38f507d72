// Column names, case ignored, found by where they lie.
ghost use Rattle.std.specs.Prelude.{◌≡◌, ◌-◌, ◌≤◌, ◌<◌, suc, take, drop};
ghost use Rattle.laws.specs.Lowest.{found, lowest};
ghost use Rattle.limits.specs.Limits.{most_columns};
ghost use Rattle.header.specs.Names.{lower, same_text, named_before, names_of, name_among, is_among};

use crate::numbers::SLOTS;
use crate::{Names, numbers};
use limits::MOST_COLUMNS;

// The bytes from start to end: none where the end stands before the start, and cut where the file ends.
fn bytes_between(file: &[u8], start: usize, end: usize) -> &[u8]
    ensures { result.now ≡ take (end - start) (drop start file.now) }
{
    let end = end.min(file.len());
    if start < end {
        &file[start..end]
    } else {
        &file[0..0]
    }
}

// A letter of either case as the small letter.
#[tactic(auto, using(std::proofs::lemmas::Bool::Decides::nat_tests), unfolding(crate::specs::Names::lower))]
fn lower_of(byte: u8) -> u8
    ensures { result ≡ lower byte }
{
    match byte {
        b'A'..=b'Z' => byte + 32,
        _ => byte,
    }
}

// Whether two texts are the same, case ignored. Bytes that are equal as they stand are passed without a look at their case: names that
// `doubled` compares have one number, and so mostly equal bytes. With the library's `eq_ignore_ascii_case` in its place a header whose names
// are made to share a number took 1.7 times as long.
#[tactic(auto, using(crate::proofs::NameLaws::same_length, crate::proofs::NameLaws::same_next, crate::proofs::NameLaws::same_stop))]
fn same_text(a: &[u8], b: &[u8]) -> bool
    ensures { result ≡ same_text a.now b.now }
{
    if a.len() != b.len() {
        return false;
    }
    for i in 0..a.len() {
        if a[i] != b[i] && lower_of(a[i]) != lower_of(b[i]) {
            return false;
        }
    }
    true
}

impl Names {
    // The part of the file where the name at an index, from 0, lies.
    fn part<'a>(&self, file: &'a [u8], k: usize) -> &'a [u8]
        requires { k < most_columns }
        ensures { result.now ≡ name_among file.now self.now (suc k) }
    {
        let at = self.spans[k];
        bytes_between(file, at.start as usize, at.end as usize)
    }

    // The lowest of n columns that has the name, case ignored, if there is one.
    pub(crate) fn column(&self, file: &[u8], n: usize, name: &[u8]) -> Option<usize>
        requires { n ≤ most_columns }
        ensures { result ≡ found (lowest (is_among file.now self.now name.now) n) }
    {
        for k in 0..n {
            if same_text(self.part(file, k), name) {
                return Some(k + 1);
            }
        }
        None
    }

    // "Two columns with one name are refused at the first such pair (lowest later column), case ignored": that column, if there is one.
    // `seen` are the numbers of the names so far and `marked` their slots: a name is compared with an earlier one only where the slot of
    // its number is marked, and byte by byte only where the two numbers agree.
    pub(crate) fn doubled(&self, head: &[u8], n: usize) -> Option<usize>
        requires { (n ≤ most_columns) × (self.now ≡ names_of head.now n) }
        ensures { result ≡ found (lowest (named_before head.now) n) }
    {
        let mut seen = [0u32; MOST_COLUMNS];
        let mut marked = [false; SLOTS];
        let mut doubled = None;
        'search: for later in 0..n {
            let name = self.part(head, later);
            let number = numbers::number_of(name);
            let slot = numbers::slot_of(number);
            let first = if marked[slot] { 0 } else { later };
            for earlier in first..later {
                if seen[earlier] == number && same_text(self.part(head, earlier), name) {
                    doubled = Some(later + 1);
                    break 'search;
                }
            }
            seen[later] = number;
            marked[slot] = true;
        }
        doubled
    }
}
