// The lowest row that fails.
ghost use Rattle.tile.specs.Serving.Rows.{IsLowest};

// The lowest of the rows 1..n at which the test holds.
pub(crate) fn lowest_row<F: Fn(usize) -> bool>(n: usize, fails: F) -> Option<usize>
    requires { F.IsAlwaysCallable fails }
    ensures { IsLowest (F.post fails) n result }
{
    for i in 0..n {
        if fails(i + 1) {
            return Some(i + 1);
        }
    }
    None
}
