// What a look at the lines to come spares, by value.
ghost use Rattle.std.specs.Prelude.{◌≡◌, List, ℕ, ◌≤◌, leb, ltb};
ghost use Rattle.ascii.specs.Tests.{both};
ghost use Rattle.ahead.specs.Ahead.{Clear};
ghost use Rattle.trail.specs.Trail.{Apart};

use ahead::Ahead;

// As many lines are looked at for each line anew. More are looked at once for the lines to come.
pub const FEW: usize = 64;

// Whether a look ahead tells of line i and of the lines from a on.
pub fn covers(d: Ahead, a: usize, i: usize) -> bool
    ensures { result ≡ both (leb d.a a) (both (leb d.b i) (ltb i d.c)) }
{
    (d.a <= a) & (d.b <= i) & (i < d.c)
}

// The line from which on lines have to be looked at for line i: not those of which the look ahead tells.
pub fn beyond(d: Ahead, from: usize, hi: usize, i: usize) -> usize
    requires { from ≤ hi }
    ensures { (from ≤ result) × (result ≤ hi) × ((t : List ℕ) (lo : ℕ) → Clear t d → Apart t lo from i → Apart t lo result i) }
{
    if covers(d, from, i) && d.b <= hi && from < d.b {
        return d.b;
    }
    from
}
