// What one line adds to a count.
ghost use Rattle.std.specs.Prelude.{◌≡◌, ◌≤◌};
ghost use Rattle.ascii.specs.Tests.{pick};
ghost use Rattle.table.specs.Table.{one_of};

use pieces::Line;

pub fn one_if(b: bool) -> usize
    ensures value { result ≡ pick b 1 0 }
    ensures upper_bound { result ≤ 1 }
{
    if b {
        return 1;
    }
    0
}

// How many slots a line has.
pub fn one_of(l: Line) -> usize
    ensures value { result ≡ one_of l }
    ensures upper_bound { result ≤ 1 }
{
    if facets::is_coord(l) {
        return 1;
    }
    0
}
