// The nine counts of MASTER.
ghost use Rattle.std.specs.Prelude.{◌≡◌, ◌≤◌};
ghost use Rattle.places.specs.Counts.{number_of, count_number, count_by, count_of, count_at, no_counts, raised, same_counts};
ghost use Rattle.places.specs.Room.{Room};

use super::{Count, Counts};
use kinds::Kind;
use master::Tally;

// The count with a number of the table of kinds.
fn numbered(n: u8) -> Option<Count>
    requires { n ≤ 9 }
    ensures { count_number result ≡ n }
{
    match n {
        1 => Some(Count::Remark),
        2 => Some(Count::Het),
        3 => Some(Count::Helix),
        4 => Some(Count::Sheet),
        5 => Some(Count::Xform),
        6 => Some(Count::Coord),
        7 => Some(Count::Ter),
        8 => Some(Count::Conect),
        9 => Some(Count::Seq),
        _ => None,
    }
}

// The same for any number: there is no count of number 0, nor one above 9.
pub fn count_by(n: u8) -> Option<Count>
    ensures { count_number result ≡ count_by n }
{
    if n <= 9 { numbered(n) } else { None }
}

// Which of the nine counts a kind is counted in.
pub fn count_of(k: Kind) -> Option<Count>
    ensures { count_number result ≡ count_of k }
{
    numbered(kinds::row_of(k).count)
}

// The same once the first model is past: coordinates and TER are counted no more.
pub fn count_at(past: bool, k: Kind) -> Option<Count>
    ensures { count_number result ≡ count_at past k }
{
    let r = kinds::row_of(k);
    if past && r.slot {
        None
    } else {
        numbered(r.count)
    }
}

// Before the first line.
pub fn no_counts() -> Counts
    ensures { result ≡ no_counts }
{
    Counts {
        remark: 0,
        het: 0,
        helix: 0,
        sheet: 0,
        xform: 0,
        coord: 0,
        ter: 0,
        conect: 0,
        seq: 0,
    }
}

fn one_more(c: Counts, which: Count) -> Counts
    requires { Room c }
    ensures { result ≡ raised c (number_of which) }
{
    match which {
        Count::Remark => Counts {
            remark: c.remark + 1,
            ..c
        },
        Count::Het => Counts {
            het: c.het + 1,
            ..c
        },
        Count::Helix => Counts {
            helix: c.helix + 1,
            ..c
        },
        Count::Sheet => Counts {
            sheet: c.sheet + 1,
            ..c
        },
        Count::Xform => Counts {
            xform: c.xform + 1,
            ..c
        },
        Count::Coord => Counts {
            coord: c.coord + 1,
            ..c
        },
        Count::Ter => Counts {
            ter: c.ter + 1,
            ..c
        },
        Count::Conect => Counts {
            conect: c.conect + 1,
            ..c
        },
        Count::Seq => Counts {
            seq: c.seq + 1,
            ..c
        },
    }
}

// The counts with the one raised by 1. (`tally` has the same for MASTER's own counts: those are a struct that C is passed, which has no type parameter.)
pub fn raise(c: Counts, which: Option<Count>) -> Counts
    requires { Room c }
    ensures { result ≡ raised c (count_number which) }
{
    match which {
        Some(n) => one_more(c, n),
        None => c,
    }
}

// MASTER's numbers are these counts. (Numbers of 32 bits beside numbers of 64: no derived `==` compares the two structs.)
pub fn same_counts(t: Tally, c: Counts) -> bool
    ensures { result ≡ same_counts t c }
{
    (t.remark as u64 == c.remark)
        & (t.het as u64 == c.het)
        & (t.helix as u64 == c.helix)
        & (t.sheet as u64 == c.sheet)
        & (t.xform as u64 == c.xform)
        & (t.coord as u64 == c.coord)
        & (t.ter as u64 == c.ter)
        & (t.conect as u64 == c.conect)
        & (t.seq as u64 == c.seq)
}
