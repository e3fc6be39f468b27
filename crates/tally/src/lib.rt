// The tally: nine counts, lent and brought up to date in place, one line at a time.
#![tactic(auto)]

ghost use Rattle.std.specs.Prelude.{◌≡◌, ◌<◌};
ghost use Rattle.refusals.specs.Numbers.{number_in};
ghost use Rattle.places.specs.Counts.{number_of, count_number};
ghost use Rattle.tally.specs.Tally.{count_in, raised_tally, told_tally, tally_in, tally_step, tally_line};

use master::Tally;
use places::Count;
use refusals::Refusal;

// No count goes above this: MASTER has five columns for each.
const MOST: u32 = 99999;

// Counts the line in, or leaves the tally as found: 4 where the line has no known name, 14 where its count is full. Once the first ENDMDL
// has gone by (past) ATOM, HETATM and TER have no count.
pub fn count_line(tally: &mut Tally, line: &[u8], past: bool) -> Result<(), Refusal>
    ensures { told_tally (number_in result) tally.new ≡ tally_line past tally.old line.now }
{
    *tally = tally_after(*tally, line, past)?;
    Ok(())
}

// The same by value.
pub fn tally_after(t: Tally, line: &[u8], past: bool) -> Result<Tally, Refusal>
    ensures { told_tally (number_in result) (tally_in result t) ≡ tally_line past t line.now }
{
    let k = kinds::kind_of(line);
    if kinds::is_named(k) {
        tally_step(t, places::count_at(past, k))
    } else {
        Err(Refusal::Name)
    }
}

// The tally with the count `which` raised by 1, unless it is full.
pub fn tally_step(t: Tally, which: Option<Count>) -> Result<Tally, Refusal>
    ensures { told_tally (number_in result) (tally_in result t) ≡ tally_step t (count_number which) }
{
    match which {
        Some(n) => {
            if count_in(t, n) < MOST {
                Ok(raise_tally(t, n))
            } else {
                Err(Refusal::Full)
            }
        }
        None => Ok(t),
    }
}

// The counts are fields by name, as C has them, and no array: so each is told by a match.
fn count_in(t: Tally, which: Count) -> u32
    ensures { result ≡ count_in t (number_of which) }
{
    match which {
        Count::Remark => t.remark,
        Count::Het => t.het,
        Count::Helix => t.helix,
        Count::Sheet => t.sheet,
        Count::Xform => t.xform,
        Count::Coord => t.coord,
        Count::Ter => t.ter,
        Count::Conect => t.conect,
        Count::Seq => t.seq,
    }
}

// As `places` raises its counts of 64 bits: `Tally` is a struct that C is passed, which has no type parameter.
fn raise_tally(t: Tally, which: Count) -> Tally
    requires { count_in t (number_of which) < 99999 }
    ensures { result ≡ raised_tally t (number_of which) }
{
    match which {
        Count::Remark => Tally {
            remark: t.remark + 1,
            ..t
        },
        Count::Het => Tally {
            het: t.het + 1,
            ..t
        },
        Count::Helix => Tally {
            helix: t.helix + 1,
            ..t
        },
        Count::Sheet => Tally {
            sheet: t.sheet + 1,
            ..t
        },
        Count::Xform => Tally {
            xform: t.xform + 1,
            ..t
        },
        Count::Coord => Tally {
            coord: t.coord + 1,
            ..t
        },
        Count::Ter => Tally {
            ter: t.ter + 1,
            ..t
        },
        Count::Conect => Tally {
            conect: t.conect + 1,
            ..t
        },
        Count::Seq => Tally {
            seq: t.seq + 1,
            ..t
        },
    }
}
