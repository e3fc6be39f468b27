// The tests of a typed line against what the good lines before it left, by their numbers.
ghost use Rattle.std.specs.Prelude.{◌≡◌, not, ◌+◌, eqb};
ghost use Rattle.ascii.specs.Tests.{either};
ghost use Rattle.rules.specs.Rules.{model_bad, serial_bad, site_bad, close_bad, run_bad, bond_bad, unfinished as unfinishedOf, strand_bad, fold_bad, count_bad};

use super::{Ladder, Run};
use conect::Conect;
use facets::{Fence, Fold, Spot};
use fields::Serial;
use master::Tally;
use places::{Counts, Models};
use residue::Residue;
use sheet::Strand;

// ---- 22: models are numbered 1, 2, 3, ..
fn number_bad(m: Models, n: u32) -> bool
    ensures { result ≡ not (eqb n (m.number + 1)) }
{
    n as u64 != m.number as u64 + 1
}

pub fn model_bad(m: Models, e: Option<Fence>) -> bool
    ensures { result ≡ model_bad m e }
{
    match e {
        Some(Fence::Opens(n)) => number_bad(m, n),
        Some(Fence::Shuts) | None => false,
    }
}

// ---- 7: serials rise strictly over ATOM, HETATM and TER together
pub fn serial_bad(last: Serial, p: Option<Spot>) -> bool
    ensures { result ≡ serial_bad last p }
{
    match p {
        Some(Spot::Site(_, a)) => a.identity.serial.0 <= last.0,
        Some(Spot::Close(t)) => t.serial.0 <= last.0,
        None => false,
    }
}

// ---- 8: a run is the coordinate lines since the last TER
// All lines before an ATOM in its run have its chain; a HETATM in a run that holds an ATOM has that chain.
fn site_bad(r: Run, het: bool, chain: u8) -> bool
    ensures { result ≡ site_bad r het chain }
{
    let e = chain == r.residue.chain;
    if het {
        r.atom & !e
    } else {
        r.some & !(r.same & e)
    }
}

// TER closes a run that holds an ATOM, and repeats the residue of its last line.
fn close_bad(r: Run, residue: Residue) -> bool
    ensures { result ≡ close_bad r residue }
{
    !(r.atom & residue::same_residue(residue, r.residue))
}

// A run that holds an ATOM is closed before any other kind of line.
pub fn run_bad(u: Run, p: Option<Spot>) -> bool
    ensures { result ≡ run_bad u p }
{
    match p {
        Some(Spot::Site(het, a)) => site_bad(u, het, a.identity.residue.chain),
        Some(Spot::Close(t)) => close_bad(u, t.residue),
        None => u.atom,
    }
}

// ---- 9: CONECT serials do not fall, and each number on the line is the serial of an atom (known)
pub fn bond_bad(known: bool, last: Serial, b: Option<Conect>) -> bool
    ensures { result ≡ bond_bad known last b }
{
    match b {
        Some(c) => !known | (c.serial.0 < last.0),
        None => false,
    }
}

// ---- 10: helix serials are 1, 2, 3, ..; a sheet is strands 1 to n
// The sheet of the last SHEET line has strands to come.
pub fn unfinished(d: Ladder) -> bool
    ensures { result ≡ unfinishedOf d }
{
    d.strand < d.strands
}

// An unfinished sheet goes on with its next strand; the next one begins with strand 1, and its identifier differs from the one just before.
fn strand_bad(d: Ladder, s: Strand) -> bool
    ensures { result ≡ strand_bad d s }
{
    let same = s.id == d.id;
    if unfinished(d) {
        let next = s.strand as u64 == d.strand as u64 + 1;
        !(same & (s.strands == d.strands) & next)
    } else {
        (s.strand != 1) | ((0 < d.strands) & same)
    }
}

fn helix_bad(helix: u32, d: Ladder, serial: u32) -> bool
    ensures { result ≡ either (unfinishedOf d) (not (eqb serial (helix + 1))) }
{
    unfinished(d) | (serial as u64 != helix as u64 + 1)
}

pub fn fold_bad(helix: u32, d: Ladder, f: Option<Fold>) -> bool
    ensures { result ≡ fold_bad helix d f }
{
    match f {
        Some(Fold::Turn(serial)) => helix_bad(helix, d, serial),
        Some(Fold::Rung(s)) => strand_bad(d, s),
        None => unfinished(d),
    }
}

// ---- 11: MASTER holds the true counts
pub fn count_bad(n: Counts, t: Option<Tally>) -> bool
    ensures { result ≡ count_bad n t }
{
    match t {
        Some(m) => !places::same_counts(m, n),
        None => false,
    }
}
