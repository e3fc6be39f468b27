// What a good typed line leaves, part by part.
ghost use Rattle.std.specs.Prelude.{◌≡◌};
ghost use Rattle.rules.specs.Rules.{models_next, afresh, last_next, no_serial, no_run, site_next, run_next, bond_next, helix_next, ladder_next};

use super::{Ladder, Run};
use conect::Conect;
use facets::{Fence, Fold, Spot};
use fields::Serial;
use places::Models;
use residue::Residue;
use sheet::Strand;

pub fn models_next(m: Models, e: Option<Fence>) -> Models
    ensures { result ≡ models_next m e }
{
    match e {
        Some(Fence::Opens(n)) => Models {
            inside: true,
            number: n,
            ..m
        },
        Some(Fence::Shuts) => Models {
            inside: false,
            past: true,
            ..m
        },
        None => m,
    }
}

// Serials begin afresh in each model.
pub fn last_next(last: Serial, p: Option<Spot>, e: Option<Fence>) -> Serial
    ensures { result ≡ afresh no_serial e (last_next last p) }
{
    match e {
        Some(_) => Serial(0),
        None => last_of(last, p),
    }
}

fn last_of(last: Serial, p: Option<Spot>) -> Serial
    ensures { result ≡ last_next last p }
{
    match p {
        Some(Spot::Site(_, a)) => a.identity.serial,
        Some(Spot::Close(t)) => t.serial,
        None => last,
    }
}

pub fn no_run() -> Run
    ensures { result ≡ no_run }
{
    Run {
        some: false,
        same: true,
        atom: false,
        residue: residue::no_residue(),
    }
}

fn site_next(r: Run, het: bool, residue: Residue) -> Run
    ensures { result ≡ site_next r het residue }
{
    Run {
        some: true,
        same: !r.some | (r.same & (residue.chain == r.residue.chain)),
        atom: r.atom | !het,
        residue,
    }
}

// Runs begin afresh in each model.
pub fn run_next(u: Run, p: Option<Spot>, e: Option<Fence>) -> Run
    ensures { result ≡ afresh no_run e (run_next u p) }
{
    match e {
        Some(_) => no_run(),
        None => run_of(u, p),
    }
}

fn run_of(u: Run, p: Option<Spot>) -> Run
    ensures { result ≡ run_next u p }
{
    match p {
        Some(Spot::Site(het, a)) => site_next(u, het, a.identity.residue),
        Some(Spot::Close(_)) => no_run(),
        None => u,
    }
}

pub fn bond_next(last: Serial, b: Option<Conect>) -> Serial
    ensures { result ≡ bond_next last b }
{
    match b {
        Some(c) => c.serial,
        None => last,
    }
}

pub fn helix_next(helix: u32, f: Option<Fold>) -> u32
    ensures { result ≡ helix_next helix f }
{
    match f {
        Some(Fold::Turn(serial)) => serial,
        Some(Fold::Rung(_)) | None => helix,
    }
}

pub fn ladder_next(d: Ladder, f: Option<Fold>) -> Ladder
    ensures { result ≡ ladder_next d f }
{
    match f {
        Some(Fold::Rung(s)) => {
            let Strand {
                id,
                strand,
                strands,
                ..
            } = s;
            Ladder {
                id,
                strand,
                strands,
            }
        }
        Some(Fold::Turn(_)) | None => d,
    }
}
