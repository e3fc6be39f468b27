// The rules between lines: a line is judged against what the good lines before it left.
#![tactic(auto)]

mod steps;
mod tests;

ghost use Rattle.std.specs.Prelude.{◌≡◌, ◌<◌};
ghost use Rattle.ascii.specs.Tests.{pick, either};
ghost use Rattle.places.specs.Places.{place_bad, fence_bad};
ghost use Rattle.places.specs.Room.{Room};
ghost use Rattle.refusals.specs.Numbers.{number_of, number_in};
ghost use Rattle.rules.specs.Rules.{unfinished as unfinishedOf, typed_bad, judge_of, start_of, carried_next, typed_next, next_of};

use fields::Serial;
use kinds::Kind;
use line::Record;
use pieces::Line;
use places::{Counts, Models};
use refusals::Refusal;
use residue::Residue;
use steps::{bond_next, helix_next, ladder_next, last_next, models_next, no_run, run_next};
use tests::{bond_bad, count_bad, fold_bad, model_bad, run_bad, serial_bad, unfinished};

// The coordinate lines since the last TER: whether there is one, whether all have one chain, whether one is an ATOM, and the last one's residue.
#[derive(Clone, Copy)]
pub struct Run {
    // A flag beside the other fields, and no Option: the definitions read these as they are where no line is there yet.
    pub some: bool,
    pub same: bool,
    pub atom: bool,
    pub residue: Residue,
}

// The last SHEET line: its sheet, its strand, and how many strands the sheet has.
#[derive(Clone, Copy)]
pub struct Ladder {
    pub id: [u8; 3],
    pub strand: u32,
    pub strands: u32,
}

// What a look back over the lines before a line says: each number on a CONECT line is the serial of an atom; the atom of an ATOM or HETATM
// line stands on one of them.
#[derive(Clone, Copy)]
pub struct Looked {
    pub known: bool,
    pub twin: bool,
}

// What the good lines so far leave to judge the next by.
#[derive(Clone, Copy)]
pub struct State {
    // The place of the last line.
    pub place: u8,
    pub models: Models,
    // The last serial of an ATOM, HETATM or TER line; of the model, where there are models.
    pub last: Serial,
    pub run: Run,
    // The last serial of a CONECT line.
    pub bond: Serial,
    // The last helix serial.
    pub helix: u32,
    pub ladder: Ladder,
    pub counts: Counts,
    pub lines: u64,
}

// A wrong place or repeated, or at odds with the models.
fn misplaced(last: u8, m: Models, k: Kind) -> bool
    ensures { result ≡ either (place_bad last k) (fence_bad last m k) }
{
    places::place_bad(last, k) | places::fence_bad(last, m, k)
}

// What a typed line is refused for: the tests in the order of the format.
fn typed_bad(look: Looked, s: State, r: Record) -> Result<(), Refusal>
    ensures { number_in result ≡ typed_bad look s r }
{
    if misplaced(s.place, s.models, facets::record_kind(r)) {
        return Err(Refusal::Place);
    }
    if model_bad(s.models, facets::fence_of(r)) {
        return Err(Refusal::Model);
    }
    let spot = facets::spot_of(r);
    if serial_bad(s.last, spot) {
        return Err(Refusal::Serial);
    }
    if run_bad(s.run, spot) {
        return Err(Refusal::Run);
    }
    if look.twin {
        return Err(Refusal::Twin);
    }
    if bond_bad(look.known, s.bond, facets::bond_of(r)) {
        return Err(Refusal::Bond);
    }
    if fold_bad(s.helix, s.ladder, facets::fold_of(r)) {
        return Err(Refusal::Fold);
    }
    if count_bad(s.counts, facets::total_of(r)) {
        return Err(Refusal::Total);
    }
    Ok(())
}

fn carried_bad(s: State, k: Kind) -> Result<(), Refusal>
    ensures { number_in result ≡ pick (place_bad s.place k) 5 (pick (fence_bad s.place s.models k) 5 (pick (unfinishedOf s.ladder) 10 0)) }
{
    if misplaced(s.place, s.models, k) {
        return Err(Refusal::Place);
    }
    if unfinished(s.ladder) {
        return Err(Refusal::Fold);
    }
    Ok(())
}

// A line of a kind with a wrong field, at its place or not.
fn wrong_bad(s: State, k: Kind) -> Refusal
    ensures { number_of result ≡ pick (place_bad s.place k) 5 (pick (fence_bad s.place s.models k) 5 6) }
{
    if misplaced(s.place, s.models, k) {
        return Refusal::Place;
    }
    Refusal::Field
}

// What a line is refused for, if it is not good.
pub fn judge(look: Looked, s: State, l: Line) -> Result<(), Refusal>
    ensures { number_in result ≡ judge_of look s l }
{
    match l {
        Line::Bad(r) => Err(r),
        Line::Wrong(k, _) => Err(wrong_bad(s, k)),
        Line::Carried(k) => carried_bad(s, k),
        Line::Typed(r) => typed_bad(look, s, r),
    }
}

pub fn start() -> State
    ensures { result ≡ start_of }
{
    State {
        place: 0,
        models: Models {
            inside: false,
            past: false,
            number: 0,
        },
        last: Serial(0),
        run: no_run(),
        bond: Serial(0),
        helix: 0,
        ladder: Ladder {
            id: [0; 3],
            strand: 0,
            strands: 0,
        },
        counts: places::no_counts(),
        lines: 0,
    }
}

fn carried_next(s: State, k: Kind) -> State
    requires room { Room s.counts }
    requires lines_bound { s.lines < 9223372036854775808 }
    ensures { result ≡ carried_next s k }
{
    State {
        place: kinds::row_of(k).here,
        counts: places::raise(s.counts, places::count_at(s.models.past, k)),
        lines: s.lines + 1,
        ..s
    }
}

fn typed_next(s: State, r: Record) -> State
    requires room { Room s.counts }
    requires lines_bound { s.lines < 9223372036854775808 }
    ensures { result ≡ typed_next s r }
{
    let k = facets::record_kind(r);
    let spot = facets::spot_of(r);
    let fold = facets::fold_of(r);
    let fence = facets::fence_of(r);
    State {
        place: kinds::row_of(k).here,
        models: models_next(s.models, fence),
        last: last_next(s.last, spot, fence),
        run: run_next(s.run, spot, fence),
        bond: bond_next(s.bond, facets::bond_of(r)),
        helix: helix_next(s.helix, fold),
        ladder: ladder_next(s.ladder, fold),
        counts: places::raise(s.counts, places::count_at(s.models.past, k)),
        lines: s.lines + 1,
    }
}

// The state after a good line; a line that is refused leaves nothing.
pub fn next(s: State, l: Line) -> State
    requires room { Room s.counts }
    requires lines_bound { s.lines < 9223372036854775808 }
    ensures { result ≡ next_of s l }
{
    match l {
        Line::Carried(k) => carried_next(s, k),
        Line::Typed(r) => typed_next(s, r),
        Line::Bad(_) | Line::Wrong(_, _) => s,
    }
}
