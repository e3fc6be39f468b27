// A slot of the table: the fields of an ATOM, HETATM or TER line, its model, and a mark.
#![tactic(auto)]

ghost use Rattle.std.specs.Prelude.{◌≡◌, not, ◌≤◌, length};
ghost use Rattle.ascii.specs.Tests.{pick};
ghost use Rattle.facets.specs.Facets.{spot_in};
ghost use Rattle.refusals.specs.Numbers.{numbered};
ghost use Rattle.slots.specs.Slots.{atom_kind, hetatm_kind, SmallSpot, slot_of_atom, bare_slot, slot_of_ter, spot_slot, spot_read, filling_of, has_slot, fill_in, slot_line, same_measures, same_names, same_slot, with_mark, with_model, residue_of, no_slot, line_slot};

use coordinate::{Atom, Identity, Measure, Position, Species};
use facets::Spot;
use fields::{ResidueNumber, Serial};
use kinds::Kind;
use line::{Record, Unread};
use pieces::Line;
use refusals::Refusal;
use residue::Residue;
use ter::Ter;

// 48 bytes, no padding. Model 0 is none. Kind 1 ATOM, 2 HETATM, 3 TER; mark 0 in, 1 aside; any other byte is damage.
// Kind and mark are bytes, not enums: the table is lent from C, and an enum could not hold a damaged byte.
#[repr(C)]
#[derive(Clone, Copy)]
pub struct Slot {
    pub serial: Serial,
    pub number: ResidueNumber,
    pub position: Position,
    pub occupancy: i32,
    pub temperature: i32,
    pub kind: u8,
    pub mark: u8,
    pub name: [u8; 4],
    pub alternate: u8,
    pub residue: [u8; 3],
    pub chain: u8,
    pub insertion: u8,
    pub element: [u8; 2],
    pub charge: [u8; 2],
    pub model: u32,
}

pub const ATOM_KIND: u8 = 1;

pub const HETATM_KIND: u8 = 2;

pub const TER_KIND: u8 = 3;

pub const MARK_IN: u8 = 0;

pub const MARK_ASIDE: u8 = 1;

// The slot of one line read by itself, marked in: 1, 3, 4 for any other kind and for an unknown or carried name, 6.
pub fn slot_of_line(line: &[u8]) -> Result<Slot, Refusal>
    ensures { numbered result ≡ slot_line line.now }
{
    let Some(columns) = line.as_array::<80>() else {
        return Err(Refusal::Length);
    };
    if !columns::is_clean(columns, 0, 80) {
        return Err(Refusal::Byte);
    }
    let k = kinds::kind_of(columns);
    if !has_slot(k) {
        return Err(Refusal::Name);
    }
    fill_in(line::read_kind(columns, k))
}

pub fn has_slot(k: Kind) -> bool
    ensures { result ≡ has_slot k }
{
    kinds::row_of(k).slot
}

fn fill_in(r: Result<Record, Unread>) -> Result<Slot, Refusal>
    requires { SmallSpot (spot_read r) }
    ensures { numbered result ≡ fill_in r }
{
    match r {
        Ok(x) => filling_of(facets::spot_of(x)),
        Err(Unread::Wrong(_)) => Err(Refusal::Field),
        Err(Unread::Untyped) => Err(Refusal::Name),
    }
}

fn filling_of(p: Option<Spot>) -> Result<Slot, Refusal>
    requires { SmallSpot p }
    ensures { numbered result ≡ filling_of p }
{
    match p {
        Some(Spot::Site(het, a)) => Ok(slot_of_atom(het, a)),
        Some(Spot::Close(t)) => Ok(slot_of_ter(t)),
        None => Err(Refusal::Name),
    }
}

// `het`: of a HETATM line. It is data of the line, as the definitions have it.
fn slot_of_atom(het: bool, a: Atom) -> Slot
    requires { a.measure.occupancy ≤ 2147483647 }
    ensures { result ≡ slot_of_atom het a }
{
    let Identity {
        serial,
        name,
        alternate,
        residue,
    } = a.identity;
    let Measure {
        position,
        occupancy,
        temperature,
    } = a.measure;
    let Species { element, charge } = a.species;
    let Residue {
        name: residue,
        chain,
        number,
        insertion,
    } = residue;
    Slot {
        serial,
        number,
        position,
        occupancy: occupancy as i32,
        temperature,
        kind: kind_byte(het),
        mark: MARK_IN,
        name,
        alternate,
        residue,
        chain,
        insertion,
        element,
        charge,
        model: 0,
    }
}

// The byte of the layout that C has.
fn kind_byte(het: bool) -> u8
    ensures { result ≡ pick het hetatm_kind atom_kind }
{
    if het {
        return HETATM_KIND;
    }
    ATOM_KIND
}

// A slot of which only kind, serial and residue are told: the other fields are 0 or blank.
fn bare_slot(kind: u8, serial: Serial, r: Residue) -> Slot
    ensures { result ≡ bare_slot kind serial r }
{
    let Residue {
        name: residue,
        chain,
        number,
        insertion,
    } = r;
    Slot {
        serial,
        number,
        position: Position { x: 0, y: 0, z: 0 },
        occupancy: 0,
        temperature: 0,
        kind,
        mark: MARK_IN,
        name: [b' '; 4],
        alternate: b' ',
        residue,
        chain,
        insertion,
        element: [b' '; 2],
        charge: [b' '; 2],
        model: 0,
    }
}

fn slot_of_ter(t: Ter) -> Slot
    ensures { result ≡ slot_of_ter t }
{
    bare_slot(TER_KIND, t.serial, t.residue)
}

// What stands where there is no slot.
pub fn no_slot() -> Slot
    ensures { result ≡ no_slot }
{
    let blank = Residue {
        name: [b' '; 3],
        chain: b' ',
        number: ResidueNumber(0),
        insertion: b' ',
    };
    bare_slot(0, Serial(0), blank)
}

fn spot_slot(p: Option<Spot>) -> Slot
    requires { SmallSpot p }
    ensures { result ≡ spot_slot p }
{
    match p {
        Some(Spot::Site(het, a)) => slot_of_atom(het, a),
        Some(Spot::Close(t)) => slot_of_ter(t),
        None => no_slot(),
    }
}

// The slot of a line of a text, in a model; 0 where there are none.
pub fn line_slot(model: u32, l: Line) -> Slot
    requires { SmallSpot (spot_in l) }
    ensures { result ≡ line_slot model l }
{
    with_model(spot_slot(facets::spot_in(l)), model)
}

// The slot, of another model.
fn with_model(s: Slot, model: u32) -> Slot
    ensures { result ≡ with_model s model }
{
    Slot { model, ..s }
}

fn same_measures(s: Slot, t: Slot) -> bool
    ensures { result ≡ same_measures s t }
{
    (s.position == t.position) & (s.occupancy == t.occupancy) & (s.temperature == t.temperature)
}

// Its residue name, chain, number and insertion code.
pub fn residue_of(s: Slot) -> Residue
    ensures { result ≡ residue_of s }
{
    let Slot {
        residue: name,
        chain,
        number,
        insertion,
        ..
    } = s;
    Residue {
        name,
        chain,
        number,
        insertion,
    }
}

fn same_names(s: Slot, t: Slot) -> bool
    ensures { result ≡ same_names s t }
{
    (s.name == t.name)
        & (s.alternate == t.alternate)
        & (s.element == t.element)
        & (s.charge == t.charge)
}

// Whether two slots are equal apart from their marks: less than a derived `==` compares, and theorems cite it.
pub fn same_slot(s: Slot, t: Slot) -> bool
    ensures { result ≡ same_slot s t }
{
    (s.kind == t.kind)
        & (s.serial == t.serial)
        & residue::same_residue(residue_of(s), residue_of(t))
        & same_names(s, t)
        & same_measures(s, t)
        & (s.model == t.model)
}

// The slot with another mark.
#[tactic(auto, unfolding(crate::specs::Slots::with_mark))]
pub fn with_mark(s: Slot, mark: u8) -> Slot
    ensures { result ≡ with_mark s mark }
{
    Slot { mark, ..s }
}
