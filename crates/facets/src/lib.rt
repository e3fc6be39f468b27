// What a line is to the rules between lines: its kind; as a coordinate or TER line; as a bond; as a fold; as a total; as a fence.
#![tactic(auto)]

ghost use Rattle.std.specs.Prelude.{◌≡◌};
ghost use Rattle.facets.specs.Facets.{record_kind, line_kind, spot_of, spot_in, bond_of, bond_in, fold_of, total_of, total_in, fence_of, fence_in, is_coord, is_fence};

use conect::Conect;
use coordinate::Atom;
use kinds::Kind;
use line::Record;
use master::Tally;
use pieces::Line;
use sheet::Strand;
use ter::Ter;

// A line with a slot: ATOM or HETATM (true), or TER.
#[derive(Clone, Copy)]
pub enum Spot {
    Site(bool, Atom),
    Close(Ter),
}

// HELIX by its serial, or SHEET by its strand.
#[derive(Clone, Copy)]
pub enum Fold {
    Turn(u32),
    Rung(Strand),
}

// What a model stands between: MODEL by its number, or ENDMDL.
#[derive(Clone, Copy)]
pub enum Fence {
    Opens(u32),
    Shuts,
}

// The kind of a record's line.
pub fn record_kind(r: Record) -> Kind
    ensures { result ≡ record_kind r }
{
    match r {
        Record::Coordinate(het, _) => {
            if het {
                return Kind::Hetatm;
            }
            Kind::Atom
        }
        Record::Ter(_) => Kind::Ter,
        Record::Helix(_) => Kind::Helix,
        Record::Sheet(_) => Kind::Sheet,
        Record::Conect(_) => Kind::Conect,
        Record::Master(_) => Kind::Master,
        Record::End => Kind::End,
        Record::Model(_) => Kind::Model,
        Record::Endmdl => Kind::Endmdl,
        Record::Cell(_) => Kind::Cryst1,
        Record::Transform(scale, axis, _) => transform::kind_of(scale, axis),
    }
}

// The kind of a line; a piece that is refused by itself has none.
pub fn line_kind(l: Line) -> Kind
    ensures { result ≡ line_kind l }
{
    match l {
        Line::Bad(_) => Kind::Unknown,
        Line::Wrong(k, _) => k,
        Line::Carried(k) => k,
        Line::Typed(r) => record_kind(r),
    }
}

// ATOM, HETATM or TER.
pub fn spot_of(r: Record) -> Option<Spot>
    ensures { result ≡ spot_of r }
{
    match r {
        Record::Coordinate(het, a) => Some(Spot::Site(het, a)),
        Record::Ter(t) => Some(Spot::Close(t)),
        _ => None,
    }
}

// The same of a line: one that is not typed has none.
pub fn spot_in(l: Line) -> Option<Spot>
    ensures { result ≡ spot_in l }
{
    let Line::Typed(r) = l else { return None };
    spot_of(r)
}

// CONECT.
pub fn bond_of(r: Record) -> Option<Conect>
    ensures { result ≡ bond_of r }
{
    match r {
        Record::Conect(c) => Some(c),
        _ => None,
    }
}

pub fn bond_in(l: Line) -> Option<Conect>
    ensures { result ≡ bond_in l }
{
    let Line::Typed(r) = l else { return None };
    bond_of(r)
}

// HELIX or SHEET.
pub fn fold_of(r: Record) -> Option<Fold>
    ensures { result ≡ fold_of r }
{
    match r {
        Record::Helix(h) => Some(Fold::Turn(h.extent.serial)),
        Record::Sheet(s) => Some(Fold::Rung(s.strand)),
        _ => None,
    }
}

// MASTER.
pub fn total_of(r: Record) -> Option<Tally>
    ensures { result ≡ total_of r }
{
    match r {
        Record::Master(t) => Some(t),
        _ => None,
    }
}

pub fn total_in(l: Line) -> Option<Tally>
    ensures { result ≡ total_in l }
{
    let Line::Typed(r) = l else { return None };
    total_of(r)
}

// MODEL or ENDMDL.
pub fn fence_of(r: Record) -> Option<Fence>
    ensures { result ≡ fence_of r }
{
    match r {
        Record::Model(m) => Some(Fence::Opens(m.number)),
        Record::Endmdl => Some(Fence::Shuts),
        _ => None,
    }
}

pub fn fence_in(l: Line) -> Option<Fence>
    ensures { result ≡ fence_in l }
{
    let Line::Typed(r) = l else { return None };
    fence_of(r)
}

// Whether the line is an ATOM, HETATM or TER line.
pub fn is_coord(l: Line) -> bool
    ensures { result ≡ is_coord l }
{
    spot_in(l).is_some()
}

// Whether the line is a MODEL or ENDMDL line.
pub fn is_fence(l: Line) -> bool
    ensures { result ≡ is_fence l }
{
    fence_in(l).is_some()
}
