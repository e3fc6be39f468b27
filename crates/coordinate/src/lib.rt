// ATOM and HETATM: read and written.
#![tactic(auto)]

ghost use Rattle.refusals.specs.Numbers.{number_in};
ghost use Rattle.kinds.specs.Kinds.{line_with};
ghost use Rattle.std.specs.Prelude.{◌≡◌, ◌+◌, ◌≤◌, ◌<◌};
ghost use Rattle.columns.specs.Columns.{Put};
ghost use Rattle.fields.specs.Format.{read_of, write_number, write_line};
ghost use Rattle.coordinate.specs.Atoms.{position_f, identity_f, measure_f, species_f, named_species_f, leads_element, atom_f, coordinate_kind};

use columns::Column;
use fields::Serial;
use kinds::Layout;
use refusals::Refusal;
use residue::Residue;

// Coordinates, in thousandths.
#[repr(C)]
#[derive(Clone, Copy, Debug, PartialEq, Eq)]
pub struct Position {
    pub x: i32,
    pub y: i32,
    pub z: i32,
}

// The record is in the parts that its definition has, each read and proved by itself. Columns 7 to 27.
#[derive(Clone, Copy, Debug, PartialEq, Eq)]
pub struct Identity {
    pub serial: Serial,
    pub name: [u8; 4],
    pub alternate: u8,
    pub residue: Residue,
}

// Columns 31 to 66.
#[derive(Clone, Copy, Debug, PartialEq, Eq)]
pub struct Measure {
    pub position: Position,
    pub occupancy: u32,
    pub temperature: i32,
}

// Columns 77 to 80.
#[derive(Clone, Copy, Debug, PartialEq, Eq)]
pub struct Species {
    pub element: [u8; 2],
    pub charge: [u8; 2],
}

#[derive(Clone, Copy, Debug, PartialEq, Eq)]
pub struct Atom {
    pub identity: Identity,
    pub measure: Measure,
    pub species: Species,
}

fn read_identity(line: &[u8; 80]) -> Result<Identity, Column>
    ensures { result ≡ read_of identity_f line.now 6 }
{
    let serial = fields::read_whole(line, 6, 5, 1, 99999)?;
    columns::gap(line, 11, 1)?;
    let name = names::read_atom(line, 12)?;
    let alternate = names::read_alternate(line, 16)?;
    let residue = residue::read_residue(line, 17, 0)?;
    Ok(Identity {
        serial: Serial(serial),
        name,
        alternate,
        residue,
    })
}

fn read_position(line: &[u8; 80]) -> Result<Position, Column>
    ensures { result ≡ read_of position_f line.now 30 }
{
    let x = fields::read_signed(line, 30, 8, fields::POINT_3)?;
    let y = fields::read_signed(line, 38, 8, fields::POINT_3)?;
    let z = fields::read_signed(line, 46, 8, fields::POINT_3)?;
    Ok(Position { x, y, z })
}

fn read_measure(line: &[u8; 80]) -> Result<Measure, Column>
    ensures { result ≡ read_of measure_f line.now 30 }
{
    let position = read_position(line)?;
    let occupancy = fields::read_whole_real(line, 54, 6, 2, 0, 100)?;
    let temperature = fields::read_signed(line, 60, 6, fields::POINT_2)?;
    Ok(Measure {
        position,
        occupancy,
        temperature,
    })
}

// The element is judged with the atom's name before the charge is read.
fn read_species(line: &[u8; 80], name: [u8; 4]) -> Result<Species, Column>
    ensures { result ≡ read_of (named_species_f name) line.now 76 }
{
    let element = elements::read_element(line, 76)?;
    columns::judged((), leads(name, element), 76)?;
    let charge = names::read_charge(line, 78)?;
    Ok(Species { element, charge })
}

// An atom's name begins with its element; one of a single letter may also stand first in a name that fills all four columns.
fn leads(n: [u8; 4], e: [u8; 2]) -> bool
    ensures { result ≡ leads_element n e }
{
    (n[0] == e[0]) & (n[1] == e[1]) || names::is_blank(e[0]) & (n[0] == e[1]) & names::is_full(n)
}

pub fn position_is_good(p: Position) -> bool
    ensures { result ≡ position_f.ok p }
{
    fields::spans(p.x, 999999, 9999999)
        & fields::spans(p.y, 999999, 9999999)
        & fields::spans(p.z, 999999, 9999999)
}

fn identity_is_good(w: Identity) -> bool
    ensures { result ≡ identity_f.ok w }
{
    fields::ranged(w.serial.0, 1, 99999)
        & names::is_atom_name(w.name)
        & names::is_alternate(w.alternate)
        & residue::is_good(w.residue)
}

fn measure_is_good(s: Measure) -> bool
    ensures { result ≡ measure_f.ok s }
{
    position_is_good(s.position)
        & fields::ranged(s.occupancy, 0, 100)
        & fields::spans(s.temperature, 9999, 99999)
}

fn species_is_good(t: Species) -> bool
    ensures { result ≡ species_f.ok t }
{
    elements::is_element(t.element) & names::is_charge(t.charge)
}

fn put_identity(line: &mut [u8; 80], w: Identity)
    ensures { Put line.old 6 21 (identity_f.text w) line.new }
{
    fields::put_whole(line, 6, 5, w.serial.0);
    columns::put_blanks(line, 11, 1);
    names::put(line, 12, w.name);
    columns::put_one(line, 16, w.alternate);
    residue::put_residue(line, 17, 0, w.residue);
}

fn put_position(line: &mut [u8; 80], p: Position)
    ensures { Put line.old 30 24 (position_f.text p) line.new }
{
    fields::put_real(line, 30, 8, 3, p.x);
    fields::put_real(line, 38, 8, 3, p.y);
    fields::put_real(line, 46, 8, 3, p.z);
}

fn put_measure(line: &mut [u8; 80], s: Measure)
    ensures { Put line.old 30 36 (measure_f.text s) line.new }
{
    put_position(line, s.position);
    fields::put_whole_real(line, 54, 6, 2, s.occupancy);
    fields::put_real(line, 60, 6, 2, s.temperature);
}

fn put_species(line: &mut [u8; 80], t: Species)
    ensures { Put line.old 76 4 (species_f.text t) line.new }
{
    names::put(line, 76, t.element);
    names::put(line, 78, t.charge);
}

impl Layout for Atom {
    ghost format = { atom_f };

    fn read(line: &[u8; 80]) -> Result<Atom, Column> {
        let identity = read_identity(line)?;
        columns::gap(line, 27, 3)?;
        let measure = read_measure(line)?;
        columns::gap(line, 66, 10)?;
        let species = read_species(line, identity.name)?;
        Ok(Atom {
            identity,
            measure,
            species,
        })
    }

    fn is_good(self) -> bool {
        identity_is_good(self.identity)
            & measure_is_good(self.measure)
            & species_is_good(self.species)
            & leads(self.identity.name, self.species.element)
    }

    fn put(self, line: &mut [u8; 80]) {
        put_identity(line, self.identity);
        columns::put_blanks(line, 27, 3);
        put_measure(line, self.measure);
        columns::put_blanks(line, 66, 10);
        put_species(line, self.species);
    }
}

// Writes the line, 80 bytes, or leaves all as found: where a field is out of its range, or there is no room.
pub fn write_atom(line: &mut [u8], het: bool, a: Atom) -> Result<(), Refusal>
    ensures number { number_in result ≡ write_number (atom_f.ok a) line.old }
    ensures line_after { line.new ≡ write_line (atom_f.ok a) (line_with (coordinate_kind het) atom_f a) line.old }
{
    if het {
        kinds::write(line, kinds::HETATM, a)
    } else {
        kinds::write(line, kinds::ATOM, a)
    }
}
