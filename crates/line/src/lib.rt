// A line by itself, of any kind: read to a record, and written from one.
#![tactic(auto)]

mod unread;

ghost use Rattle.std.specs.Prelude.{◌≡◌};
ghost use Rattle.fields.specs.Format.{write_number, write_line};
ghost use Rattle.refusals.specs.Numbers.{number_in};
ghost use Rattle.line.specs.Lines.{bare_layout, reading_of, read_line, answer_number, answer_column, record_ok, record_line};

use cell::Cell;
use columns::Column;
use conect::Conect;
use coordinate::Atom;
use helix::Helix;
use kinds::{Kind, Layout};
use master::Tally;
use model::Model;
use refusals::Refusal;
use sheet::Sheet;
use ter::Ter;
use transform::{Axis, Transform};
pub use unread::{Misread, Unread};

// The record of a typed line.
#[derive(Clone, Copy)]
pub enum Record {
    // HETATM, or ATOM.
    Coordinate(bool, Atom),
    Ter(Ter),
    Helix(Helix),
    Sheet(Sheet),
    Conect(Conect),
    Master(Tally),
    End,
    Model(Model),
    Endmdl,
    Cell(Cell),
    // SCALE, or ORIGX.
    Transform(bool, Axis, Transform),
}

// A line that is a name alone.
#[derive(Clone, Copy)]
pub struct Bare;

impl Layout for Bare {
    ghost format = { bare_layout };

    fn read(line: &[u8; 80]) -> Result<Bare, Column> {
        columns::gap(line, 6, 74)?;
        Ok(Bare)
    }

    // There is no field that could be out of its range.
    fn is_good(self) -> bool {
        true
    }

    fn put(self, line: &mut [u8; 80]) {
        columns::put_blanks(line, 6, 74);
    }
}

// Reads one line: 1 where it has not 80 columns, 3 where one is outside 32-126, 4 for a name that is unknown or carried, 6 for a wrong field, with
// its column.
pub fn read_line(line: &[u8]) -> Result<Record, Misread>
    ensures { result ≡ read_line line.now }
{
    let Some(columns) = line.as_array::<80>() else {
        return Err(Misread::Refused(Refusal::Length));
    };
    if !columns::is_clean(columns, 0, 80) {
        return Err(Misread::Refused(Refusal::Byte));
    }
    let r = read_kind(columns, kinds::kind_of(columns))?;
    Ok(r)
}

// The number of an answer, and its column: 0 where the number is not 6.
pub fn answer_number(a: Result<Record, Misread>) -> u8
    ensures { result ≡ answer_number a }
{
    match a {
        Ok(_) => 0,
        Err(Misread::Refused(r)) => r.number(),
        Err(Misread::Wrong(_)) => Refusal::Field.number(),
    }
}

pub fn answer_column(a: Result<Record, Misread>) -> u32
    ensures { result ≡ answer_column a }
{
    match a {
        Ok(_) => 0,
        Err(Misread::Refused(_)) => 0,
        Err(Misread::Wrong(column)) => column.0,
    }
}

// Writes the line of a record, 80 bytes, or leaves all as found: 6 where a field is out of its range, 17 where there is no room.
pub fn write_record(out: &mut [u8], r: Record) -> Result<(), Refusal>
    ensures number { number_in result ≡ write_number (record_ok r) out.old }
    ensures line_after { out.new ≡ write_line (record_ok r) (record_line r) out.old }
{
    match r {
        Record::Coordinate(het, a) => coordinate::write_atom(out, het, a),
        Record::Ter(t) => ter::write_ter(out, t),
        Record::Helix(h) => helix::write_helix(out, h),
        Record::Sheet(s) => sheet::write_sheet(out, s),
        Record::Conect(c) => conect::write_conect(out, c),
        Record::Master(t) => master::write_master(out, t),
        Record::End => kinds::write(out, kinds::END, Bare),
        Record::Model(m) => model::write_model(out, m),
        Record::Endmdl => kinds::write(out, kinds::ENDMDL, Bare),
        Record::Cell(c) => cell::write_cell(out, c),
        Record::Transform(scale, axis, t) => transform::write_transform(out, scale, axis, t),
    }
}

// What a line of 80 columns reads to, by its kind.
pub fn read_kind(line: &[u8; 80], k: Kind) -> Result<Record, Unread>
    ensures { result ≡ reading_of k line.now }
{
    let r = match k {
        Kind::Atom => Record::Coordinate(false, Atom::read(line)?),
        Kind::Hetatm => Record::Coordinate(true, Atom::read(line)?),
        Kind::Ter => Record::Ter(Ter::read(line)?),
        Kind::Helix => Record::Helix(Helix::read(line)?),
        Kind::Sheet => Record::Sheet(Sheet::read(line)?),
        Kind::Conect => Record::Conect(Conect::read(line)?),
        Kind::Master => Record::Master(Tally::read(line)?),
        Kind::End => {
            Bare::read(line)?;
            Record::End
        }
        Kind::Model => Record::Model(Model::read(line)?),
        Kind::Endmdl => {
            Bare::read(line)?;
            Record::Endmdl
        }
        Kind::Cryst1 => Record::Cell(Cell::read(line)?),
        Kind::Origx1 => Record::Transform(false, Axis::X, Transform::read(line)?),
        Kind::Origx2 => Record::Transform(false, Axis::Y, Transform::read(line)?),
        Kind::Origx3 => Record::Transform(false, Axis::Z, Transform::read(line)?),
        Kind::Scale1 => Record::Transform(true, Axis::X, Transform::read(line)?),
        Kind::Scale2 => Record::Transform(true, Axis::Y, Transform::read(line)?),
        Kind::Scale3 => Record::Transform(true, Axis::Z, Transform::read(line)?),
        _ => return Err(Unread::Untyped),
    };
    Ok(r)
}
