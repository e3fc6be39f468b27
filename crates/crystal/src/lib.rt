// A line of the crystal frame read by itself: the cell of CRYST1, and the transformation of ORIGX or SCALE.
#![tactic(auto)]

ghost use Rattle.std.specs.Prelude.{◌≡◌};
ghost use Rattle.refusals.specs.Numbers.{numbered};
ghost use Rattle.crystal.specs.Crystal.{cell_row, cell_line, row_number, transform_line};

use cell::{Angles, Cell, Edges, Group};
use kinds::{Kind, Layout};
use refusals::Refusal;
use transform::Transform;

// The row as C has it: 40 bytes, no padding. The byte at the end is 0.
#[repr(C)]
#[derive(Clone, Copy, Debug, PartialEq, Eq)]
pub struct CellRow {
    pub edges: Edges,
    pub angles: Angles,
    pub z: u32,
    pub group: Group,
    pub end: u8,
}

fn cell_row(c: Cell) -> CellRow
    ensures { result ≡ cell_row c }
{
    CellRow {
        edges: c.edges,
        angles: c.angles,
        z: c.z,
        group: c.group,
        end: 0,
    }
}

// The cell of one line read by itself: 1, 3, 4 for any other kind, 6.
pub fn cell_of_line(line: &[u8]) -> Result<CellRow, Refusal>
    ensures { numbered result ≡ cell_line line.now }
{
    let Some(line) = line.as_array::<80>() else {
        return Err(Refusal::Length);
    };
    if !columns::is_clean(line, 0, 80) {
        return Err(Refusal::Byte);
    }
    let Kind::Cryst1 = kinds::kind_of(line) else {
        return Err(Refusal::Name);
    };
    let Ok(cell) = Cell::read(line) else {
        return Err(Refusal::Field);
    };
    Ok(cell_row(cell))
}

// Which of the six lines a kind is, 1 to 6.
fn row_number(k: Kind) -> Option<u8>
    ensures { result ≡ row_number k }
{
    match k {
        Kind::Origx1 => Some(1),
        Kind::Origx2 => Some(2),
        Kind::Origx3 => Some(3),
        Kind::Scale1 => Some(4),
        Kind::Scale2 => Some(5),
        Kind::Scale3 => Some(6),
        _ => None,
    }
}

// The transformation of one line read by itself, and which of the six lines it is: 1, 3, 4 for any other kind, 6.
pub fn transform_of_line(line: &[u8]) -> Result<(u8, Transform), Refusal>
    ensures { numbered result ≡ transform_line line.now }
{
    let Some(line) = line.as_array::<80>() else {
        return Err(Refusal::Length);
    };
    if !columns::is_clean(line, 0, 80) {
        return Err(Refusal::Byte);
    }
    let Some(n) = row_number(kinds::kind_of(line)) else {
        return Err(Refusal::Name);
    };
    let Ok(transform) = Transform::read(line) else {
        return Err(Refusal::Field);
    };
    Ok((n, transform))
}
