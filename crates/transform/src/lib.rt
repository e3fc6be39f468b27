// ORIGX1-3 and SCALE1-3: read and written.
#![tactic(auto)]

ghost use Rattle.refusals.specs.Numbers.{number_in};
ghost use Rattle.std.specs.Prelude.{◌≡◌};
ghost use Rattle.fields.specs.Format.{read_of, write_number, write_line};
ghost use Rattle.kinds.specs.Kinds.{row_of, line_with};
ghost use Rattle.transform.specs.Transforms.{coefficients_f, transform_f, transform_kind};

use columns::Column;
use kinds::{Kind, Layout};
use refusals::Refusal;

// Which of the three lines.
#[derive(Clone, Copy, Debug, PartialEq, Eq)]
pub enum Axis {
    X,
    Y,
    Z,
}

// Columns 11 to 40, in millionths.
#[repr(C)]
#[derive(Clone, Copy, Debug, PartialEq, Eq)]
pub struct Coefficients {
    pub x: i32,
    pub y: i32,
    pub z: i32,
}

// One line; the shift in hundred-thousandths.
#[repr(C)]
#[derive(Clone, Copy, Debug, PartialEq, Eq)]
pub struct Transform {
    pub by: Coefficients,
    pub shift: i32,
}

// The kind of the line: SCALE or ORIGX, and the axis, are two fields of its record.
pub fn kind_of(scale: bool, axis: Axis) -> Kind
    ensures { result ≡ transform_kind scale axis }
{
    match (scale, axis) {
        (false, Axis::X) => Kind::Origx1,
        (false, Axis::Y) => Kind::Origx2,
        (false, Axis::Z) => Kind::Origx3,
        (true, Axis::X) => Kind::Scale1,
        (true, Axis::Y) => Kind::Scale2,
        (true, Axis::Z) => Kind::Scale3,
    }
}

// Its name, as one number.
pub fn name_of(scale: bool, axis: Axis) -> u64
    ensures { result ≡ (row_of (transform_kind scale axis)).name }
{
    kinds::row_of(kind_of(scale, axis)).name
}

// Unlike the edges of a cell they have a sign and six decimals, so that no reader serves both.
fn read_coefficients(line: &[u8; 80]) -> Result<Coefficients, Column>
    ensures { result ≡ read_of coefficients_f line.now 10 }
{
    let x = fields::read_signed(line, 10, 10, fields::POINT_6)?;
    let y = fields::read_signed(line, 20, 10, fields::POINT_6)?;
    let z = fields::read_signed(line, 30, 10, fields::POINT_6)?;
    Ok(Coefficients { x, y, z })
}

impl Layout for Transform {
    ghost format = { transform_f };

    fn read(line: &[u8; 80]) -> Result<Transform, Column> {
        columns::gap(line, 6, 4)?;
        let by = read_coefficients(line)?;
        columns::gap(line, 40, 5)?;
        let shift = fields::read_signed(line, 45, 10, fields::POINT_5)?;
        columns::gap(line, 55, 25)?;
        Ok(Transform { by, shift })
    }

    fn is_good(self) -> bool {
        fields::spans(self.by.x, 99999999, 999999999)
            & fields::spans(self.by.y, 99999999, 999999999)
            & fields::spans(self.by.z, 99999999, 999999999)
            & fields::spans(self.shift, 99999999, 999999999)
    }

    fn put(self, line: &mut [u8; 80]) {
        columns::put_blanks(line, 6, 4);
        fields::put_real(line, 10, 10, 6, self.by.x);
        fields::put_real(line, 20, 10, 6, self.by.y);
        fields::put_real(line, 30, 10, 6, self.by.z);
        columns::put_blanks(line, 40, 5);
        fields::put_real(line, 45, 10, 5, self.shift);
        columns::put_blanks(line, 55, 25);
    }
}

// Writes the line, 80 bytes, or leaves all as found: where a field is out of its range, or there is no room.
pub fn write_transform(
    line: &mut [u8],
    scale: bool,
    axis: Axis,
    t: Transform,
) -> Result<(), Refusal>
    ensures number { number_in result ≡ write_number (transform_f.ok t) line.old }
    ensures line_after { line.new ≡ write_line (transform_f.ok t) (line_with (transform_kind scale axis) transform_f t) line.old }
{
    kinds::write(line, name_of(scale, axis), t)
}
