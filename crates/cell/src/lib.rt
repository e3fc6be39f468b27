// CRYST1: read and written.
#![tactic(auto)]

ghost use Rattle.refusals.specs.Numbers.{number_in};
ghost use Rattle.kinds.specs.Kinds.{line_with};
ghost use Rattle.kinds.specs.declared.Kind.TheVariants as kind;
ghost use Rattle.std.specs.Prelude.{◌≡◌};
ghost use Rattle.cell.specs.Cells.{edges_f, angles_f, group_f, cell_f};
ghost use Rattle.fields.specs.Format.{read_of, write_number, write_line};

use columns::Column;
use kinds::Layout;
use refusals::Refusal;

// Columns 7 to 33: the edges of the cell, in thousandths.
#[repr(C)]
#[derive(Clone, Copy, Debug, PartialEq, Eq)]
pub struct Edges {
    pub a: u32,
    pub b: u32,
    pub c: u32,
}

// Columns 34 to 54: its angles, in hundredths of a degree.
#[repr(C)]
#[derive(Clone, Copy, Debug, PartialEq, Eq)]
pub struct Angles {
    pub alpha: u32,
    pub beta: u32,
    pub gamma: u32,
}

// Columns 56 to 66: the space group, as it stands there. (In three parts, since the first column of a part is what is blamed.)
#[repr(C)]
#[derive(Clone, Copy, Debug, PartialEq, Eq)]
pub struct Group {
    pub a: [u8; 4],
    pub b: [u8; 4],
    pub c: [u8; 3],
}

#[derive(Clone, Copy, Debug, PartialEq, Eq)]
pub struct Cell {
    pub edges: Edges,
    pub angles: Angles,
    pub group: Group,
    pub z: u32,
}

// Edges, angles, and the coefficients of ORIGX and SCALE have readers of their own: the format gives each another width, other decimals and bounds.
fn read_edges(line: &[u8; 80]) -> Result<Edges, Column>
    ensures { result ≡ read_of edges_f line.now 6 }
{
    let a = fields::read_whole_real(line, 6, 9, 3, 1, 99999999)?;
    let b = fields::read_whole_real(line, 15, 9, 3, 1, 99999999)?;
    let c = fields::read_whole_real(line, 24, 9, 3, 1, 99999999)?;
    Ok(Edges { a, b, c })
}

fn read_angles(line: &[u8; 80]) -> Result<Angles, Column>
    ensures { result ≡ read_of angles_f line.now 33 }
{
    let alpha = fields::read_whole_real(line, 33, 7, 2, 1, 17999)?;
    let beta = fields::read_whole_real(line, 40, 7, 2, 1, 17999)?;
    let gamma = fields::read_whole_real(line, 47, 7, 2, 1, 17999)?;
    Ok(Angles { alpha, beta, gamma })
}

fn read_group(line: &[u8; 80]) -> Result<Group, Column>
    ensures { result ≡ read_of group_f line.now 55 }
{
    let a = names::read_free::<4>(line, 55)?;
    let b = names::read_free::<4>(line, 59)?;
    let c = names::read_free::<3>(line, 63)?;
    Ok(Group { a, b, c })
}

impl Layout for Cell {
    ghost format = { cell_f };

    fn read(line: &[u8; 80]) -> Result<Cell, Column> {
        let edges = read_edges(line)?;
        let angles = read_angles(line)?;
        columns::gap(line, 54, 1)?;
        let group = read_group(line)?;
        let z = fields::read_whole(line, 66, 4, 1, 9999)?;
        columns::gap(line, 70, 10)?;
        Ok(Cell {
            edges,
            angles,
            group,
            z,
        })
    }

    fn is_good(self) -> bool {
        fields::ranged(self.edges.a, 1, 99999999)
            & fields::ranged(self.edges.b, 1, 99999999)
            & fields::ranged(self.edges.c, 1, 99999999)
            & fields::ranged(self.angles.alpha, 1, 17999)
            & fields::ranged(self.angles.beta, 1, 17999)
            & fields::ranged(self.angles.gamma, 1, 17999)
            & names::is_free(self.group.a)
            & names::is_free(self.group.b)
            & names::is_free(self.group.c)
            & fields::ranged(self.z, 1, 9999)
    }

    fn put(self, line: &mut [u8; 80]) {
        fields::put_whole_real(line, 6, 9, 3, self.edges.a);
        fields::put_whole_real(line, 15, 9, 3, self.edges.b);
        fields::put_whole_real(line, 24, 9, 3, self.edges.c);
        fields::put_whole_real(line, 33, 7, 2, self.angles.alpha);
        fields::put_whole_real(line, 40, 7, 2, self.angles.beta);
        fields::put_whole_real(line, 47, 7, 2, self.angles.gamma);
        columns::put_blanks(line, 54, 1);
        names::put(line, 55, self.group.a);
        names::put(line, 59, self.group.b);
        names::put(line, 63, self.group.c);
        fields::put_whole(line, 66, 4, self.z);
        columns::put_blanks(line, 70, 10);
    }
}

// Writes the line, 80 bytes, or leaves all as found: where a field is out of its range, or there is no room.
pub fn write_cell(line: &mut [u8], c: Cell) -> Result<(), Refusal>
    ensures number { number_in result ≡ write_number (cell_f.ok c) line.old }
    ensures line_after { line.new ≡ write_line (cell_f.ok c) (line_with kind.Cryst1 cell_f c) line.old }
{
    kinds::write(line, kinds::CRYST1, c)
}
