// MASTER: read and written.
#![tactic(auto)]

ghost use Rattle.refusals.specs.Numbers.{number_in};
ghost use Rattle.kinds.specs.Kinds.{line_with};
ghost use Rattle.kinds.specs.declared.Kind.TheVariants as kind;
ghost use Rattle.std.specs.Prelude.{◌≡◌};
ghost use Rattle.fields.specs.Format.{read_of, write_number, write_line};
ghost use Rattle.master.specs.Masters.{notes_f, shape_f, atoms_f, master_f};

use columns::Column;
use kinds::Layout;
use refusals::Refusal;

// The nine counts of an entry: what MASTER holds. (C is passed it, so it has no type parameter: `places` counts in 64 bits in a struct of its own.)
#[repr(C)]
#[derive(Clone, Copy, Debug, PartialEq, Eq)]
pub struct Tally {
    pub remark: u32,
    pub het: u32,
    pub helix: u32,
    pub sheet: u32,
    pub xform: u32,
    pub coord: u32,
    pub ter: u32,
    pub conect: u32,
    pub seq: u32,
}

// MASTER is read in the three parts that its definition has. Columns 11 to 30.
#[derive(Clone, Copy)]
pub struct Notes {
    pub remark: u32,
    pub het: u32,
    pub helix: u32,
}

// Columns 31 to 50.
#[derive(Clone, Copy)]
pub struct Shape {
    pub sheet: u32,
    pub xform: u32,
}

// Columns 51 to 70.
#[derive(Clone, Copy)]
pub struct Atoms {
    pub coord: u32,
    pub ter: u32,
    pub conect: u32,
    pub seq: u32,
}

// Columns 11 to 30: REMARK, 0, HET, HELIX.
fn read_notes(line: &[u8; 80]) -> Result<Notes, Column>
    ensures { result ≡ read_of notes_f line.now 10 }
{
    let remark = fields::read_whole(line, 10, 5, 0, 99999)?;
    fields::read_whole(line, 15, 5, 0, 0)?;
    let het = fields::read_whole(line, 20, 5, 0, 99999)?;
    let helix = fields::read_whole(line, 25, 5, 0, 99999)?;
    Ok(Notes { remark, het, helix })
}

// Columns 31 to 50: SHEET, 0 for turns, 0 for sites, ORIGX with SCALE.
fn read_shape(line: &[u8; 80]) -> Result<Shape, Column>
    ensures { result ≡ read_of shape_f line.now 30 }
{
    let sheet = fields::read_whole(line, 30, 5, 0, 99999)?;
    fields::read_whole(line, 35, 5, 0, 0)?;
    fields::read_whole(line, 40, 5, 0, 0)?;
    let xform = fields::read_whole(line, 45, 5, 0, 99999)?;
    Ok(Shape { sheet, xform })
}

// Columns 51 to 70: ATOM with HETATM, TER, CONECT, SEQRES.
fn read_atoms(line: &[u8; 80]) -> Result<Atoms, Column>
    ensures { result ≡ read_of atoms_f line.now 50 }
{
    let coord = fields::read_whole(line, 50, 5, 0, 99999)?;
    let ter = fields::read_whole(line, 55, 5, 0, 99999)?;
    let conect = fields::read_whole(line, 60, 5, 0, 99999)?;
    let seq = fields::read_whole(line, 65, 5, 0, 99999)?;
    Ok(Atoms {
        coord,
        ter,
        conect,
        seq,
    })
}

impl Layout for Tally {
    ghost format = { master_f };

    fn read(line: &[u8; 80]) -> Result<Tally, Column> {
        columns::gap(line, 6, 4)?;
        let Notes { remark, het, helix } = read_notes(line)?;
        let Shape { sheet, xform } = read_shape(line)?;
        let Atoms {
            coord,
            ter,
            conect,
            seq,
        } = read_atoms(line)?;
        columns::gap(line, 70, 10)?;
        Ok(Tally {
            remark,
            het,
            helix,
            sheet,
            xform,
            coord,
            ter,
            conect,
            seq,
        })
    }

    fn is_good(self) -> bool {
        fields::ranged(self.remark, 0, 99999)
            & fields::ranged(self.het, 0, 99999)
            & fields::ranged(self.helix, 0, 99999)
            & fields::ranged(self.sheet, 0, 99999)
            & fields::ranged(self.xform, 0, 99999)
            & fields::ranged(self.coord, 0, 99999)
            & fields::ranged(self.ter, 0, 99999)
            & fields::ranged(self.conect, 0, 99999)
            & fields::ranged(self.seq, 0, 99999)
    }

    fn put(self, line: &mut [u8; 80]) {
        columns::put_blanks(line, 6, 4);
        fields::put_whole(line, 10, 5, self.remark);
        fields::put_whole(line, 15, 5, 0);
        fields::put_whole(line, 20, 5, self.het);
        fields::put_whole(line, 25, 5, self.helix);
        fields::put_whole(line, 30, 5, self.sheet);
        fields::put_whole(line, 35, 5, 0);
        fields::put_whole(line, 40, 5, 0);
        fields::put_whole(line, 45, 5, self.xform);
        fields::put_whole(line, 50, 5, self.coord);
        fields::put_whole(line, 55, 5, self.ter);
        fields::put_whole(line, 60, 5, self.conect);
        fields::put_whole(line, 65, 5, self.seq);
        columns::put_blanks(line, 70, 10);
    }
}

// Writes the line, 80 bytes, or leaves all as found: where a field is out of its range, or there is no room.
pub fn write_master(line: &mut [u8], t: Tally) -> Result<(), Refusal>
    ensures number { number_in result ≡ write_number (master_f.ok t) line.old }
    ensures line_after { line.new ≡ write_line (master_f.ok t) (line_with kind.Master master_f t) line.old }
{
    kinds::write(line, kinds::MASTER, t)
}
