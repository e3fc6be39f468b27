// SHEET: read and written.
#![tactic(auto)]

ghost use Rattle.refusals.specs.Numbers.{number_in};
ghost use Rattle.kinds.specs.Kinds.{line_with};
ghost use Rattle.kinds.specs.declared.Kind.TheVariants as kind;
ghost use Rattle.std.specs.Prelude.{◌≡◌};
ghost use Rattle.columns.specs.Columns.{Put};
ghost use Rattle.fields.specs.Format.{read_of, write_number, write_line};
ghost use Rattle.sheet.specs.Sheets.{is_sense, sense_fits, bond_f, strand_f, registration_f, sheet_f};

use columns::Column;
use kinds::Layout;
use refusals::Refusal;
use residue::Residue;

// The record is in the parts that its definition has. Columns 42 to 70.
#[derive(Clone, Copy, Debug, PartialEq, Eq)]
pub struct Bond {
    pub atom: [u8; 4],
    pub residue: Residue,
    pub other_atom: [u8; 4],
    pub other: Residue,
}

// Columns 8 to 40.
#[derive(Clone, Copy, Debug, PartialEq, Eq)]
pub struct Strand {
    pub strand: u32,
    pub id: [u8; 3],
    pub strands: u32,
    pub first: Residue,
    pub last: Residue,
    pub sense: i32,
}

#[derive(Clone, Copy, Debug, PartialEq, Eq)]
pub struct Sheet {
    pub strand: Strand,
    pub registration: Option<Bond>,
}

fn read_bond(line: &[u8; 80]) -> Result<Bond, Column>
    ensures { result ≡ read_of bond_f line.now 41 }
{
    let atom = names::read_bond(line, 41)?;
    let residue = residue::read_residue(line, 45, 0)?;
    columns::gap(line, 55, 1)?;
    let other_atom = names::read_bond(line, 56)?;
    let other = residue::read_residue(line, 60, 0)?;
    Ok(Bond {
        atom,
        residue,
        other_atom,
        other,
    })
}

// For strand 1 blank, else blank or filled.
fn read_registration(line: &[u8; 80], strand: u32) -> Result<Option<Bond>, Column>
    ensures { result ≡ read_of (registration_f strand) line.now 41 }
{
    match columns::gap(line, 41, 29) {
        Ok(()) => Ok(None),
        Err(column) if strand == 1 => Err(column),
        Err(_) => Ok(Some(read_bond(line)?)),
    }
}

// 0, 1 or -1. (Two compares: of a range as a pattern the proof is told nothing.)
fn is_sense(z: i32) -> bool
    ensures { result ≡ is_sense z }
{
    -1 <= z && z <= 1
}

// 0 exactly for strand 1.
fn sense_fits(strand: u32, z: i32) -> bool
    ensures { result ≡ sense_fits strand z }
{
    (strand == 1) == (z == 0)
}

fn read_strand(line: &[u8; 80]) -> Result<Strand, Column>
    ensures { result ≡ read_of strand_f line.now 6 }
{
    columns::gap(line, 6, 1)?;
    let strand = fields::read_whole(line, 7, 3, 1, 999)?;
    columns::gap(line, 10, 1)?;
    let id = names::read_identifier(line, 11)?;
    let strands = fields::read_whole(line, 14, 2, 1, 99)?;
    columns::gap(line, 16, 1)?;
    let first = residue::read_residue(line, 17, 0)?;
    columns::gap(line, 27, 1)?;
    let last = residue::read_residue(line, 28, 0)?;
    let sense = fields::read_integer(line, 38, 2)?;
    columns::judged((), is_sense(sense), 38)?;
    columns::judged((), sense_fits(strand, sense), 38)?;
    Ok(Strand {
        strand,
        id,
        strands,
        first,
        last,
        sense,
    })
}

fn bond_is_good(b: Bond) -> bool
    ensures { result ≡ bond_f.ok b }
{
    names::is_bond_name(b.atom)
        & residue::is_good(b.residue)
        & names::is_bond_name(b.other_atom)
        & residue::is_good(b.other)
}

fn registration_is_good(strand: u32, r: Option<Bond>) -> bool
    ensures { result ≡ (registration_f strand).ok r }
{
    match r {
        None => true,
        Some(b) => strand != 1 && bond_is_good(b),
    }
}

fn strand_is_good(s: Strand) -> bool
    ensures { result ≡ strand_f.ok s }
{
    fields::ranged(s.strand, 1, 999)
        & names::is_identifier(s.id)
        & fields::ranged(s.strands, 1, 99)
        & residue::is_good(s.first)
        & residue::is_good(s.last)
        & fields::spans(s.sense, 9, 99)
        & is_sense(s.sense)
        & sense_fits(s.strand, s.sense)
}

fn put_bond(line: &mut [u8; 80], b: Bond)
    ensures { Put line.old 41 29 (bond_f.text b) line.new }
{
    names::put(line, 41, b.atom);
    residue::put_residue(line, 45, 0, b.residue);
    columns::put_blanks(line, 55, 1);
    names::put(line, 56, b.other_atom);
    residue::put_residue(line, 60, 0, b.other);
}

fn put_registration(line: &mut [u8; 80], strand: u32, r: Option<Bond>)
    ensures { Put line.old 41 29 ((registration_f strand).text r) line.new }
{
    match r {
        Some(b) if strand != 1 => put_bond(line, b),
        _ => columns::put_blanks(line, 41, 29),
    }
}

fn put_strand(line: &mut [u8; 80], s: Strand)
    ensures { Put line.old 6 34 (strand_f.text s) line.new }
{
    columns::put_blanks(line, 6, 1);
    fields::put_whole(line, 7, 3, s.strand);
    columns::put_blanks(line, 10, 1);
    names::put(line, 11, s.id);
    fields::put_whole(line, 14, 2, s.strands);
    columns::put_blanks(line, 16, 1);
    residue::put_residue(line, 17, 0, s.first);
    columns::put_blanks(line, 27, 1);
    residue::put_residue(line, 28, 0, s.last);
    fields::put_integer(line, 38, 2, s.sense);
}

impl Layout for Sheet {
    ghost format = { sheet_f };

    fn read(line: &[u8; 80]) -> Result<Sheet, Column> {
        let strand = read_strand(line)?;
        columns::gap(line, 40, 1)?;
        let registration = read_registration(line, strand.strand)?;
        columns::gap(line, 70, 10)?;
        Ok(Sheet {
            strand,
            registration,
        })
    }

    fn is_good(self) -> bool {
        strand_is_good(self.strand) & registration_is_good(self.strand.strand, self.registration)
    }

    fn put(self, line: &mut [u8; 80]) {
        put_strand(line, self.strand);
        columns::put_blanks(line, 40, 1);
        put_registration(line, self.strand.strand, self.registration);
        columns::put_blanks(line, 70, 10);
    }
}

// Writes the line, 80 bytes, or leaves all as found: where a field is out of its range, or there is no room.
pub fn write_sheet(line: &mut [u8], s: Sheet) -> Result<(), Refusal>
    ensures number { number_in result ≡ write_number (sheet_f.ok s) line.old }
    ensures line_after { line.new ≡ write_line (sheet_f.ok s) (line_with kind.Sheet sheet_f s) line.old }
{
    kinds::write(line, kinds::SHEET, s)
}
