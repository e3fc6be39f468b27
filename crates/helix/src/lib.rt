// HELIX: read and written.
#![tactic(auto)]

ghost use Rattle.refusals.specs.Numbers.{number_in};
ghost use Rattle.kinds.specs.Kinds.{line_with};
ghost use Rattle.kinds.specs.declared.Kind.TheVariants as kind;
ghost use Rattle.std.specs.Prelude.{◌≡◌};
ghost use Rattle.columns.specs.Columns.{Put};
ghost use Rattle.fields.specs.Format.{read_of, write_number, write_line};
ghost use Rattle.helix.specs.Helices.{extent_f, comment_f, helix_f};

use columns::Column;
use kinds::Layout;
use refusals::Refusal;
use residue::Residue;

// Columns 7 to 38. (A part of the record, as the definition of HELIX has it.)
#[derive(Clone, Copy, Debug, PartialEq, Eq)]
pub struct Extent {
    pub serial: u32,
    pub id: [u8; 3],
    pub first: Residue,
    pub last: Residue,
}

// Columns 41 to 70, as words of 8, 8, 7 and 7 columns: eight bytes are compared as one number.
#[derive(Clone, Copy, Debug, PartialEq, Eq)]
pub struct Comment {
    pub a: u64,
    pub b: u64,
    pub c: u64,
    pub d: u64,
}

#[derive(Clone, Copy, Debug, PartialEq, Eq)]
pub struct Helix {
    pub extent: Extent,
    pub class: u32,
    pub comment: Comment,
    pub length: u32,
}

// Both ends are of one chain: the second, inside the last residue, is blamed.
fn read_extent(line: &[u8; 80]) -> Result<Extent, Column>
    ensures { result ≡ read_of extent_f line.now 6 }
{
    columns::gap(line, 6, 1)?;
    let serial = fields::read_whole(line, 7, 3, 1, 999)?;
    columns::gap(line, 10, 1)?;
    let id = names::read_identifier(line, 11)?;
    columns::gap(line, 14, 1)?;
    let first = residue::read_residue(line, 15, 1)?;
    columns::gap(line, 26, 1)?;
    let chain = columns::judged((), first.chain == line[31], 31);
    let last = columns::lower(residue::read_residue(line, 27, 1), chain)?;
    Ok(Extent {
        serial,
        id,
        first,
        last,
    })
}

fn read_comment(line: &[u8; 80]) -> Result<Comment, Column>
    ensures { result ≡ read_of comment_f line.now 40 }
{
    let a = words::read_word(line, 40, 8)?;
    let b = words::read_word(line, 48, 8)?;
    let c = words::read_word(line, 56, 7)?;
    let d = words::read_word(line, 63, 7)?;
    Ok(Comment { a, b, c, d })
}

fn extent_is_good(e: Extent) -> bool
    ensures { result ≡ extent_f.ok e }
{
    fields::ranged(e.serial, 1, 999)
        & names::is_identifier(e.id)
        & residue::is_good(e.first)
        & residue::is_good(e.last)
        & (e.first.chain == e.last.chain)
}

fn comment_is_good(c: Comment) -> bool
    ensures { result ≡ comment_f.ok c }
{
    words::is_word(8, c.a)
        & words::is_word(8, c.b)
        & words::is_word(7, c.c)
        & words::is_word(7, c.d)
}

fn put_extent(line: &mut [u8; 80], e: Extent)
    ensures { Put line.old 6 32 (extent_f.text e) line.new }
{
    columns::put_blanks(line, 6, 1);
    fields::put_whole(line, 7, 3, e.serial);
    columns::put_blanks(line, 10, 1);
    names::put(line, 11, e.id);
    columns::put_blanks(line, 14, 1);
    residue::put_residue(line, 15, 1, e.first);
    columns::put_blanks(line, 26, 1);
    residue::put_residue(line, 27, 1, e.last);
}

fn put_comment(line: &mut [u8; 80], c: Comment)
    ensures { Put line.old 40 30 (comment_f.text c) line.new }
{
    words::put_word(line, 40, 8, c.a);
    words::put_word(line, 48, 8, c.b);
    words::put_word(line, 56, 7, c.c);
    words::put_word(line, 63, 7, c.d);
}

impl Layout for Helix {
    ghost format = { helix_f };

    fn read(line: &[u8; 80]) -> Result<Helix, Column> {
        let extent = read_extent(line)?;
        let class = fields::read_whole(line, 38, 2, 1, 10)?;
        let comment = read_comment(line)?;
        columns::gap(line, 70, 1)?;
        let length = fields::read_whole(line, 71, 5, 1, 99999)?;
        columns::gap(line, 76, 4)?;
        Ok(Helix {
            extent,
            class,
            comment,
            length,
        })
    }

    fn is_good(self) -> bool {
        extent_is_good(self.extent)
            & fields::ranged(self.class, 1, 10)
            & comment_is_good(self.comment)
            & fields::ranged(self.length, 1, 99999)
    }

    fn put(self, line: &mut [u8; 80]) {
        put_extent(line, self.extent);
        fields::put_whole(line, 38, 2, self.class);
        put_comment(line, self.comment);
        columns::put_blanks(line, 70, 1);
        fields::put_whole(line, 71, 5, self.length);
        columns::put_blanks(line, 76, 4);
    }
}

// Writes the line, 80 bytes, or leaves all as found: where a field is out of its range, or there is no room.
pub fn write_helix(line: &mut [u8], h: Helix) -> Result<(), Refusal>
    ensures number { number_in result ≡ write_number (helix_f.ok h) line.old }
    ensures line_after { line.new ≡ write_line (helix_f.ok h) (line_with kind.Helix helix_f h) line.old }
{
    kinds::write(line, kinds::HELIX, h)
}
