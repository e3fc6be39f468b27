// CONECT: read and written. A partner that is not there is 0, as the format has it: no serial is 0.
#![tactic(auto)]

ghost use Rattle.refusals.specs.Numbers.{number_in};
ghost use Rattle.kinds.specs.Kinds.{line_with};
ghost use Rattle.kinds.specs.declared.Kind.TheVariants as kind;
ghost use Rattle.std.specs.Prelude.{◌≡◌, ◌+◌, ◌≤◌};
ghost use Rattle.columns.specs.Columns.{Put};
ghost use Rattle.fields.specs.Format.{read_of, write_number, write_line};
ghost use Rattle.conect.specs.Conects.{partner_f, differs, unbroken, conect_f};

use columns::Column;
use fields::Serial;
use kinds::Layout;
use refusals::Refusal;

#[derive(Clone, Copy, Debug, PartialEq, Eq)]
pub struct Conect {
    pub serial: Serial,
    pub a: Serial,
    pub b: Serial,
    pub c: Serial,
    pub d: Serial,
}

// A serial, or blank.
fn read_partner(line: &[u8; 80], at: usize) -> Result<u32, Column>
    requires { at + 5 ≤ 80 }
    ensures { result ≡ read_of partner_f line.now at }
{
    if columns::gap(line, at, 5).is_ok() {
        return Ok(0);
    }
    fields::read_whole(line, at, 5, 1, 99999)
}

fn other(a: u32, b: u32) -> bool
    ensures { result ≡ differs a b }
{
    a != b
}

// The next one is there only if this one is.
fn in_turn(a: u32, next: u32) -> bool
    ensures { result ≡ unbroken a next }
{
    next == 0 || 0 < a
}

fn partner_is_good(v: u32) -> bool
    ensures { result ≡ partner_f.ok v }
{
    v <= 99999
}

fn put_partner(line: &mut [u8; 80], at: usize, v: u32)
    requires { at + 5 ≤ 80 }
    ensures { Put line.old at 5 (partner_f.text v) line.new }
{
    if v == 0 {
        columns::put_blanks(line, at, 5);
    } else {
        fields::put_whole(line, at, 5, v);
    }
}

impl Layout for Conect {
    ghost format = { conect_f };

    // Each partner is judged with what stands left of it before the next one is read.
    fn read(line: &[u8; 80]) -> Result<Conect, Column> {
        let s = fields::read_whole(line, 6, 5, 1, 99999)?;
        let a = fields::read_whole(line, 11, 5, 1, 99999)?;
        columns::judged((), other(a, s), 11)?;
        let b = read_partner(line, 16)?;
        columns::judged((), other(b, s), 16)?;
        let c = read_partner(line, 21)?;
        columns::judged((), other(c, s) & in_turn(b, c), 21)?;
        let d = read_partner(line, 26)?;
        columns::judged((), other(d, s) & in_turn(c, d), 26)?;
        columns::gap(line, 31, 49)?;
        Ok(Conect {
            serial: Serial(s),
            a: Serial(a),
            b: Serial(b),
            c: Serial(c),
            d: Serial(d),
        })
    }

    fn is_good(self) -> bool {
        let Conect { serial, a, b, c, d } = self;
        fields::ranged(serial.0, 1, 99999)
            & fields::ranged(a.0, 1, 99999)
            & partner_is_good(b.0)
            & partner_is_good(c.0)
            & partner_is_good(d.0)
            & other(a.0, serial.0)
            & other(b.0, serial.0)
            & other(c.0, serial.0)
            & in_turn(b.0, c.0)
            & other(d.0, serial.0)
            & in_turn(c.0, d.0)
    }

    fn put(self, line: &mut [u8; 80]) {
        fields::put_whole(line, 6, 5, self.serial.0);
        fields::put_whole(line, 11, 5, self.a.0);
        put_partner(line, 16, self.b.0);
        put_partner(line, 21, self.c.0);
        put_partner(line, 26, self.d.0);
        columns::put_blanks(line, 31, 49);
    }
}

// Writes the line, 80 bytes, or leaves all as found: where a field is out of its range, or there is no room.
pub fn write_conect(line: &mut [u8], r: Conect) -> Result<(), Refusal>
    ensures number { number_in result ≡ write_number (conect_f.ok r) line.old }
    ensures line_after { line.new ≡ write_line (conect_f.ok r) (line_with kind.Conect conect_f r) line.old }
{
    kinds::write(line, kinds::CONECT, r)
}
