// TER: read and written.
#![tactic(auto)]

ghost use Rattle.refusals.specs.Numbers.{number_in};
ghost use Rattle.kinds.specs.Kinds.{line_with};
ghost use Rattle.kinds.specs.declared.Kind.TheVariants as kind;
ghost use Rattle.fields.specs.Format.{write_number, write_line};
ghost use Rattle.std.specs.Prelude.{◌≡◌};
ghost use Rattle.ter.specs.Ters.{ter_f};

use columns::Column;
use fields::Serial;
use kinds::Layout;
use refusals::Refusal;
use residue::Residue;

#[derive(Clone, Copy, Debug, PartialEq, Eq)]
pub struct Ter {
    pub serial: Serial,
    pub residue: Residue,
}

impl Layout for Ter {
    ghost format = { ter_f };

    fn read(line: &[u8; 80]) -> Result<Ter, Column> {
        let serial = fields::read_whole(line, 6, 5, 1, 99999)?;
        columns::gap(line, 11, 6)?;
        let residue = residue::read_residue(line, 17, 0)?;
        columns::gap(line, 27, 53)?;
        Ok(Ter {
            serial: Serial(serial),
            residue,
        })
    }

    fn is_good(self) -> bool {
        fields::ranged(self.serial.0, 1, 99999) & residue::is_good(self.residue)
    }

    fn put(self, line: &mut [u8; 80]) {
        fields::put_whole(line, 6, 5, self.serial.0);
        columns::put_blanks(line, 11, 6);
        residue::put_residue(line, 17, 0, self.residue);
        columns::put_blanks(line, 27, 53);
    }
}

// Writes the line, 80 bytes, or leaves all as found: where a field is out of its range, or there is no room.
pub fn write_ter(line: &mut [u8], t: Ter) -> Result<(), Refusal>
    ensures number { number_in result ≡ write_number (ter_f.ok t) line.old }
    ensures line_after { line.new ≡ write_line (ter_f.ok t) (line_with kind.Ter ter_f t) line.old }
{
    kinds::write(line, kinds::TER, t)
}
