// MODEL: read and written.
#![tactic(auto)]

ghost use Rattle.refusals.specs.Numbers.{number_in};
ghost use Rattle.kinds.specs.Kinds.{line_with};
ghost use Rattle.kinds.specs.declared.Kind.TheVariants as kind;
ghost use Rattle.fields.specs.Format.{write_number, write_line};
ghost use Rattle.std.specs.Prelude.{◌≡◌};
ghost use Rattle.model.specs.Models.{model_f};

use columns::Column;
use kinds::Layout;
use refusals::Refusal;

#[derive(Clone, Copy, Debug, PartialEq, Eq)]
pub struct Model {
    pub number: u32,
}

impl Layout for Model {
    ghost format = { model_f };

    fn read(line: &[u8; 80]) -> Result<Model, Column> {
        columns::gap(line, 6, 4)?;
        let number = fields::read_whole(line, 10, 4, 1, 9999)?;
        columns::gap(line, 14, 66)?;
        Ok(Model { number })
    }

    fn is_good(self) -> bool {
        fields::ranged(self.number, 1, 9999)
    }

    fn put(self, line: &mut [u8; 80]) {
        columns::put_blanks(line, 6, 4);
        fields::put_whole(line, 10, 4, self.number);
        columns::put_blanks(line, 14, 66);
    }
}

// Writes the line, 80 bytes, or leaves all as found: where a field is out of its range, or there is no room.
pub fn write_model(line: &mut [u8], m: Model) -> Result<(), Refusal>
    ensures number { number_in result ≡ write_number (model_f.ok m) line.old }
    ensures line_after { line.new ≡ write_line (model_f.ok m) (line_with kind.Model model_f m) line.old }
{
    kinds::write(line, kinds::MODEL, m)
}
