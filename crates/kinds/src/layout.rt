// A record of one kind of line, by its columns 7 to 80: read, judged and written. What is said of one kind is said of each.
ghost use Rattle.std.specs.Prelude.{◌≡◌, ◌++◌};
ghost use Rattle.columns.specs.Columns.{Put};
ghost use Rattle.fields.specs.Format.{Format, read_of, write_number, write_line};
ghost use Rattle.refusals.specs.Numbers.{number_in};
ghost use Rattle.words.specs.Words.{bytes_of};

use columns::Column;
use refusals::Refusal;

pub trait Layout: Copy {
    // The format of its columns.
    ghost format: { Format Self };

    // The record of a line, or the first column of the leftmost field that is wrong.
    fn read(line: &[u8; 80]) -> Result<Self, Column>
        ensures { result ≡ read_of format line.now 6 };

    // Whether each field is within its range.
    fn is_good(self) -> bool
        ensures { result ≡ format.ok self };

    // Columns 7 to 80.
    fn put(self, line: &mut [u8; 80])
        ensures { Put line.old 6 74 (format.text self) line.new };
}

// Writes the line of a record behind its name, 80 bytes, or leaves all as found: where a field is out of its range, or there is no room.
pub fn write<R: Layout>(line: &mut [u8], name: u64, r: R) -> Result<(), Refusal>
    ensures number { number_in result ≡ write_number (R.format.ok r) line.old }
    ensures line_after { line.new ≡ write_line (R.format.ok r) (bytes_of 6 name ++ R.format.text r) line.old }
{
    if !r.is_good() {
        return Err(Refusal::Field);
    }
    let Some(columns) = line.first_chunk_mut::<80>() else {
        return Err(Refusal::Room);
    };
    words::put_word(columns, 0, 6, name);
    r.put(columns);
    Ok(())
}
