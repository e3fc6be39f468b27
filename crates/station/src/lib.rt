// The names that C calls. Each function is a thin cover over a proved one, and says the same. C has no enums with data: what is refused is a number
// here, and a flag is a byte.
#![tactic(auto)]

ghost use Rattle.std.specs.Prelude.{◌≡◌, false, not, eqb};
ghost use Rattle.gate.specs.Gate.{check_of};
ghost use Rattle.reporting.specs.Report.{numbers_of, plain_numbers_of};
ghost use Rattle.line.specs.Lines.{read_line, answer_number, answer_column};
ghost use Rattle.slots.specs.Slots.{slot_line};
ghost use Rattle.table.specs.Table.{told, load_of, order_of, fragments_of, arrange_of};
ghost use Rattle.table.specs.Deal.{save_of, tray_of};
ghost use Rattle.tally.specs.Tally.{told_tally, tally_line};
ghost use Rattle.feed.specs.Feed.{dot_of, stroke_of};
ghost use Rattle.feed.specs.Frame.{frame_of};
ghost use Rattle.jump.specs.Jumping.{jump_of};
ghost use Rattle.answers.specs.Boundary.{answered, fragment_number, aside_of, slot_answer, rewrite_answer, dot_answer, stroke_answer, frame_answer};
ghost use Rattle.crystal.specs.Crystal.{cell_line, transform_line};
ghost use Rattle.fractional.specs.Scale.{scale_of};
ghost use Rattle.fractional.specs.Place.{place_of, fractional_of};
ghost use Rattle.answers.specs.Frame.{cell_answer, transform_answer, rows_from, position_from, scale_answer, place_answer};

use crystal::CellRow;
use fields::{FragmentNumber, Serial};
use master::Tally;
use slots::Slot;

// The check of a text: 0, 1-12.
#[unsafe(no_mangle)]
pub extern "C" fn station_check(text: &[u8], answer: &mut [u64; 12]) -> u32
    ensures value { result ≡ (check_of text.now).number }
    ensures answer_after { answer.new ≡ plain_numbers_of (check_of text.now) }
{
    let v = gate::check(text);
    *answer = reporting::plain_numbers(v);
    v.number() as u32
}

// The same with the column, 0 where the number is not 6.
#[unsafe(no_mangle)]
pub extern "C" fn station_verdict(text: &[u8], answer: &mut [u64; 13]) -> u32
    ensures value { result ≡ (check_of text.now).number }
    ensures answer_after { answer.new ≡ numbers_of (check_of text.now) }
{
    let v = gate::check(text);
    *answer = reporting::numbers(v);
    v.number() as u32
}

// The number of the first line with a serial, 0 if there is none; and how many lines were looked at.
#[unsafe(no_mangle)]
pub extern "C" fn station_find(text: &[u8], serial: u32, looked: &mut u64) -> u64
    ensures value { result ≡ (jump_of serial text.now).line }
    ensures looked_after { looked.new ≡ (jump_of serial text.now).looked }
{
    let j = jump::find(text, Serial(serial));
    *looked = j.looked;
    j.line
}

// Fills the table from the text: 0, 1-12, 13; how many slots, 0 if refused.
#[unsafe(no_mangle)]
pub extern "C" fn station_load(text: &[u8], table: &mut [Slot], count: &mut u64) -> u32
    ensures { told result count.new table.new ≡ load_of text.now table.old }
{
    answers::counted(store::load(text, table), count)
}

// Sets a fragment aside, or puts it back where `aside` is 0: 0, 1-12, 13, 18, 15, 16.
#[unsafe(no_mangle)]
pub extern "C" fn station_order(text: &[u8], table: &mut [Slot], fragment: u32, aside: u8) -> u32
    ensures { told result 0 table.new ≡ order_of text.now table.old (fragment_number fragment) (aside_of aside) }
{
    answers::number_of(store::order(
        text,
        table,
        FragmentNumber(fragment),
        answers::is_aside(aside),
    ))
}

// Sets every fragment aside or puts it back, by a byte for each, 0 for back: 0, 1-12, 13, 18, 15.
#[unsafe(no_mangle)]
pub extern "C" fn station_arrange(text: &[u8], table: &mut [Slot], aside: &[u8]) -> u32
    ensures { told result 0 table.new ≡ arrange_of text.now table.old aside.now }
{
    answers::number_of(store::arrange(text, table, aside))
}

// Tells the number of each slot's fragment: 0, 1-12, 13, 18, 17; of how many slots, 0 if refused.
#[unsafe(no_mangle)]
pub extern "C" fn station_fragments(
    text: &[u8],
    table: &[Slot],
    out: &mut [u32],
    count: &mut u64,
) -> u32
    ensures { told result count.new out.new ≡ fragments_of text.now table.now out.old }
{
    answers::counted(store::fragments_of(text, table, out), count)
}

// Writes the text without what is set aside, MASTER recounted: 0, 1-12, 13, 18, 17; how many bytes, 0 if refused.
#[unsafe(no_mangle)]
pub extern "C" fn station_save(text: &[u8], table: &[Slot], out: &mut [u8], count: &mut u64) -> u32
    ensures { told result count.new out.new ≡ save_of text.now table.now out.old }
{
    answers::counted(store::save(text, table, out), count)
}

// Writes the lines that saving drops: likewise.
#[unsafe(no_mangle)]
pub extern "C" fn station_tray(text: &[u8], table: &[Slot], out: &mut [u8], count: &mut u64) -> u32
    ensures { told result count.new out.new ≡ tray_of text.now table.now out.old }
{
    answers::counted(store::tray(text, table, out), count)
}

// The slot of one line: 0; or 1, 3, 4, 6 and the slot as found.
#[unsafe(no_mangle)]
pub extern "C" fn station_slot_of_line(line: &[u8], slot: &mut Slot) -> u32
    ensures { answered result slot.new ≡ slot_answer (slot_line line.now) slot.old }
{
    answers::put(slots::slot_of_line(line), slot)
}

// Reads one typed line by itself: 0; or 1, 3, 4, 6; and the column, 0 where the number is not 6.
#[unsafe(no_mangle)]
pub extern "C" fn station_read_line(line: &[u8], column: &mut u64) -> u32
    ensures value { result ≡ answer_number (read_line line.now) }
    ensures column_after { column.new ≡ answer_column (read_line line.now) }
{
    let a = line::read_line(line);
    *column = line::answer_column(a) as u64;
    line::answer_number(a) as u32
}

// Reads one typed line and writes its record, which is the line again: 0; or 1, 3, 4, 6, 17 and all as found.
#[unsafe(no_mangle)]
pub extern "C" fn station_rewrite_line(line: &[u8], out: &mut [u8]) -> u32
    ensures { answered result out.new ≡ rewrite_answer (read_line line.now) line.now out.old }
{
    let a = line::read_line(line);
    match a {
        Ok(r) => answers::number_of(line::write_record(out, r)),
        Err(_) => line::answer_number(a) as u32,
    }
}

// The dot of a slot: 1; or 0 and all as found.
#[unsafe(no_mangle)]
pub extern "C" fn station_dot(slot: &Slot, out: &mut [f64; 3]) -> u32
    ensures { answered result out.new ≡ dot_answer (dot_of slot.now) out.old }
{
    answers::put_dot(feed::dot(*slot), out)
}

// The stroke from one slot to another: 1; or 0 and all as found.
#[unsafe(no_mangle)]
pub extern "C" fn station_stroke(a: &Slot, b: &Slot, out: &mut [f64; 6]) -> u32
    ensures { answered result out.new ≡ stroke_answer (stroke_of a.now b.now) out.old }
{
    answers::put_stroke(feed::stroke(*a, *b), out)
}

// The frame of a table: 0; or 19 and all as found.
#[unsafe(no_mangle)]
pub extern "C" fn station_frame(table: &[Slot], out: &mut [f64; 9]) -> u32
    ensures { answered result out.new ≡ frame_answer (frame_of table.now) out.old }
{
    answers::put_frame(feed::frame(table), out)
}

// Counts a line in: 0; or 4, 14 and the tally as found.
#[unsafe(no_mangle)]
pub extern "C" fn station_count_line(tally: &mut Tally, line: &[u8]) -> u32
    ensures { told_tally result tally.new ≡ tally_line false tally.old line.now }
{
    answers::number_of(tally::count_line(tally, line, false))
}

// The same for a line that may stand past the first model: past is not 0 once the first ENDMDL has gone by.
#[unsafe(no_mangle)]
pub extern "C" fn station_count_line_past(tally: &mut Tally, line: &[u8], past: u8) -> u32
    ensures { told_tally result tally.new ≡ tally_line (not (eqb past 0)) tally.old line.now }
{
    answers::number_of(tally::count_line(tally, line, past != 0))
}

// The cell of one CRYST1 line: 0; or 1, 3, 4, 6 and the cell as found.
#[unsafe(no_mangle)]
pub extern "C" fn station_cell_of_line(line: &[u8], cell: &mut CellRow) -> u32
    ensures { answered result cell.new ≡ cell_answer (cell_line line.now) cell.old }
{
    answers::put(crystal::cell_of_line(line), cell)
}

// The transformation of one ORIGX or SCALE line, three coefficients, the shift and which of the six lines it is: 0; or 1, 3, 4, 6 and all as found.
#[unsafe(no_mangle)]
pub extern "C" fn station_transform_of_line(line: &[u8], transform: &mut [i32; 5]) -> u32
    ensures { answered result transform.new ≡ transform_answer (transform_line line.now) transform.old }
{
    answers::put_transform(crystal::transform_of_line(line), transform)
}

// The SCALE rows of a text, four numbers each: 0; or 1-12, 21, 22, 29 and all as found.
#[unsafe(no_mangle)]
pub extern "C" fn station_scale(text: &[u8], rows: &mut [i32; 12]) -> u32
    ensures { answered result rows.new ≡ scale_answer (scale_of text.now) rows.old }
{
    answers::put_scale(fractional::scale_of(text), rows)
}

// The fractional place by rows, three billionths and three hundred-thousandths: 0; or 33 and all as found.
#[unsafe(no_mangle)]
pub extern "C" fn station_place(rows: &[i32; 12], at: &[i32; 3], out: &mut [i64; 6]) -> u32
    ensures { answered result out.new ≡ place_answer (place_of (rows_from rows.now) (position_from at.now)) out.old }
{
    let r = answers::rows_from(rows);
    let p = answers::position_from(at);
    answers::put_place(fractional::place(r, p), out)
}

// The fractional place by the rows of a text: 0; or 1-12, 21, 22, 29, 33 and all as found.
#[unsafe(no_mangle)]
pub extern "C" fn station_fractional(text: &[u8], at: &[i32; 3], out: &mut [i64; 6]) -> u32
    ensures { answered result out.new ≡ place_answer (fractional_of text.now (position_from at.now)) out.old }
{
    let p = answers::position_from(at);
    answers::put_place(fractional::fractional_of(text, p), out)
}
