// The gate over a whole text.
#![tactic(auto)]

ghost use Rattle.std.specs.Prelude.{◌≡◌, List, ℕ, ◌*◌, ◌<◌, length, true, IfOk};
ghost use Rattle.places.specs.Room.{Room};
ghost use Rattle.refusals.specs.Numbers.{number_of, number_in as answered};
ghost use Rattle.facets.specs.Facets.{is_coord};
ghost use Rattle.rows.specs.Text.{row, down};
ghost use Rattle.rules.specs.declared.State.{State as StateOf};
ghost use Rattle.rules.specs.Rules.{start_of, next_of};
ghost use Rattle.search.specs.Search.{span};
ghost use Rattle.serials.specs.Search.{grow_of, no_earlier, earlier_of, Block, Behind, Rising, Reached};
ghost use Rattle.trail.specs.Trail.{Watched};
ghost use Rattle.gate.specs.Gate.{told_by, column_there, column_in, ColumnTold, at_six, column_of, refused_of, finish_of, number_in, check_of};

use pieces::Line;
use places::Counts;
use refusals::Refusal;
use rules::{Looked, State};
use serials::Past;
use trail::Watch;

// The line that a text is refused for: what for, its number from 1, and the first column of its leftmost wrong field, where that is why.
#[derive(Clone, Copy)]
pub struct Offence {
    pub refusal: Refusal,
    pub line: u64,
    pub column: Option<u32>,
}

// The answer: the offence, if the text is refused; the count of good lines, and the nine counts over those.
#[derive(Clone, Copy)]
pub struct Verdict {
    pub offence: Option<Offence>,
    pub good: u64,
    pub counts: Counts,
}

impl Verdict {
    // The number of the refusal, 0 where the text is granted.
    pub fn number(self) -> u8
        ensures { result ≡ (told_by self).number }
    {
        match self.offence {
            Some(o) => o.refusal.number(),
            None => 0,
        }
    }

    // The offending line, 0 where there is none.
    pub fn line(self) -> u64
        ensures { result ≡ (told_by self).line }
    {
        match self.offence {
            Some(o) => o.line,
            None => 0,
        }
    }

    // Its column, 0 where no field is wrong.
    pub fn column(self) -> u32
        ensures { result ≡ (told_by self).column }
    {
        match self.offence {
            Some(o) => o.column.unwrap_or(0),
            None => 0,
        }
    }
}

// What is carried from line to line: the state, and what is remembered to look back by, for serials and for atoms.
#[derive(Clone, Copy)]
pub struct Course {
    pub state: State,
    pub past: Past,
    pub watch: Watch,
}

// The check of a text.
pub fn check(text: &[u8]) -> Verdict
    ensures numbers { told_by result ≡ check_of text.now }
    ensures column { ColumnTold result.offence }
{
    let mut c = start();
    for i in 0..rows::count(text) {
        let l = rows::line_at(text, i);
        match turn(text, i, c, l) {
            Ok(d) => c = d,
            Err(r) => return refused(r, column_of(r, l), c.state),
        }
    }
    finish(c.state)
}

// Before the first line.
pub fn start() -> Course
    ensures state_value { (result.state ≡ start_of) × (result.past.block ≡ span 0 0) × (result.past.earlier ≡ no_earlier) }
    ensures by_index { (t : List ℕ) → Watched t (span 0 0) result.watch }
{
    Course {
        state: rules::start(),
        past: serials::nothing(),
        watch: trail::start(),
    }
}

// How it goes on after line i, which is l; or what the line is refused for.
pub fn turn(text: &[u8], i: usize, c: Course, l: Line) -> Result<Course, Refusal>
    requires i_in_bounds { (81 * i < length text.now) × (l ≡ row text.now i) }
    requires rising { Rising text.now c.past.block.lo c.past.block.hi × Reached text.now c.past.earlier }
    requires watched { Watched text.now c.past.block c.watch }
    requires room { Room c.state.counts }
    requires lines_bound { (c.state.lines < 9223372036854775808) × (i < 9223372036854775808) }
    ensures by_index { (n : ℕ) (s : StateOf) → Block (row text.now) n c.past.block s → Behind (row text.now) n c.past.earlier → answered result ≡ number_in (down (row text.now) n) c.state l }
    ensures state_value { IfOk result (λ d. (d.state ≡ next_of c.state l) × (d.past.block ≡ grow_of c.past.block i l) × (d.past.earlier ≡ earlier_of c.past.block c.past.earlier l)) }
    ensures watched_2 { IfOk result (λ d. (is_coord l ≡ true → c.past.block.lo < c.past.block.hi → c.past.block.hi ≡ i) → Watched text.now (grow_of c.past.block i l) d.watch) }
{
    let k = serials::known(text, c.past, l);
    let g = twins::look(text, c.past.block, c.watch, i, l);
    let look = Looked {
        known: k.yes,
        twin: g.twin,
    };
    rules::judge(look, c.state, l)?;
    Ok(Course {
        state: rules::next(c.state, l),
        past: serials::remember(c.past, k.near, i, l),
        watch: g.watch,
    })
}

// The column of a line that is refused.
fn column_of(r: Refusal, l: Line) -> Option<u32>
    ensures { result ≡ column_there (column_of (number_of r) l) }
{
    match l {
        Line::Wrong(_, column) => at_field(r, column.0),
        _ => None,
    }
}

// Columns count from 1.
fn at_field(r: Refusal, column: u32) -> Option<u32>
    ensures { result ≡ column_there (at_six (number_of r) column) }
{
    if (r == Refusal::Field) & (column != 0) {
        Some(column)
    } else {
        None
    }
}

fn refused(r: Refusal, column: Option<u32>, s: State) -> Verdict
    requires { s.lines < 9223372036854775808 }
    ensures numbers { told_by result ≡ refused_of (number_of r) (column_in column) s }
    ensures column { column ≡ column_there (column_in column) → ColumnTold result.offence }
{
    Verdict {
        offence: Some(Offence {
            refusal: r,
            line: s.lines + 1,
            column,
        }),
        good: s.lines,
        counts: s.counts,
    }
}

// Whether the text may be over: END was the last line.
pub fn ended(s: State) -> Result<(), Refusal>
    ensures { answered result ≡ (finish_of s).number }
{
    if s.place == END_PLACE {
        return Ok(());
    }
    Err(Refusal::End)
}

pub fn finish(s: State) -> Verdict
    requires { s.lines < 9223372036854775808 }
    ensures numbers { told_by result ≡ finish_of s }
    ensures column { ColumnTold result.offence }
{
    if s.place == END_PLACE {
        Verdict {
            offence: None,
            good: s.lines,
            counts: s.counts,
        }
    } else {
        refused(Refusal::End, None, s)
    }
}

const END_PLACE: u8 = 21;
