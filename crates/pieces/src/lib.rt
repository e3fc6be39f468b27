// A piece of the text by itself: what line it is.
#![tactic(auto)]

ghost use Rattle.std.specs.Prelude.{◌≡◌};
ghost use Rattle.pieces.specs.Pieces.{line_in, columns_of, line_of};

use columns::Column;
use kinds::Kind;
use line::{Record, Unread};
use refusals::Refusal;

#[derive(Clone, Copy)]
pub enum Line {
    // Refused by itself: its length, its end, a byte or its name.
    Bad(Refusal),
    // A field wrong in a line of a kind, and the first column of the leftmost one.
    Wrong(Kind, Column),
    // Columns 7-80 are free.
    Carried(Kind),
    Typed(Record),
}

fn line_in(k: Kind, r: Result<Record, Unread>) -> Line
    ensures { result ≡ line_in k r }
{
    match r {
        Ok(x) => Line::Typed(x),
        Err(Unread::Wrong(column)) => Line::Wrong(k, column),
        Err(Unread::Untyped) => {
            if kinds::is_named(k) {
                return Line::Carried(k);
            }
            Line::Bad(Refusal::Name)
        }
    }
}

// A line of 80 columns.
fn line_of_columns(l: &[u8; 80]) -> Line
    ensures { result ≡ columns_of l.now }
{
    if columns::is_clean(l, 0, 80) {
        let k = kinds::kind_of(l);
        return line_in(k, line::read_kind(l, k));
    }
    Line::Bad(Refusal::Byte)
}

// What line a piece is.
pub fn line_of(p: &[u8]) -> Line
    ensures { result ≡ line_of p.now }
{
    let Some((columns, end)) = p.split_first_chunk::<80>() else {
        return Line::Bad(Refusal::Length);
    };
    if end.is_empty() {
        return Line::Bad(Refusal::Length);
    }
    if end[0] == b'\n' {
        return line_of_columns(columns);
    }
    Line::Bad(Refusal::LineEnd)
}
