// Why a line is not read to a record.
ghost use Rattle.std.specs.Prelude.{◌≡◌};
ghost use Rattle.line.specs.Errors.{wrong_of, misread_of};

use columns::Column;
use refusals::Refusal;

// A line of 80 columns.
#[derive(Clone, Copy, PartialEq, Eq)]
pub enum Unread {
    // The first column of the leftmost wrong field.
    Wrong(Column),
    // The name is unknown, or that of a carried line.
    Untyped,
}

// Any line.
#[derive(Clone, Copy, PartialEq, Eq)]
pub enum Misread {
    Refused(Refusal),
    // 6, and the first column of the leftmost wrong field.
    Wrong(Column),
}

impl From<Column> for Unread {
    ghost from_gives = { λ c u. u ≡ wrong_of c };

    fn from(column: Column) -> Unread {
        Unread::Wrong(column)
    }
}

impl From<Unread> for Misread {
    ghost from_gives = { λ u m. m ≡ misread_of u };

    fn from(u: Unread) -> Misread {
        match u {
            Unread::Wrong(column) => Misread::Wrong(column),
            Unread::Untyped => Misread::Refused(Refusal::Name),
        }
    }
}
