// What is refused, each with its number.
#![tactic(auto)]

ghost use Rattle.std.specs.Prelude.{◌≡◌, ◌≤◌, ◌<◌};
ghost use Rattle.refusals.specs.Numbers.{number_of};

#[derive(Clone, Copy, Debug, PartialEq, Eq)]
pub enum Refusal {
    // A line that has not 80 columns, or a piece of a text with fewer than 81 bytes.
    Length = 1,
    // Byte 81 is no newline.
    LineEnd = 2,
    // A byte outside 32 to 126.
    Byte = 3,
    // A name that no kind of line has, or that of a kind that is not asked for.
    Name = 4,
    // A line in the wrong place, or at odds with the models.
    Place = 5,
    // A wrong field of a line; a record out of its ranges.
    Field = 6,
    // A serial that does not rise.
    Serial = 7,
    // A run that is not closed as it has to be.
    Run = 8,
    // A CONECT line out of order, or a number on it that no atom has.
    Bond = 9,
    // A helix or a sheet out of sequence.
    Fold = 10,
    // MASTER differs from the counts.
    Total = 11,
    // All lines are good, but END has not come.
    End = 12,
    // A table with fewer slots than the text needs.
    Slots = 13,
    // A count of the tally that has no room for one more.
    Full = 14,
    // There is no fragment of this number.
    Fragment = 15,
    // The fragment has this mark already.
    Marked = 16,
    // An output too short for what would be written.
    Room = 17,
    // A table that does not belong to the text.
    Table = 18,
    // No atom to frame.
    Undrawn = 19,
    // More bytes than a report is made on.
    Size = 20,
    // The atom of a line stands above it.
    Twin = 21,
    // Models that are not numbered 1, 2, 3 and so on.
    Model = 22,
    // A text without SCALE lines.
    Scale = 29,
    // A coordinate out of its range.
    Position = 33,
}

impl Refusal {
    pub fn number(self) -> u8
        ensures value { result ≡ number_of self }
        ensures positive { 0 < result }
    {
        self as u8
    }
}
