// A text and its lines.
#![tactic(auto)]

ghost use Rattle.std.specs.Prelude.{◌≡◌, ◌+◌, ◌*◌, ◌≤◌, ◌<◌, length};
ghost use Rattle.rows.specs.Text.{piece_at, row};

use pieces::Line;

// How many lines there are, a last one that is cut short among them.
pub fn count(text: &[u8]) -> usize
    ensures all { length text.now ≤ 81 * result }
    ensures no_more { 81 * result < length text.now + 81 }
{
    text.len().div_ceil(81)
}

// The piece with index i of a text that has it whole: 80 columns and what ends them.
pub fn piece_at(text: &[u8], i: usize) -> &[u8; 81]
    requires { 81 * i + 81 ≤ length text.now }
    ensures { result.now ≡ piece_at text.now i }
{
    let at = 81 * i;
    text[at..at + 81].as_array::<81>().unwrap()
}

// The line with index i.
pub fn line_at(text: &[u8], i: usize) -> Line
    requires { 81 * i ≤ length text.now }
    ensures { result ≡ row text.now i }
{
    let at = 81 * i;
    if text.len() - at < 81 {
        pieces::line_of(&text[at..])
    } else {
        pieces::line_of(piece_at(text, i))
    }
}
