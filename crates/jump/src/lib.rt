// The jump: the first line with a serial, in any text, accepted or not.
#![tactic(auto)]

ghost use Rattle.std.specs.Prelude.{◌≡◌};
ghost use Rattle.jump.specs.Jumping.{jump_of};

use fields::Serial;

// The number of the line, 0 if there is none, and how many lines were looked at.
#[derive(Clone, Copy)]
pub struct Jump {
    pub line: u64,
    pub looked: u64,
}

// The jump to the atom with serial x. It looks at no line past the first that has it.
pub fn find(text: &[u8], x: Serial) -> Jump
    ensures { result ≡ jump_of x.0 text.now }
{
    let whole = text.len() / 81;
    // `position` takes a closure, a call for each line.
    for i in 0..whole {
        if serials::site_in(rows::piece_at(text, i), x) {
            let n = i as u64 + 1;
            return Jump { line: n, looked: n };
        }
    }
    Jump {
        line: 0,
        looked: whole as u64,
    }
}
