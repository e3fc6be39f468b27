// The columns that name an atom, as two numbers. They are compared before a line is read.
#![tactic(auto)]

ghost use Rattle.std.specs.Prelude.{◌≡◌};
ghost use Rattle.keys.specs.Keys.{home_of, body_of};

// Columns 22-27 of a piece: chain, residue number, insertion code.
pub fn home(piece: &[u8; 81]) -> u64
    ensures { result ≡ home_of piece.now }
{
    words::word(piece, 21, 6)
}

// Columns 13-20: atom name, alternate letter, residue name.
pub fn body(piece: &[u8; 81]) -> u64
    ensures { result ≡ body_of piece.now }
{
    words::word(piece, 12, 8)
}
