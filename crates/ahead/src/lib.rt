// A look at the lines to come: which of them have the columns of an atom above. One pass over the lines above serves many lines.
#![tactic(auto)]

ghost use Rattle.std.specs.Prelude.{◌≡◌, true, ℕ, ◌*◌, ◌+◌, ◌≤◌, ◌<◌, length};
ghost use Rattle.ahead.specs.Ahead.{Clear};
ghost use Rattle.ahead.specs.Stamps.{pair_of, quad_of, stamp_of, stamp_at, place_of, tag_of, put_of, marks, Marked, Without, Parted};

// No line from a up to b has the columns of a line from b up to c.
#[derive(Clone, Copy)]
pub struct Ahead {
    pub a: usize,
    pub b: usize,
    pub c: usize,
}

// The bytes of a piece at indices k and k + 1, the first the lowest.
fn pair_of(piece: &[u8; 81], k: usize) -> u64
    requires { k + 2 ≤ 81 }
    ensures { (result ≡ pair_of piece.now k) × (result < 65536) }
{
    piece[k] as u64 + 256 * piece[k + 1] as u64
}

// The same of four.
fn quad_of(piece: &[u8; 81], k: usize) -> u64
    requires { k + 4 ≤ 81 }
    ensures { (result ≡ quad_of piece.now k) × (result < 4294967296) }
{
    pair_of(piece, k) + 65536 * pair_of(piece, k + 2)
}

// The stamp of a piece.
fn stamp_of(piece: &[u8; 81]) -> u64
    ensures { result ≡ stamp_of piece.now }
{
    let number = quad_of(piece, 23);
    let chain = pair_of(piece, 21);
    let residue = quad_of(piece, 16);
    let atom = quad_of(piece, 12);
    number * 430894887 + chain * 870773345 + residue * 1033687299 + atom * 973642215
}

// The place of a stamp in the filter.
fn place_of(z: u64) -> usize
    ensures { (result ≡ place_of z) × (result < 512) }
{
    (z / 524288 % 65536 * 2 / 256) as usize
}

// What stands there if no other stamp has the place.
fn tag_of(z: u64) -> u8
    ensures { result ≡ tag_of z }
{
    (z / 131072 % 128 * 2 + 1) as u8
}

// What stands at a place once a tag is put there.
fn put(v: u8, tag: u8) -> u8
    ensures { result ≡ put_of v tag }
{
    if v == 0 || v == tag { tag } else { 255 }
}

// Puts a stamp into the filter.
fn mark(filter: &mut [u8; 512], z: u64)
    ensures z_after { marks filter.new z ≡ true }
    ensures by_index { (x : ℕ) → marks filter.old x ≡ true → marks filter.new x ≡ true }
{
    let at = place_of(z);
    filter[at] = put(filter[at], tag_of(z));
}

// Puts the stamps of the lines from b up to e into the filter.
fn mark_all(text: &[u8], b: usize, e: usize, filter: &mut [u8; 512])
    requires { (b ≤ e) × (81 * e ≤ length text.now) }
    ensures { Marked text.now b e filter.new }
{
    for p in b..e {
        mark(filter, stamp_of(rows::piece_at(text, p)));
    }
}

// The first line from b up to c with the stamp z, or c.
fn first(text: &[u8], b: usize, c: usize, z: u64) -> usize
    requires { (b ≤ c) × (81 * c ≤ length text.now) }
    ensures { (b ≤ result) × (result ≤ c) × Without text.now b result z }
{
    // `position` takes a closure: a call for each line of the block
    for p in b..c {
        if stamp_of(rows::piece_at(text, p)) == z {
            return p;
        }
    }
    c
}

// The same where the filter has the stamps of these lines: most often it has no mark of z, and no line is looked at.
fn sieve(text: &[u8], b: usize, c: usize, filter: &[u8; 512], z: u64) -> usize
    requires { (b ≤ c) × (81 * c ≤ length text.now) × Marked text.now b c filter.now }
    ensures { (b ≤ result) × (result ≤ c) × Without text.now b result z }
{
    let at = place_of(z);
    let v = filter[at];
    if v == 255 || v == tag_of(z) {
        return first(text, b, c, z);
    }
    c
}

// The first line from b up to e with the stamp of a line from a up to b, or e.
fn sift(text: &[u8], a: usize, b: usize, e: usize, filter: &[u8; 512]) -> usize
    requires { (a ≤ b) × (b ≤ e) × (81 * e ≤ length text.now) × Marked text.now b e filter.now }
    ensures { Parted text.now a b b result }
{
    let mut c = e;
    for j in a..b {
        c = sieve(text, b, c, filter, stamp_of(rows::piece_at(text, j)));
    }
    c
}

// Where the block of lines from b on ends that one pass serves, where a text has n lines.
fn block_end(b: usize, n: usize) -> usize
    requires { b ≤ n }
    ensures { (b ≤ result) × (result ≤ n) }
{
    b + BLOCK.min(n - b)
}

const BLOCK: usize = 96;

// The lines from a up to b are held against some that follow.
pub fn survey(text: &[u8], a: usize, b: usize) -> Ahead
    requires { (a ≤ b) × (81 * b ≤ length text.now) }
    ensures { (result.a ≡ a) × (result.b ≡ b) × Clear text.now result }
{
    let mut filter = [0u8; 512];
    let e = block_end(b, text.len() / 81);
    mark_all(text, b, e, &mut filter);
    let c = sift(text, a, b, e, &filter);
    Ahead { a, b, c }
}
