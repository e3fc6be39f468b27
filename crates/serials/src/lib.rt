// Looking back over the lines before a line: whether the numbers on a CONECT line are those of atoms, and where these stand.
#![tactic(auto)]

ghost use Rattle.std.specs.Prelude.{◌≡◌, Some, true, ℕ, ◌*◌, ◌≤◌, ◌<◌, length, take};
ghost use Rattle.fields.specs.Field.{ranged_number};
ghost use Rattle.facets.specs.Facets.{bond_in, is_coord};
ghost use Rattle.rules.specs.declared.State.{State as StateOf};
ghost use Rattle.pieces.specs.Pieces.{line_of};
ghost use Rattle.rows.specs.Text.{row, down};
ghost use Rattle.search.specs.Search.{span, Bracket};
ghost use Rattle.serials.specs.Known.{is_site, named, partner_known, bond_known};
ghost use Rattle.serials.specs.Search.{serial_of, no_earlier, has_line, shut_of, earlier_of, grow_of, Block, Behind, Rising, Reached, Stands, Finds};

use conect::Conect;
use facets::Spot;
use fields::Serial;
use pieces::Line;
use places::Count;
use search::{Near, Sought, Span};

// The coordinate lines of the models that are shut: those of the first one that has any, and where the last of them ends.
#[derive(Clone, Copy)]
pub struct Earlier {
    pub first: Span,
    pub end: usize,
}

// What is remembered of the lines so far, to look back by: the block of the coordinate lines, of the model where there are models; those of
// the models that are shut; and where the last serial was found.
#[derive(Clone, Copy)]
pub struct Past {
    pub block: Span,
    pub earlier: Earlier,
    pub near: Near,
}

// The serial in columns 7-11 of a piece.
pub fn serial_at(piece: &[u8; 81]) -> Serial
    ensures { result.0 ≡ (ranged_number 5 0 1 99999 (take 80 piece.now) 6).value }
{
    Serial(fields::read_whole(&piece[..80], 6, 5, 1, 99999).unwrap_or(0))
}

// Whether a piece, one of the coordinate lines, is the ATOM or HETATM line with serial x: by its name and columns 7-11 alone.
fn site_at(piece: &[u8; 81], x: Serial) -> bool
    ensures { is_coord (line_of piece.now) ≡ true → result ≡ is_site x.0 (line_of piece.now) }
{
    let k = kinds::kind_of(&piece[..80]);
    (places::count_of(k) == Some(Count::Coord)) & (serial_at(piece).0 == x.0)
}

// The first line of the block whose serial is at least x, or its end.
fn seek(text: &[u8], b: Span, n: Near, x: Serial) -> usize
    requires { Rising text.now b.lo b.hi }
    ensures { Bracket (λ j. serial_of (row text.now j)) b.lo b.hi x.0 result result }
{
    let mut s = b;
    let mut near = n;
    let mut looks: u8 = 0;
    // `partition_point` is of slices and halves from the start: these serials are read at each look, and the first looks are guesses.
    while s.lo < s.hi {
        let m = search::probe(looks, near, s, x);
        let serial = serial_at(rows::piece_at(text, m));
        s = search::part(s, m, serial, x);
        near = Near { place: m, serial };
        looks = search::counted(looks);
    }
    s.lo
}

// Where in the block the ATOM or HETATM line with serial x stands.
pub fn find(text: &[u8], b: Span, n: Near, x: Serial) -> Option<usize>
    requires { Rising text.now b.lo b.hi }
    ensures { Finds (row text.now) b.lo b.hi x.0 result }
{
    let m = seek(text, b, n, x);
    if m < b.hi && site_at(rows::piece_at(text, m), x) {
        Some(m)
    } else {
        None
    }
}

// Whether a line is an ATOM or HETATM line with serial x.
fn is_site(l: Line, x: Serial) -> bool
    ensures { result ≡ is_site x.0 l }
{
    match facets::spot_in(l) {
        Some(Spot::Site(_, a)) => a.identity.serial.0 == x.0,
        Some(Spot::Close(_)) | None => false,
    }
}

// Whether a piece, any piece, is an ATOM or HETATM line with serial x: by columns 7-11, and by the whole line only where they fit.
pub fn site_in(piece: &[u8; 81], x: Serial) -> bool
    ensures { result ≡ is_site x.0 (line_of piece.now) }
{
    serial_at(piece).0 == x.0 && is_site(pieces::line_of(piece), x)
}

// Whether x is the serial of an ATOM or HETATM line from lo to hi, whatever lines these are.
fn stands(text: &[u8], lo: usize, hi: usize, x: Serial) -> bool
    requires { 81 * hi ≤ length text.now }
    ensures { Stands (row text.now) lo hi x.0 result }
{
    // `any` takes a closure, a call for each line.
    for j in lo..hi {
        if site_in(rows::piece_at(text, j), x) {
            return true;
        }
    }
    false
}

// The same of the models that are shut: the first that has atoms is searched, and only where that has it not, the lines after it.
fn stood(text: &[u8], e: Earlier, near: Near, x: Serial) -> bool
    requires { Reached text.now e }
    ensures { Stands (row text.now) e.first.lo e.end x.0 result }
{
    match find(text, e.first, near, x) {
        Some(_) => true,
        None => stands(text, e.first.hi, e.end, x),
    }
}

// Whether x is the serial of an ATOM or HETATM line so far.
fn spoken(text: &[u8], p: Past, near: Near, x: Serial) -> Sought
    requires { Rising text.now p.block.lo p.block.hi × Reached text.now p.earlier }
    ensures { (n : ℕ) (s : StateOf) → Block (row text.now) n p.block s → Behind (row text.now) n p.earlier → result.yes ≡ named (down (row text.now) n) x.0 }
{
    match find(text, p.block, near, x) {
        Some(i) => Sought {
            near: Near {
                place: i,
                serial: x,
            },
            yes: true,
        },
        None => Sought {
            near,
            yes: stood(text, p.earlier, near, x),
        },
    }
}

// The same of a partner, which may not be there.
fn partner_spoken(text: &[u8], p: Past, near: Near, x: Serial) -> bool
    requires { Rising text.now p.block.lo p.block.hi × Reached text.now p.earlier }
    ensures { (n : ℕ) (s : StateOf) → Block (row text.now) n p.block s → Behind (row text.now) n p.earlier → result ≡ partner_known (down (row text.now) n) x.0 }
{
    x.0 == 0 || spoken(text, p, near, x).yes
}

fn conect_known(text: &[u8], p: Past, bond: Conect) -> Sought
    requires { Rising text.now p.block.lo p.block.hi × Reached text.now p.earlier }
    ensures { (n : ℕ) (s : StateOf) → Block (row text.now) n p.block s → Behind (row text.now) n p.earlier → result.yes ≡ bond_known (down (row text.now) n) (Some bond) }
{
    let own = spoken(text, p, p.near, bond.serial);
    let near = own.near;
    let a = partner_spoken(text, p, near, bond.a);
    let b = partner_spoken(text, p, near, bond.b);
    let c = partner_spoken(text, p, near, bond.c);
    let d = partner_spoken(text, p, near, bond.d);
    Sought {
        near,
        yes: own.yes & a & b & c & d,
    }
}

// Whether each number on a CONECT line is the serial of an ATOM or HETATM line so far.
pub fn known(text: &[u8], p: Past, l: Line) -> Sought
    requires { Rising text.now p.block.lo p.block.hi × Reached text.now p.earlier }
    ensures { (n : ℕ) (s : StateOf) → Block (row text.now) n p.block s → Behind (row text.now) n p.earlier → result.yes ≡ bond_known (down (row text.now) n) (bond_in l) }
{
    match facets::bond_in(l) {
        Some(c) => conect_known(text, p, c),
        None => Sought {
            near: p.near,
            yes: true,
        },
    }
}

// The block with line n taken in.
fn grow(b: Span, n: usize, l: Line) -> Span
    requires { n < 9223372036854775808 }
    ensures { result ≡ grow_of b n l }
{
    if facets::is_fence(l) {
        return Span { lo: 0, hi: 0 };
    }
    if facets::is_coord(l) {
        Span {
            lo: if has_line(b) { b.lo } else { n },
            hi: n + 1,
        }
    } else {
        b
    }
}

// A block with a line.
fn has_line(b: Span) -> bool
    ensures { result ≡ has_line b }
{
    b.lo < b.hi
}

// The models that are shut, with the one that had this block.
fn shut(b: Span, e: Earlier) -> Earlier
    ensures { result ≡ shut_of b e }
{
    if has_line(b) {
        Earlier {
            first: if has_line(e.first) { e.first } else { b },
            end: b.hi,
        }
    } else {
        e
    }
}

fn recall(b: Span, e: Earlier, l: Line) -> Earlier
    ensures { result ≡ earlier_of b e l }
{
    if facets::is_fence(l) {
        return shut(b, e);
    }
    e
}

// What is remembered once line n was good.
pub fn remember(p: Past, near: Near, n: usize, l: Line) -> Past
    requires { n < 9223372036854775808 }
    ensures { (result.block ≡ grow_of p.block n l) × (result.earlier ≡ earlier_of p.block p.earlier l) }
{
    Past {
        block: grow(p.block, n, l),
        earlier: recall(p.block, p.earlier, l),
        near,
    }
}

// Nothing is remembered before the first line.
pub fn nothing() -> Past
    ensures { (result.block ≡ span 0 0) × (result.earlier ≡ no_earlier) }
{
    Past {
        block: Span { lo: 0, hi: 0 },
        earlier: Earlier {
            first: Span { lo: 0, hi: 0 },
            end: 0,
        },
        near: Near {
            place: 0,
            serial: Serial(0),
        },
    }
}
