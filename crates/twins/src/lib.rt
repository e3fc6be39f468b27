// Whether an ATOM or HETATM line is the same atom as one above it.
#![tactic(auto)]

ghost use Rattle.std.specs.Prelude.{◌≡◌, Some, Bool, true, false, ℕ, ◌*◌, ◌≤◌, ◌<◌, length, List};
ghost use Rattle.coordinate.specs.declared.Atom.{Atom as AtomOf};
ghost use Rattle.facets.specs.declared.Spot.TheVariants.{Site};
ghost use Rattle.ascii.specs.Tests.{pick};
ghost use Rattle.facets.specs.Facets.{spot_in, is_coord, is_fence};
ghost use Rattle.search.specs.declared.Span.{Span as SpanOf};
ghost use Rattle.search.specs.Search.{span};
ghost use Rattle.keys.specs.Keys.{home_of, body_of};
ghost use Rattle.pieces.specs.Pieces.{line_of};
ghost use Rattle.rows.specs.Text.{row, down};
ghost use Rattle.rules.specs.declared.State.{State as StateOf};
ghost use Rattle.serials.specs.Search.{grow_of, Block, Rising};
ghost use Rattle.trail.specs.Trail.{Unlike, Watched};
ghost use Rattle.twins.specs.Twins.{same_atom, is_twin, twin_of};
ghost use Rattle.twins.specs.Standing.{Stands};

use coordinate::Identity;
use facets::Spot;
use pieces::Line;
use search::Span;
use trail::{Step, Watch};

// What is known for the next line if this one is good, and whether the atom of this one stands above.
#[derive(Clone, Copy)]
pub struct Glance {
    pub watch: Watch,
    pub twin: bool,
}

// Whether two lines are of the same atom. Theorems cite it, and `==` would compare their serials too.
fn same_atom(a: Identity, b: Identity) -> bool
    ensures { result ≡ same_atom a b }
{
    (a.name == b.name) & (a.alternate == b.alternate) & residue::same_residue(a.residue, b.residue)
}

// Whether a line is an ATOM or HETATM line of the atom a.
fn is_twin(a: Identity, l: Line) -> bool
    ensures { result ≡ is_twin a l }
{
    match facets::spot_in(l) {
        Some(Spot::Site(_, s)) => same_atom(a, s.identity),
        Some(Spot::Close(_)) | None => false,
    }
}

// Whether another piece may have the columns of this one that name an atom, of which `body` is known.
fn alike(other: &[u8; 81], piece: &[u8; 81], body: u64) -> bool
    ensures { result ≡ false → home_of other.now ≡ home_of piece.now → body_of other.now ≡ body → ⊥ }
{
    keys::body(other) == body && keys::home(other) == keys::home(piece)
}

// Whether another piece is a line of the atom a, which is that of this one: their columns are compared first, and a line is read where
// they are equal.
fn hit(other: &[u8; 81], piece: &[u8; 81], a: Identity, body: u64) -> bool
    requires { (is_twin a (line_of piece.now) ≡ true) × (body ≡ body_of piece.now) }
    ensures { result ≡ is_twin a (line_of other.now) }
{
    alike(other, piece, body) && is_twin(a, pieces::line_of(other))
}

// Whether a line from `from` up to hi is the atom a, which is that of the piece.
fn stands(text: &[u8], from: usize, hi: usize, piece: &[u8; 81], a: Identity) -> bool
    requires hi_in_bounds { 81 * hi ≤ length text.now }
    requires piece_value { is_twin a (line_of piece.now) ≡ true }
    ensures { Stands a (row text.now) from hi result }
{
    let body = keys::body(piece);
    // `any` takes a closure: a call for each line
    for j in from..hi {
        if hit(rows::piece_at(text, j), piece, a, body) {
            return true;
        }
    }
    false
}

// The first line from `from` up to hi that may have the columns of the piece, or hi.
fn suspect(text: &[u8], from: usize, hi: usize, piece: &[u8; 81]) -> usize
    requires { (81 * hi ≤ length text.now) × (from ≤ hi) }
    ensures { (from ≤ result) × Unlike text.now from result piece.now }
{
    let body = keys::body(piece);
    // `position` takes a closure: a call for each line
    for j in from..hi {
        if alike(rows::piece_at(text, j), piece, body) {
            return j;
        }
    }
    hi
}

// Whether a line from `from` up to hi is the atom of the piece, which is the line l. Mostly there is no such line, and l is not looked at.
fn met(text: &[u8], from: usize, hi: usize, piece: &[u8; 81], l: Line) -> bool
    requires { (81 * hi ≤ length text.now) × (l ≡ line_of piece.now) }
    ensures { (het : Bool) (a : AtomOf) → spot_in l ≡ Some (Site het a) → Stands a.identity (row text.now) from hi result }
{
    if from < hi {
        if let Some(Spot::Site(_, a)) = facets::spot_in(l) {
            return stands(text, from, hi, piece, a.identity);
        }
    }
    false
}

// What is known goes on over a line without an atom, but MODEL and ENDMDL begin afresh.
fn carried_on(w: Watch, l: Line) -> Watch
    ensures { (t : List ℕ) (b : SpanOf) → Watched t b w → Watched t (pick (is_fence l) (span 0 0) b) result }
{
    if facets::is_fence(l) {
        return trail::start();
    }
    w
}

// What a look back says of line i, which is l.
pub fn look(text: &[u8], b: Span, w: Watch, i: usize, l: Line) -> Glance
    requires rising { Rising text.now b.lo b.hi }
    requires i_in_bounds { (81 * i < length text.now) × (l ≡ row text.now i) }
    requires watched { Watched text.now b w }
    ensures by_index { (n : ℕ) (s : StateOf) → Block (row text.now) n b s → result.twin ≡ twin_of (down (row text.now) n) (spot_in l) }
    ensures watched_2 { (is_coord l ≡ true → b.lo < b.hi → b.hi ≡ i) → Watched text.now (grow_of b i l) result.watch }
{
    match facets::spot_in(l) {
        Some(Spot::Site(_, _)) => {
            let Step { start, watch } = trail::follow(text, b, w, i);
            let piece = rows::piece_at(text, i);
            let from = suspect(text, start, b.hi, piece);
            Glance {
                watch,
                twin: met(text, from, b.hi, piece, l),
            }
        }
        Some(Spot::Close(_)) => Glance {
            watch: trail::follow(text, b, w, i).watch,
            twin: false,
        },
        None => Glance {
            watch: carried_on(w, l),
            twin: false,
        },
    }
}
