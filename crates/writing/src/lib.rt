// What one line of an accepted text gives to the saved entry or to the tray, written where it is to stand.
#![tactic(auto)]

ghost use Rattle.std.specs.Prelude.{◌≡◌, true, ◌++◌, ◌+◌, ◌≤◌, length, take, drop};
ghost use Rattle.columns.specs.Columns.{Put};
ghost use Rattle.places.specs.Room.{Room};
ghost use Rattle.ascii.specs.Tests.{either, alike};
ghost use Rattle.facets.specs.Facets.{is_fence};
ghost use Rattle.pieces.specs.Pieces.{line_of};
ghost use Rattle.table.specs.Deal.{past_after, past_next, counted, tally_of, master_piece, is_master, share};
ghost use Rattle.table.specs.FiveDigits.{FiveDigits};

use facets::Fence;
use master::Tally;
use pieces::Line;
use places::Counts;

fn past_after(past: bool, e: Option<Fence>) -> bool
    ensures { result ≡ past_after past e }
{
    match e {
        Some(Fence::Shuts) => true,
        Some(Fence::Opens(_)) | None => past,
    }
}

// Whether the first model is past, once this line is.
pub fn past_next(past: bool, l: Line) -> bool
    ensures { result ≡ past_next past l }
{
    past_after(past, facets::fence_in(l))
}

// The counts of the lines that stay, with this one.
pub fn count_line(stay: bool, past: bool, q: Counts, l: Line) -> Counts
    requires { Room q }
    ensures { result ≡ counted stay past q l }
{
    if stay {
        return places::raise(q, places::count_at(past, facets::line_kind(l)));
    }
    q
}

fn is_master(l: Line) -> bool
    ensures { result ≡ is_master l }
{
    facets::total_in(l).is_some()
}

// Whether the line is one to be written: one that stays is saved, one that goes is laid on the tray, and MODEL and ENDMDL are in both.
fn is_due(saving: bool, stay: bool, l: Line) -> bool
    ensures { result ≡ either (is_fence l) (alike saving stay) }
{
    facets::is_fence(l) | (saving == stay)
}

fn tally_of(q: Counts) -> Tally
    requires { FiveDigits (tally_of q) }
    ensures { result ≡ tally_of q }
{
    Tally {
        remark: q.remark as u32,
        het: q.het as u32,
        helix: q.helix as u32,
        sheet: q.sheet as u32,
        xform: q.xform as u32,
        coord: q.coord as u32,
        ter: q.ter as u32,
        conect: q.conect as u32,
        seq: q.seq as u32,
    }
}

// MASTER with these counts. They are in its range and there is room, so the writer answers Ok.
fn put_master(q: Counts, out: &mut [u8], at: usize)
    requires five_digits { FiveDigits (tally_of q) }
    requires at_in_bounds { at + 81 ≤ length out.old }
    ensures { Put out.old at 81 (master_piece q) out.new }
{
    let e = at + 80;
    let _ = kinds::write(&mut out[at..e], kinds::MASTER, tally_of(q));
    out[e] = b'\n';
}

// The line byte for byte, straight from the text.
fn put_line(piece: &[u8; 81], out: &mut [u8], at: usize)
    requires { at + 81 ≤ length out.old }
    ensures { Put out.old at 81 piece.now out.new }
{
    out[at..at + 81].copy_from_slice(piece);
}

// What the line gives, written from `at` on: where the next line's bytes are to stand. saving: into the saved entry, else onto the tray;
// a flag, as the definitions have it, since both are one walk over the lines.
pub fn put_share(
    piece: &[u8; 81],
    l: Line,
    saving: bool,
    stay: bool,
    q: Counts,
    out: &mut [u8],
    at: usize,
) -> usize
    requires l_value { l ≡ line_of piece.now }
    requires at_in_bounds { at + length (share saving stay q piece.now) ≤ length out.old }
    requires five_digits { is_master l ≡ true → FiveDigits (tally_of q) }
    ensures { (result ≡ at + length (share saving stay q piece.now)) × (out.new ≡ take at out.old ++ share saving stay q piece.now ++ drop (at + length (share saving stay q piece.now)) out.old) }
{
    if is_due(saving, stay, l) {
        if is_master(l) {
            put_master(q, out, at);
            return at + 81;
        }
        put_line(piece, out, at);
        return at + 81;
    }
    at
}
