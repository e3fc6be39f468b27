// Reads an entry from standard input and prints what the renderer is handed for the lines before its first offence: a dot for each atom and the
// frame, in thousandths.
#![tactic(auto)]

ghost use Rattle.std.specs.Prelude.{◌*◌, ◌≤◌, length};

use coordinate::Position;
use feed::{Bounds, Extent, Point, Span};
use slots::Slot;
use std::io;
use std::io::{BufWriter, Read, Write};

// The most bytes of an entry that are read.
const MOST_READ: u64 = 65536;

fn say(to: &mut impl Write, text: &[u8]) -> io::Result<()> {
    to.write_all(text)
}

fn end_line(to: &mut impl Write) -> io::Result<()> {
    say(to, b"\n")
}

fn put(to: &mut impl Write, n: i32) -> io::Result<()> {
    write!(to, " {n}")
}

// The number that a double was made from, printed only if the double is that very number.
fn put_axis(to: &mut impl Write, d: f64, n: i32) -> io::Result<()> {
    if d == feed::exact(n) {
        put(to, n)
    } else {
        say(to, b" ?")
    }
}

// The two numbers that a double is half the sum of, printed only if it is.
fn put_middle(to: &mut impl Write, d: f64, s: Span) -> io::Result<()> {
    if d * 2.0 == feed::exact(s.low) + feed::exact(s.high) {
        put(to, s.low)?;
        put(to, s.high)
    } else {
        say(to, b" ?")
    }
}

fn print_dot(to: &mut impl Write, d: Point, p: Position) -> io::Result<()> {
    say(to, b"dot")?;
    put_axis(to, d.x, p.x)?;
    put_axis(to, d.y, p.y)?;
    put_axis(to, d.z, p.z)?;
    end_line(to)
}

fn print_drawn(to: &mut impl Write, d: Option<Point>, p: Position) -> io::Result<()> {
    match d {
        Some(d) => print_dot(to, d, p),
        None => say(to, b"nothing\n"),
    }
}

fn print_lowest(to: &mut impl Write, e: Extent, b: Bounds) -> io::Result<()> {
    say(to, b"lowest")?;
    put_axis(to, e.lx, b.x.low)?;
    put_axis(to, e.ly, b.y.low)?;
    put_axis(to, e.lz, b.z.low)?;
    end_line(to)
}

fn print_highest(to: &mut impl Write, e: Extent, b: Bounds) -> io::Result<()> {
    say(to, b"highest")?;
    put_axis(to, e.hx, b.x.high)?;
    put_axis(to, e.hy, b.y.high)?;
    put_axis(to, e.hz, b.z.high)?;
    end_line(to)
}

fn print_middle(to: &mut impl Write, e: Extent, b: Bounds) -> io::Result<()> {
    say(to, b"in the middle of")?;
    put_middle(to, e.mx, b.x)?;
    put_middle(to, e.my, b.y)?;
    put_middle(to, e.mz, b.z)?;
    end_line(to)
}

fn print_extent(to: &mut impl Write, e: Extent, b: Bounds) -> io::Result<()> {
    print_lowest(to, e, b)?;
    print_highest(to, e, b)?;
    print_middle(to, e, b)
}

fn print_number(to: &mut impl Write, n: u8) -> io::Result<()> {
    say(to, b"number ")?;
    write!(to, "{n}")?;
    end_line(to)
}

// The frame of bounds, or the number that refuses it.
fn print_frame(to: &mut impl Write, bounds: Option<Bounds>) -> io::Result<()> {
    match (feed::frame_of(bounds), bounds) {
        (Ok(e), Some(b)) => print_extent(to, e, b),
        (Err(r), _) => print_number(to, r.number()),
        (Ok(_), None) => Ok(()),
    }
}

fn draw_slot(to: &mut impl Write, b: Option<Bounds>, s: Slot) -> io::Result<Option<Bounds>> {
    print_drawn(to, feed::dot(s), s.position)?;
    Ok(feed::take_in(b, s))
}

// A line without a slot draws nothing.
fn draw_line(to: &mut impl Write, b: Option<Bounds>, line: &[u8]) -> io::Result<Option<Bounds>> {
    match slots::slot_of_line(line) {
        Ok(s) => draw_slot(to, b, s),
        Err(_) => Ok(b),
    }
}

// The first n lines of a text.
fn draw(to: &mut impl Write, text: &[u8], n: usize) -> io::Result<()>
    requires { 81 * n ≤ length text.now }
{
    let mut b = None;
    for i in 0..n {
        let at = 81 * i;
        b = draw_line(to, b, &text[at..at + 80])?;
    }
    print_frame(to, b)
}

fn draw_good(to: &mut impl Write, text: &[u8]) -> io::Result<()> {
    let v = gate::check(text);
    print_number(to, v.number())?;
    draw(to, text, v.good as usize)
}

fn main(rt: HostRuntime) -> io::Result<()> {
    let mut text = Vec::new(rt.alloc());
    rt.reader().take(MOST_READ).read_to_end(&mut text)?;
    let mut to = BufWriter::new(rt.alloc(), io::writer(&rt))?;
    draw_good(&mut to, &text)?;
    to.flush()
}
