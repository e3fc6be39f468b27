// Reads the texts of each file that its arguments name and prints the numbers of the report on each, on one line.
//
// A text is its length in three bytes, the low one first, and then its bytes.
#![tactic(auto)]

ghost use Rattle.std.specs.Prelude.{[], ◌∷◌, OnOk};
ghost use Rattle.std.specs.Io.KnownBytes.{Appends};
ghost use Rattle.gate.specs.Gate.{told_by};
ghost use Rattle.verdicts.specs.Printed.{spaced, printed};

use gate::Verdict;
use reporting::LINES;
use std::alloc::Global;
use std::fs::File;
use std::io::{BufWriter, Read, Write};
use std::{env, io};

// More texts than a file has: a loop over a file has to end, and nothing says that a file does.
const MOST_TEXTS: u32 = 100000;

// The bytes that there is room for in a text: more than are judged, so that a text that is too long is seen.
const ROOM: usize = 65536;

fn put_next<W: Write>(to: &mut W, number: u64) -> io::Result<()>
    ensures { OnOk result (Appends (W.contents to.old) (W.contents to.new) (spaced number)) }
{
    write!(to, " {number}")
}

fn end_line<W: Write>(to: &mut W) -> io::Result<()>
    ensures { OnOk result (Appends (W.contents to.old) (W.contents to.new) (10 ∷ [])) }
{
    writeln!(to)
}

fn print_verdict<W: Write>(to: &mut W, v: Verdict) -> io::Result<()>
    ensures { OnOk result (Appends (W.contents to.old) (W.contents to.new) (printed (told_by v))) }
{
    let numbers = reporting::numbers(v);
    let first = numbers[0];
    write!(to, "{first}")?;
    for i in 1..LINES {
        put_next(to, numbers[i])?;
    }
    end_line(to)
}

fn length_of(head: &[u8; 3]) -> usize {
    let [a, b, c] = *head;
    u32::from_le_bytes([a, b, c, 0]) as usize
}

// Reads a text of `n` bytes, and prints its answer; answers whether it was whole.
fn whole_text(
    alloc: Global,
    file: &mut impl Read,
    to: &mut impl Write,
    n: usize,
) -> io::Result<bool> {
    let mut text = Vec::new(alloc);
    let got = file.by_ref().take(n as u64).read_to_end(&mut text)?;
    if got != n {
        return Ok(false);
    }
    print_verdict(to, reporting::report_on(&text))?;
    Ok(true)
}

// The same; answers whether there was room for the text, and it was whole.
fn one_text(
    alloc: Global,
    file: &mut impl Read,
    to: &mut impl Write,
    n: usize,
) -> io::Result<bool> {
    if ROOM < n {
        return Ok(false);
    }
    whole_text(alloc, file, to, n)
}

// Reads the length of a text and then the text, and answers whether to go on.
fn next_text(alloc: Global, file: &mut impl Read, to: &mut impl Write) -> io::Result<bool> {
    let mut head = Vec::new(alloc);
    let got = file.by_ref().take(3).read_to_end(&mut head)?;
    if got == 0 {
        return Ok(false);
    }
    if let Ok(head) = <&[u8; 3]>::try_from(head.as_slice()) {
        if one_text(alloc, file, to, length_of(head))? {
            return Ok(true);
        }
    }
    writeln!(to, "bad length")?;
    Ok(false)
}

fn all_texts(alloc: Global, file: &mut impl Read, to: &mut impl Write) -> io::Result<()> {
    for _ in 0..MOST_TEXTS {
        if !next_text(alloc, file, to)? {
            break;
        }
    }
    Ok(())
}

// The texts of the file at a path. One that does not open is named on standard error, and left out.
fn one_file(rt: &HostRuntime, to: &mut impl Write, path: &str) -> io::Result<()> {
    match File::open(rt, path) {
        Ok(mut file) => all_texts(rt.alloc(), &mut file, to),
        Err(e) => {
            to.flush()?;
            eprintln!(rt; "{path}: {e}")
        }
    }
}

fn main(rt: HostRuntime) -> io::Result<()> {
    let mut to = BufWriter::new(rt.alloc(), io::writer(&rt))?;
    for path in env::args(&rt)?.skip(1) {
        one_file(&rt, &mut to, path.as_str())?;
    }
    to.flush()
}
