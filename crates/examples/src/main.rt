// Reads the cases of each file that its arguments name and prints the number of each; then writes records at the edges of their fields' ranges.
//
// A case is its length in two bytes, the low one first, and then its bytes.
#![tactic(auto)]

use conect::Conect;
use coordinate::{Atom, Identity, Measure, Position, Species};
use fields::{ResidueNumber, Serial};
use helix::{Comment, Extent, Helix};
use line::{Misread, Record};
use master::Tally;
use refusals::Refusal;
use residue::Residue;
use sheet::{Sheet, Strand};
use std::alloc::Global;
use std::fs::File;
use std::io::{BufWriter, Read, Write};
use std::{env, io};
use ter::Ter;

// What fills a buffer before a record is written into it, to show what the writing changed.
const FOUND: u8 = b'#';

// More cases than a file has: a loop over a file has to end, and nothing says that a file does.
const MOST_CASES: u32 = 100000;

// The bytes that there is room for in a case.
const ROOM: usize = 4096;

// Whether `out` is as found from `from` on.
fn is_found(out: &[u8; 100], from: usize) -> bool {
    for i in from..100 {
        if out[i] != FOUND {
            return false;
        }
    }
    true
}

// Whether `text` has 80 bytes, and `out` begins with them.
fn begins_with(out: &[u8; 100], text: &[u8]) -> bool {
    if text.len() != 80 {
        return false;
    }
    for i in 0..80 {
        if out[i] != text[i] {
            return false;
        }
    }
    true
}

// Whether a record is written as the line that it was read from, and the buffer past the line is as found.
fn writes_back(text: &[u8], r: Record) -> bool {
    let mut out = [FOUND; 100];
    if line::write_record(&mut out, r).is_err() {
        return false;
    }
    if begins_with(&out, text) {
        return is_found(&out, 80);
    }
    false
}

// Whether a record that reading gave is refused with 17 where there is room for 79 bytes only, and the buffer is as found.
fn needs_room(r: Record) -> bool {
    let mut out = [FOUND; 100];
    line::write_record(&mut out[..79], r) == Err(Refusal::Room) && out == [FOUND; 100]
}

fn print_number(to: &mut impl Write, n: u8) -> io::Result<()> {
    writeln!(to, "{n}")
}

// The line of a case with a wrong field: 6 and its column.
fn print_wrong(to: &mut impl Write, column: u32) -> io::Result<()> {
    writeln!(to, "6 {column}")
}

// The line of a case that reads.
fn print_read(to: &mut impl Write, text: &[u8], r: Record) -> io::Result<()> {
    if writes_back(text, r) {
        if needs_room(r) {
            return writeln!(to, "0");
        }
        return writeln!(to, "0 short");
    }
    writeln!(to, "0 differs")
}

fn print_case(to: &mut impl Write, text: &[u8]) -> io::Result<()> {
    match line::read_line(text) {
        Ok(r) => print_read(to, text, r),
        Err(Misread::Refused(r)) => print_number(to, r.number()),
        Err(Misread::Wrong(column)) => print_wrong(to, column.0),
    }
}

fn length_of(head: &[u8; 2]) -> usize {
    u16::from_le_bytes(*head) as usize
}

// Reads a case of `n` bytes, and prints its line; answers whether it was whole.
fn whole_case(
    alloc: Global,
    file: &mut impl Read,
    to: &mut impl Write,
    n: usize,
) -> io::Result<bool> {
    let mut case = Vec::new(alloc);
    let got = file.by_ref().take(n as u64).read_to_end(&mut case)?;
    if got != n {
        return Ok(false);
    }
    print_case(to, &case)?;
    Ok(true)
}

// The same; answers whether there was room for the case, and it was whole.
fn one_case(
    alloc: Global,
    file: &mut impl Read,
    to: &mut impl Write,
    n: usize,
) -> io::Result<bool> {
    if ROOM < n {
        return Ok(false);
    }
    whole_case(alloc, file, to, n)
}

// Reads the length of a case and then the case, and answers whether to go on.
fn next_case(alloc: Global, file: &mut impl Read, to: &mut impl Write) -> io::Result<bool> {
    let mut head = Vec::new(alloc);
    let got = file.by_ref().take(2).read_to_end(&mut head)?;
    if got == 0 {
        return Ok(false);
    }
    if let Ok(head) = <&[u8; 2]>::try_from(head.as_slice()) {
        if one_case(alloc, file, to, length_of(head))? {
            return Ok(true);
        }
    }
    writeln!(to, "bad length")?;
    Ok(false)
}

fn all_cases(alloc: Global, file: &mut impl Read, to: &mut impl Write) -> io::Result<()> {
    for _ in 0..MOST_CASES {
        if !next_case(alloc, file, to)? {
            break;
        }
    }
    Ok(())
}

// The cases of the file at a path. One that does not open is named on standard error, and left out.
fn one_file(rt: &HostRuntime, to: &mut impl Write, path: &str) -> io::Result<()> {
    match File::open(rt, path) {
        Ok(mut file) => all_cases(rt.alloc(), &mut file, to),
        Err(e) => {
            to.flush()?;
            eprintln!(rt; "{path}: {e}")
        }
    }
}

// Writes a record and prints the number, and ` written` unless the record is refused with 6 and the buffer is as found.
fn print_write(to: &mut impl Write, r: Record) -> io::Result<()> {
    let mut out = [FOUND; 100];
    let answer = line::write_record(&mut out, r);
    if answer == Err(Refusal::Field) && out == [FOUND; 100] {
        return writeln!(to, "6");
    }
    match answer {
        Ok(()) => writeln!(to, "0 written"),
        Err(refused) => writeln!(to, "{} written", refused.number()),
    }
}

fn glycine() -> Residue {
    Residue {
        name: *b"GLY",
        chain: b'A',
        number: ResidueNumber(1),
        insertion: b' ',
    }
}

fn print_ter(to: &mut impl Write, serial: u32) -> io::Result<()> {
    print_write(
        to,
        Record::Ter(Ter {
            serial: Serial(serial),
            residue: glycine(),
        }),
    )
}

// The alpha carbon of a glycine.
fn print_carbon(
    to: &mut impl Write,
    x: i32,
    occupancy: u32,
    temperature: i32,
    name: [u8; 4],
) -> io::Result<()> {
    let identity = Identity {
        serial: Serial(1),
        name,
        alternate: b' ',
        residue: glycine(),
    };
    let measure = Measure {
        position: Position { x, y: 0, z: 0 },
        occupancy,
        temperature,
    };
    let species = Species {
        element: *b" C",
        charge: *b"  ",
    };
    print_write(
        to,
        Record::Coordinate(
            false,
            Atom {
                identity,
                measure,
                species,
            },
        ),
    )
}

fn print_helix(to: &mut impl Write, class: u32) -> io::Result<()> {
    let extent = Extent {
        serial: 1,
        id: *b"  1",
        first: glycine(),
        last: glycine(),
    };
    let comment = Comment {
        a: 0x2020202020202020,
        b: 0x2020202020202020,
        c: 0x20202020202020,
        d: 0x20202020202020,
    };
    print_write(
        to,
        Record::Helix(Helix {
            extent,
            class,
            comment,
            length: 1,
        }),
    )
}

fn print_sheet(to: &mut impl Write, strand: u32, sense: i32) -> io::Result<()> {
    let strand = Strand {
        strand,
        id: *b"  A",
        strands: 2,
        first: glycine(),
        last: glycine(),
        sense,
    };
    print_write(
        to,
        Record::Sheet(Sheet {
            strand,
            registration: None,
        }),
    )
}

// 0 for a partner is none.
fn print_conect(to: &mut impl Write, serial: u32, a: u32, b: u32, c: u32) -> io::Result<()> {
    print_write(
        to,
        Record::Conect(Conect {
            serial: Serial(serial),
            a: Serial(a),
            b: Serial(b),
            c: Serial(c),
            d: Serial(0),
        }),
    )
}

fn print_master(to: &mut impl Write, remark: u32, seq: u32) -> io::Result<()> {
    print_write(
        to,
        Record::Master(Tally {
            remark,
            het: 0,
            helix: 0,
            sheet: 0,
            xform: 0,
            coord: 0,
            ter: 0,
            conect: 0,
            seq,
        }),
    )
}

// Serials on both sides of each end of the range.
fn ters(to: &mut impl Write) -> io::Result<()> {
    print_ter(to, 0)?;
    print_ter(to, 1)?;
    print_ter(to, 99999)?;
    print_ter(to, 100000)
}

fn coordinates(to: &mut impl Write) -> io::Result<()> {
    let alpha = *b" CA ";
    let calcium = *b"CA  ";
    print_carbon(to, 0, 100, 0, alpha)?;
    print_carbon(to, 0, 101, 0, alpha)?;
    // A name that does not begin with its element.
    print_carbon(to, 0, 100, 0, calcium)?;
    print_carbon(to, 9999999, 100, 0, alpha)?;
    print_carbon(to, 10000000, 100, 0, alpha)?;
    print_carbon(to, -999999, 100, 0, alpha)?;
    print_carbon(to, -1000000, 100, 0, alpha)?;
    print_carbon(to, 0, 100, 99999, alpha)?;
    print_carbon(to, 0, 100, 100000, alpha)?;
    print_carbon(to, 0, 100, -9999, alpha)?;
    print_carbon(to, 0, 100, -10000, alpha)
}

fn helices(to: &mut impl Write) -> io::Result<()> {
    print_helix(to, 0)?;
    print_helix(to, 1)?;
    print_helix(to, 10)?;
    print_helix(to, 11)
}

// The sense is 0 for strand 1, and only for it.
fn sheets(to: &mut impl Write) -> io::Result<()> {
    print_sheet(to, 1, 0)?;
    print_sheet(to, 1, 1)?;
    print_sheet(to, 2, 1)?;
    print_sheet(to, 2, 0)
}

fn bonds(to: &mut impl Write) -> io::Result<()> {
    print_conect(to, 1, 2, 3, 4)?;
    // A partner that is the atom itself.
    print_conect(to, 1, 1, 0, 0)?;
    print_conect(to, 1, 2, 1, 0)?;
    // A partner right of a blank one.
    print_conect(to, 1, 2, 0, 3)?;
    print_conect(to, 1, 0, 2, 3)?;
    print_conect(to, 1, 100000, 0, 0)
}

fn tallies(to: &mut impl Write) -> io::Result<()> {
    print_master(to, 0, 99999)?;
    print_master(to, 100000, 0)?;
    print_master(to, 0, 100000)
}

fn main(rt: HostRuntime) -> io::Result<()> {
    let mut to = BufWriter::new(rt.alloc(), io::writer(&rt))?;
    for path in env::args(&rt)?.skip(1) {
        one_file(&rt, &mut to, path.as_str())?;
    }
    ters(&mut to)?;
    coordinates(&mut to)?;
    helices(&mut to)?;
    sheets(&mut to)?;
    bonds(&mut to)?;
    tallies(&mut to)?;
    print_write(&mut to, Record::End)?;
    to.flush()
}
