// Columns of a line: faults, blanks, clean bytes, and writing from left to right.
#![tactic(auto)]

ghost use Rattle.std.specs.Prelude.{◌≡◌, ◌+◌, ◌≤◌, ◌<◌, ◌∷◌, [], length, set};
ghost use Rattle.columns.specs.Answers.{read_as, lower_of};
ghost use Rattle.columns.specs.Columns.{blame, gap_of, clean_at, blanks, Put};

// The first column of a wrong field, from 1.
#[derive(Clone, Copy, PartialEq, Eq)]
pub struct Column(pub u32);

// The value of a field at index `at` where the field is right, else its first column.
pub fn judged<T: Copy>(value: T, right: bool, at: usize) -> Result<T, Column>
    requires { at < 80 }
    ensures { result ≡ read_as (blame right at) value }
{
    if right {
        Ok(value)
    } else {
        Err(Column((at + 1) as u32))
    }
}

// What a field answers under a rule that may blame a column inside it: of two faults, the lower column.
pub fn lower<T: Copy>(field: Result<T, Column>, rule: Result<(), Column>) -> Result<T, Column>
    ensures { result ≡ lower_of field rule }
{
    match (field, rule) {
        (Err(a), Err(b)) => Err(Column(a.0.min(b.0))),
        (Ok(_), Err(b)) => Err(b),
        (_, Ok(_)) => field,
    }
}

// The first of n columns from `at` that is not blank.
pub fn gap(line: &[u8], at: usize, n: usize) -> Result<(), Column>
    requires { (at + n ≤ length line.now) × (at + n ≤ 80) }
    ensures { result ≡ read_as (gap_of line.now at n) tt }
{
    for i in 0..n {
        if line[at + i] != b' ' {
            return Err(Column((at + i + 1) as u32));
        }
    }
    Ok(())
}

// Whether n columns from `at` are each 32 to 126.
pub fn is_clean(line: &[u8], at: usize, n: usize) -> bool
    requires { at + n ≤ length line.now }
    ensures { result ≡ clean_at line.now at n }
{
    let mut ok = true;
    for i in 0..n {
        ok &= ascii::within(line[at + i], b' ', b'~');
    }
    ok
}

// One column.
pub fn put_one(line: &mut [u8], at: usize, b: u8)
    requires { at + 1 ≤ length line.old }
    ensures { Put line.old at 1 (b ∷ []) line.new }
{
    line[at] = b;
}

// Blanks in n columns from `at`.
pub fn put_blanks(line: &mut [u8], at: usize, n: usize)
    requires { at + n ≤ length line.old }
    ensures { Put line.old at n (blanks n) line.new }
{
    line[at..at + n].fill(b' ');
}
