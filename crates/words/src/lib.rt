// Free text in up to eight columns, held as one number: its bytes to the base 256.
#![tactic(auto)]

ghost use Rattle.std.specs.Prelude.{◌≡◌, ◌+◌, ◌≤◌, ◌<◌, length};
ghost use Rattle.columns.specs.Columns.{Put};
ghost use Rattle.words.specs.Words.{word_at, word_f, bytes_of, clean_of};
ghost use Rattle.fields.specs.Format.{read_of};

use columns::Column;

// The word in n columns from `at`.
pub fn word(line: &[u8], at: usize, n: usize) -> u64
    requires { (at + n ≤ length line.now) × (n ≤ 8) }
    ensures { result ≡ word_at line.now at n }
{
    let mut w: u64 = 0;
    for b in &line[at..at + n] {
        w = 256 * w + *b as u64;
    }
    w
}

// Free text in n columns, as their word.
pub fn read_word(line: &[u8], at: usize, n: usize) -> Result<u64, Column>
    requires { (at + n ≤ length line.now) × (at < 80) × (n ≤ 8) }
    ensures { result ≡ read_of (word_f n) line.now at }
{
    columns::judged(word(line, at, n), columns::is_clean(line, at, n), at)
}

// Whether a word has no more than n bytes, each 32 to 126.
pub fn is_word(n: usize, v: u64) -> bool
    ensures { result ≡ clean_of n v }
{
    if n == 0 {
        return v == 0;
    }
    let before = is_word(n - 1, v / 256);
    let b = (v % 256) as u8;
    before & ascii::within(b, b' ', b'~')
}

// The n bytes of a word, from `at`.
pub fn put_word(line: &mut [u8], at: usize, n: usize, v: u64)
    requires { at + n ≤ length line.old }
    ensures { Put line.old at n (bytes_of n v) line.new }
{
    if n == 0 {
        return;
    }
    let m = n - 1;
    put_word(line, at, m, v / 256);
    line[at + m] = (v % 256) as u8;
}
