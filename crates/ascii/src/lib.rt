// Tests of bytes without a branch: what calls them is straight-line code.
#![tactic(auto)]

ghost use Rattle.std.specs.Prelude.{◌≡◌};
ghost use Rattle.ascii.specs.Tests.{same, between, is_digit, is_upper, is_code};

pub fn is(b: u8, x: u8) -> bool
    ensures { result ≡ same b x }
{
    b == x
}

pub fn within(b: u8, lo: u8, hi: u8) -> bool
    ensures { result ≡ between lo hi b }
{
    if b < lo {
        return false;
    }
    b <= hi
}

// 0-9
pub fn is_digit(b: u8) -> bool
    ensures { result ≡ is_digit b }
{
    within(b, b'0', b'9')
}

// A-Z
pub fn is_upper(b: u8) -> bool
    ensures { result ≡ is_upper b }
{
    within(b, b'A', b'Z')
}

// A-Z and 0-9
pub fn is_code(b: u8) -> bool
    ensures { result ≡ is_code b }
{
    is_upper(b) | is_digit(b)
}
