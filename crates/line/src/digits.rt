// Hexadecimal digits in ASCII, lower case: read from a line, written to a buffer. By hand: `from_str_radix` takes text, with upper case and a sign
// too, which a line may not have, and `{:02x}` is written by a `write!` that may fail, which `answer` may not.
ghost use Rattle.std.specs.Prelude.{◌≡◌, true, ◌++◌, ◌+◌, ◌*◌, ◌≤◌, ◌<◌, length, get_or, take, drop};
ghost use Rattle.line.specs.Digits.{is_digit, digit_value, all_digits, pair_value, digit_of, pair_of, digits_of};

// Both ranges are looked at in any case: nothing branches there.
#[tactic(auto, unfolding(crate::specs::Digits::is_digit))]
fn is_digit(c: u8) -> bool
    ensures { result ≡ is_digit c }
{
    matches!(c, b'0'..=b'9') | matches!(c, b'a'..=b'f')
}

// Every byte of a line is a digit.
pub(crate) fn are_digits(line: &[u8]) -> bool
    ensures { result ≡ all_digits line.now }
{
    line.iter().all(|&c| is_digit(c))
}

// What a digit stands for.
#[tactic(auto, using(crate::proofs::Hexadecimal::values))]
fn value(c: u8) -> u8
    requires { is_digit c ≡ true }
    ensures { (result ≡ digit_value c) × (result ≤ 15) }
{
    if c <= b'9' { c - b'0' } else { c - b'a' + 10 }
}

// The byte of the two digits at a place.
#[tactic(auto, using(crate::proofs::Hexadecimal::each_one), unfolding(crate::specs::Digits::pair_value))]
pub(crate) fn byte_at(line: &[u8], at: usize) -> u8
    requires { (all_digits line.now ≡ true) × (at + 1 < length line.now) }
    ensures { result ≡ pair_value (get_or line.now at 0) (get_or line.now (at + 1) 0) }
{
    value(line[at]) * 16 + value(line[at + 1])
}

// The digit of a value.
#[tactic(auto, unfolding(crate::specs::Digits::digit_of))]
fn digit_of(v: u8) -> u8
    requires { v < 16 }
    ensures { result ≡ digit_of v }
{
    if v < 10 { b'0' + v } else { b'a' + (v - 10) }
}

// The two digits of a byte at a place.
#[tactic(auto, using(image::proofs::Overwrite::store_two))]
pub(crate) fn put_byte(out: &mut [u8], at: usize, byte: u8)
    requires { at + 2 ≤ length out.old }
    ensures { out.new ≡ take at out.old ++ pair_of byte ++ drop (at + 2) out.old }
{
    out[at] = digit_of(byte / 16);
    out[at + 1] = digit_of(byte % 16);
}

// The digits of bytes from a place on. (`chunks_exact_mut` and `zip` were tried: as at `open_slots`, `returns` stayed open.)
pub(crate) fn put_bytes(out: &mut [u8], at: usize, bytes: &[u8])
    requires { at + 2 * length bytes.now ≤ length out.old }
    ensures { out.new
        ≡ take at out.old ++ digits_of bytes.now ++ drop (at + 2 * length bytes.now) out.old }
{
    for (i, &byte) in bytes.iter().enumerate() {
        put_byte(out, at + 2 * i, byte);
    }
}
