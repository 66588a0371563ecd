// Whether bytes are UTF-8, and how many characters they have.
#![tactic(auto)]

ghost use Rattle.std.specs.Prelude.{◌≡◌, true, ◌↔◌, ◌≤◌, MatchOption, length, get_or};
ghost use Rattle.std.proofs.Math.Seq.{slice};
ghost use Rattle.utf8.specs.Utf8.{Utf8};
ghost use Rattle.utf8.specs.Rows.{is_trailing, row, two, three, four, width};
ghost use Rattle.utf8.specs.Characters.{characters};

// The rows are tested here, and not by std's `from_utf8`, whose contract is std's own definition: `is_utf8` promises the Standard's, `Utf8`, and
// surrogates_alike and the edits beside it change the rows.
// A byte behind the first.
#[tactic(auto, unfolding(crate::specs::Rows::is_trailing))]
fn is_trailing(byte: u8) -> bool
    ensures { result ≡ is_trailing byte }
{
    (0x80 <= byte) & (byte <= 0xbf)
}

// The first two bytes of a row: first..last, then low..high.
#[tactic(auto, unfolding(crate::specs::Rows::row))]
fn row(first: u8, last: u8, low: u8, high: u8, a: u8, b: u8) -> bool
    ensures { result ≡ row first last low high a b }
{
    (first <= a) & (a <= last) & (low <= b) & (b <= high)
}

// The rows of two, three and four bytes.
#[tactic(auto, unfolding(crate::specs::Rows::two))]
fn two(a: u8, b: u8) -> bool
    ensures { result ≡ two a b }
{
    row(0xc2, 0xdf, 0x80, 0xbf, a, b)
}

#[tactic(auto, using(crate::proofs::Encoding::any_of_four), unfolding(crate::specs::Rows::three))]
fn three(a: u8, b: u8, c: u8) -> bool
    ensures { result ≡ three a b c }
{
    (row(0xe0, 0xe0, 0xa0, 0xbf, a, b)
        | row(0xe1, 0xec, 0x80, 0xbf, a, b)
        | row(0xed, 0xed, 0x80, 0x9f, a, b)
        | row(0xee, 0xef, 0x80, 0xbf, a, b))
        & is_trailing(c)
}

#[tactic(auto, using(crate::proofs::Encoding::any_of_three), unfolding(crate::specs::Rows::four))]
fn four(a: u8, b: u8, c: u8, d: u8) -> bool
    ensures { result ≡ four a b c d }
{
    (row(0xf0, 0xf0, 0x90, 0xbf, a, b)
        | row(0xf1, 0xf3, 0x80, 0xbf, a, b)
        | row(0xf4, 0xf4, 0x80, 0x8f, a, b))
        & is_trailing(c)
        & is_trailing(d)
}

// The byte k places after `at`, where it lies before `to`; else FF, which stands in no row.
fn byte_within(bytes: &[u8], at: usize, k: usize, to: usize) -> u8
    requires { (at ≤ to) × (to ≤ length bytes.now) }
    ensures { result ≡ get_or (slice at to bytes.now) k 0xFF }
{
    if k < to - at { bytes[at + k] } else { 0xff }
}

// How many bytes the encoding takes that begins at a place; nothing where none does.
fn width_at(bytes: &[u8], at: usize, to: usize) -> Option<usize>
    requires { (at ≤ to) × (to ≤ length bytes.now) }
    ensures { MatchOption result (width (slice at to bytes.now) ≡ 0) (λ wide. (wide ≡ width (slice at to bytes.now)) × (1 ≤ wide) × (wide ≤ 4)) }
{
    let a = byte_within(bytes, at, 0, to);
    if a <= 0x7f {
        return Some(1);
    }
    let b = byte_within(bytes, at, 1, to);
    if two(a, b) {
        return Some(2);
    }
    let c = byte_within(bytes, at, 2, to);
    if three(a, b, c) {
        return Some(3);
    }
    if four(a, b, c, byte_within(bytes, at, 3, to)) {
        return Some(4);
    }
    None
}

// Whether the bytes from a place to a place are UTF-8. There are none past the end of the slice.
pub fn is_utf8(bytes: &[u8], from: usize, to: usize) -> bool
    ensures { (result ≡ true) ↔ Utf8 (slice from to bytes.now) }
{
    let end = to.min(bytes.len());
    let mut at = from;
    // a `while`: a turn goes on by the width of an encoding, 1 to 4 bytes
    while at < end {
        let Some(width) = width_at(bytes, at, end) else {
            return false;
        };
        at += width;
    }
    true
}

// How many characters the bytes have.
#[tactic(auto, using(crate::proofs::Counted::characters_count))]
pub fn characters(bytes: &[u8]) -> usize
    ensures { result ≡ characters bytes.now }
{
    bytes.iter().filter(|byte| !is_trailing(**byte)).count()
}
