// The lines that are printed of an outcome and of why the valve is open.
#![tactic(auto)]

ghost use Rattle.std.specs.Prelude.{◌≡◌, ◌+◌, ◌*◌, ◌≤◌, ◌<◌, length};
ghost use Rattle.layout.specs.Layout.{written};
ghost use Rattle.line.specs.Line.{digit_at, digits_most, decimal, number_most, spaced, reason_most, reason_numbers, line_of, line_of_reasons};

use desk::Outcome;
use why::{Reason, Reasons};

// The most bytes of a number with the space before it, and of the first with the line end: five digits and one.
const NUMBER_MOST: usize = 6;

// The most bytes of an outcome's line.
pub const LINE_MOST: usize = 8 * NUMBER_MOST;

// The most bytes of the line of reasons: the refusal, and nine numbers of each cause.
pub const REASONS_LINE_MOST: usize = (1 + 5 * 9) * NUMBER_MOST;

// Writes the digit of x at a weight, where there is one; answers the place after it.
// Digits by hand, and the place as a number: `line_of` can't fail, and a `write!` through a cursor can.
fn put_digit(out: &mut [u8], at: usize, x: u16, weight: u16) -> usize
    requires { (at < length out.old) × (0 < weight) }
    ensures place { (result ≡ at + length (digit_at x weight)) × (result ≤ at + 1) }
    ensures text { out.new ≡ written out.old at (digit_at x weight) }
{
    if x < weight {
        return at;
    }
    out[at] = b'0' + (x / weight % 10) as u8;
    at + 1
}

// Writes x in decimal; answers the place after it.
fn put_decimal(out: &mut [u8], at: usize, x: u16) -> usize
    requires { at + digits_most ≤ length out.old }
    ensures place { (result ≡ at + length (decimal x)) × (result ≤ at + digits_most) }
    ensures text { out.new ≡ written out.old at (decimal x) }
{
    let a = put_digit(out, at, x, 10000);
    let b = put_digit(out, a, x, 1000);
    let c = put_digit(out, b, x, 100);
    let d = put_digit(out, c, x, 10);
    out[d] = b'0' + (x % 10) as u8;
    d + 1
}

// Writes numbers in decimal, a space before each; answers the place after them.
fn put_spaced(out: &mut [u8], from: usize, numbers: &[u16]) -> usize
    requires { from + number_most * length numbers.now ≤ length out.old }
    ensures place { (result ≡ from + length (spaced numbers.now)) × (result ≤ from + number_most * length numbers.now) }
    ensures text { out.new ≡ written out.old from (spaced numbers.now) }
{
    let mut at = from;
    for x in numbers {
        out[at] = b' ';
        at = put_decimal(out, at + 1, *x);
    }
    at
}

// Writes the line of an outcome; answers its length.
pub fn line_of(outcome: Outcome, out: &mut [u8; LINE_MOST]) -> usize
    ensures length { (result ≡ length (line_of outcome)) × (result ≤ length out.new) }
    ensures text { out.new ≡ written out.old 0 (line_of outcome) }
{
    let answer = outcome.answer;
    let first = put_decimal(out, 0, outcome.refusal as u16);
    let end = put_spaced(
        out,
        first,
        &[
            outcome.desk.n,
            answer.permitted,
            answer.target,
            answer.marks as u16,
            answer.causes as u16,
            answer.lowest as u16,
            answer.held as u16,
        ],
    );
    out[end] = b'\n';
    end + 1
}

// Writes why a cause is held, by its number; nothing where it is not. Answers the place after it.
#[tactic(auto, using(crate::proofs::Put::written_none), unfolding(crate::specs::Line::spaced, crate::specs::Line::reason_numbers))]
fn put_reason(out: &mut [u8], at: usize, cause: u16, reason: Reason) -> usize
    requires { at + reason_most ≤ length out.old }
    ensures place { (result ≡ at + length (spaced (reason_numbers cause reason))) × (result ≤ at + reason_most) }
    ensures text { out.new ≡ written out.old at (spaced (reason_numbers cause reason)) }
{
    // tick 0 of a `Reason`, which C reads, is no tick
    if reason.tick == 0 {
        return at;
    }
    let r = reason.reading;
    put_spaced(
        out,
        at,
        &[
            cause,
            reason.tick,
            r.v,
            r.code as u16,
            r.mode as u16,
            r.lever as u16,
            r.flags as u16,
            r.band as u16,
            r.sense as u16,
        ],
    )
}

// Writes the line of reasons; answers its length. The five are fields, since C reads `Reasons`.
pub fn line_of_reasons(reasons: Reasons, out: &mut [u8; REASONS_LINE_MOST]) -> usize
    ensures length { (result ≡ length (line_of_reasons reasons)) × (result ≤ length out.new) }
    ensures text { out.new ≡ written out.old 0 (line_of_reasons reasons) }
{
    let first = put_decimal(out, 0, reasons.refusal as u16);
    let second = put_reason(out, first, 1, reasons.nz1);
    let third = put_reason(out, second, 2, reasons.nz2);
    let fourth = put_reason(out, third, 3, reasons.nz3);
    let fifth = put_reason(out, fourth, 4, reasons.nz4);
    let end = put_reason(out, fifth, 5, reasons.nz5);
    out[end] = b'\n';
    end + 1
}
