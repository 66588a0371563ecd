// Prints, for bit patterns at the edges of what a sample may hold, the pattern, its v as a speed and its band as a pressure.
// That the output can't be written is told on standard error and ends the program.
#![tactic(auto)]

use refusal::Refusal;
use std::io;
use std::io::Write;

const PATTERNS: [u32; 35] = [
    0x00000000, // zero
    0x80000000, // minus zero
    0x00000001, // the least above zero
    0x007fffff, // the greatest subnormal
    0x00800000, // the least normal
    0x3c638e38, // the last that rounds to 0
    0x3c638e39, // the first that rounds to 1
    0x3dffffff, // just below 0.125
    0x3e000000, // 0.125: 36x is 4.5
    0x405fffff, // just below 3.5
    0x40600000, // 3.5
    0x40600001, // just above 3.5
    0x408fffff, // just below 4.5
    0x40900000, // 4.5
    0x40900001, // just above 4.5
    0x411fffff, // just below 10
    0x41200000, // 10
    0x41200001, // just above 10
    0x41de1c71, // the last that rounds to 999
    0x41de1c72, // the first that rounds to 1000
    0x42854e38, // the last that rounds to 2399
    0x42854e39, // the first that rounds to 2400
    0x428ae000, // 69.4375
    0x428aeaaa, // the last that rounds to 2500
    0x428aeaab, // the first that rounds to 2501
    0x428b0000, // 69.5
    0x7f7fffff, // the greatest number
    0x7f800000, // infinity
    0x7f800001, // NaN, signalling
    0x7fc00000, // NaN, quiet
    0x80000001, // the first below zero
    0xbf800000, // -1
    0xff800000, // minus infinity
    0xffc00001, // NaN, minus, quiet
    0xffffffff, // NaN, all ones
];

// A space, and the number or `refused`.
fn print<W: Write>(out: &mut W, read: Result<u16, Refusal>) -> io::Result<()> {
    match read {
        Ok(number) => write!(out, " {number}"),
        Err(_) => out.write_all(b" refused"),
    }
}

fn print_line<W: Write>(out: &mut W, bits: u32) -> io::Result<()> {
    let x = reading::float_of_bits(bits);
    write!(out, "{bits:08x}")?;
    print(out, reading::speed_of(x))?;
    print(out, reading::pressure_of(x).map(u16::from))?;
    out.write_all(b"\n")
}

fn main(rt: HostRuntime) {
    let mut out = rt.stdout();
    for bits in PATTERNS {
        if let Err(error) = print_line(&mut out, bits) {
            input::fail(&mut rt.stderr(), b"readings: standard output", error);
            return;
        }
    }
}
