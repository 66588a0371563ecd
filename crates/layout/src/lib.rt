// Bytes at places of a slice. A place past the end holds 0 to `byte_at` and `u16_at`, which have no `requires`.
#![tactic(auto)]

ghost use Rattle.std.specs.Prelude.{◌≡◌, ◌+◌, ◌*◌, ◌/◌, ◌%◌, ◌≤◌, leb, length, get_or};
ghost use mathlib.Core.List.{flat_map};
ghost use Rattle.layout.specs.Layout.{u16_at, u16_bytes, written, put};

// The byte `k` places after `at`.
pub fn byte_at(bytes: &[u8], at: usize, k: usize) -> u8
    ensures { result ≡ get_or bytes.now (at + k) 0 }
{
    if at < bytes.len() {
        if k < bytes.len() - at {
            return bytes[at + k];
        }
    }
    0
}

fn u16_of(low: u8, high: u8) -> u16
    ensures { result ≡ low + 256 * high }
{
    u16::from_le_bytes([low, high])
}

// The u16 `k` places after `at`, its low byte first.
#[tactic(auto, using(crate::proofs::U16::u16_at_past), unfolding(crate::specs::Layout::u16_at))]
pub fn u16_at(bytes: &[u8], at: usize, k: usize) -> u16
    ensures { result ≡ u16_at bytes.now (at + k) }
{
    // beyond the end both bytes are 0, and k + 1 may not fit
    if bytes.len() <= k {
        return 0;
    }
    let low = byte_at(bytes, at, k);
    u16_of(low, byte_at(bytes, at, k + 1))
}

// The u16 from `at`, where both its bytes are known to be there: no test.
#[tactic(auto, unfolding(crate::specs::Layout::u16_at))]
pub fn u16_within(bytes: &[u8], at: usize) -> u16
    requires { at + 2 ≤ length bytes.now }
    ensures { result ≡ u16_at bytes.now at }
{
    u16_of(bytes[at], bytes[at + 1])
}

// Whether so many bytes from `at` lie within a length; at + width may not fit a usize.
pub fn fits(length: usize, at: usize, width: usize) -> bool
    ensures { result ≡ leb (at + width) length }
{
    if length < width {
        return false;
    }
    at <= length - width
}

// Writes bytes from `at`, where they are known to fit: no test.
pub fn put_bytes<const N: usize>(bytes: &mut [u8], at: usize, new: [u8; N])
    requires { at + N ≤ length bytes.old }
    ensures { bytes.new ≡ written bytes.old at new.entry }
{
    bytes[at..at + N].copy_from_slice(&new);
}

// Writes bytes from `at`; where they do not fit, nothing.
#[tactic(auto, unfolding(crate::specs::Layout::put))]
pub fn put_if_fits<const N: usize>(bytes: &mut [u8], at: usize, new: [u8; N])
    ensures { bytes.new ≡ put bytes.old at new.entry }
{
    if fits(bytes.len(), at, N) {
        put_bytes(bytes, at, new);
    }
}

// Writes a u16 from `at`, its low byte first.
pub fn put_u16(bytes: &mut [u8], at: usize, x: u16)
    requires { at + 2 ≤ length bytes.old }
    ensures { bytes.new ≡ written bytes.old at (u16_bytes x) }
{
    put_bytes(bytes, at, x.to_le_bytes());
}

// Writes u16 end to end from `at`, each with its low byte first.
pub fn put_u16s(bytes: &mut [u8], at: usize, new: &[u16])
    requires { at + 2 * length new.now ≤ length bytes.old }
    ensures { bytes.new ≡ written bytes.old at (flat_map u16_bytes new.now) }
{
    for (i, x) in new.iter().enumerate() {
        put_u16(bytes, at + 2 * i, *x);
    }
}
