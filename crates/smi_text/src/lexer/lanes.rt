//! Runs of octets that pass a test, 16 octets at a time.
ghost use Rattle.std.specs.Prelude.{◌≡◌, ◌+◌, ◌≤◌, length};
ghost use Rattle.smi_text.specs.lexer.Lexeme.{is_word_octet};
ghost use Rattle.smi_text.specs.lexer.LongestMatch.{IsRunIn, first_set, is_space_or_tab};

use std::simd::prelude::*;

/// The number of octets that one vector load reads.
pub const LANES: usize = 16;

/// Returns the index of the lowest bit that is set in `mask`, or `LANES` if none is.
#[inline(always)]
fn first_set(mask: u64) -> usize
    ensures { result ≡ first_set mask }
{
    if mask == 0 {
        LANES
    } else {
        mask.trailing_zeros() as usize
    }
}

/// Returns how many octets in a row, from offset `at` on and at most 16, are letters, digits or
/// `_`.
#[inline(always)]
pub fn word_run(text: &[u8], at: usize) -> usize
    requires { at + LANES ≤ length text.now }
    ensures { IsRunIn is_word_octet text.now at result }
{
    let octets = u8x16::from_slice(&text[at..]);
    // With bit 0x20 set and `a` subtracted, letters and no other octets are below 26. With `0`
    // subtracted, digits and no other octets are below 10.
    let letters = (octets | u8x16::splat(0x20)) - u8x16::splat(b'a');
    let digits = octets - u8x16::splat(b'0');
    let neither = letters.simd_ge(u8x16::splat(26)) & digits.simd_ge(u8x16::splat(10));
    let stops = neither & octets.simd_ne(u8x16::splat(b'_'));
    first_set(stops.to_bitmask())
}

/// Returns how many octets in a row, from offset `at` on and at most 16, are spaces or tabs.
#[inline(always)]
pub fn blank_run(text: &[u8], at: usize) -> usize
    requires { at + LANES ≤ length text.now }
    ensures { IsRunIn is_space_or_tab text.now at result }
{
    let octets = u8x16::from_slice(&text[at..]);
    let stops = octets.simd_ne(u8x16::splat(b' ')) & octets.simd_ne(u8x16::splat(b'\t'));
    first_set(stops.to_bitmask())
}
