//! Finds strings that are shown unchanged between quotes, by up to sixteen octets at a time.
ghost use Rattle.std.specs.Prelude.{◌≡◌, ◌+◌, ◌≤◌, length, true};
ghost use Rattle.std.specs.Bool.{OnTrue};
ghost use Rattle.smi_value.specs.Pieces.{ArePlain, IsShownPlain};

use crate::letters::StringForm;
use std::simd::prelude::*;

/// Returns `true` only if a string is shown as text with each octet unchanged, as most strings are.
/// After `false` the caller finds out how it is shown.
pub(crate) fn is_shown_plain(form: StringForm, octets: &[u8]) -> bool
    ensures { OnTrue result (IsShownPlain form octets.now) }
{
    match form {
        StringForm::Hexadecimal => false,
        _ => are_plain(octets),
    }
}

/// Returns whether each octet is printable ASCII, and neither a double quote nor a backslash.
fn are_plain(octets: &[u8]) -> bool
    ensures { OnTrue result (ArePlain octets.now 0 (length octets.now)) }
{
    if octets.len() < 8 {
        are_plain_few(octets)
    } else if octets.len() < 16 {
        are_plain_8(octets, 0) && are_plain_8(octets, octets.len() - 8)
    } else {
        are_plain_many(octets)
    }
}

/// Does what [`are_plain`] does, for at least 16 octets. The last 16 may overlap those before them.
fn are_plain_many(octets: &[u8]) -> bool
    requires { 16 ≤ length octets.now }
    ensures { OnTrue result (ArePlain octets.now 0 (length octets.now)) }
{
    let mut at = 0;
    'pieces: while octets.len() - at > 16 {
        if !are_plain_16(octets, at) {
            return false;
        }
        at += 16;
    }
    are_plain_16(octets, octets.len() - 16)
}

/// Does what [`are_plain`] does, one octet at a time.
fn are_plain_few(octets: &[u8]) -> bool
    ensures { OnTrue result (ArePlain octets.now 0 (length octets.now)) }
{
    'octets: for octet in octets {
        if *octet < 32 || *octet > 126 || *octet == b'"' || *octet == b'\\' {
            return false;
        }
    }
    true
}

/// Does what [`are_plain`] does, for the sixteen octets from offset `at` on.
#[inline(always)]
fn are_plain_16(octets: &[u8], at: usize) -> bool
    requires { at + 16 ≤ length octets.now }
    ensures { OnTrue result (ArePlain octets.now at (at + 16)) }
{
    let these = u8x16::from_slice(&octets[at..]);
    if these.simd_lt(u8x16::splat(32)).to_bitmask() != 0 {
        return false;
    }
    if these.simd_gt(u8x16::splat(126)).to_bitmask() != 0 {
        return false;
    }
    if these.simd_eq(u8x16::splat(b'"')).to_bitmask() != 0 {
        return false;
    }
    these.simd_eq(u8x16::splat(b'\\')).to_bitmask() == 0
}

/// Does what [`are_plain`] does, for the eight octets from offset `at` on.
#[inline(always)]
fn are_plain_8(octets: &[u8], at: usize) -> bool
    requires { at + 8 ≤ length octets.now }
    ensures { OnTrue result (ArePlain octets.now at (at + 8)) }
{
    let these = u8x8::from_slice(&octets[at..]);
    if these.simd_lt(u8x8::splat(32)).to_bitmask() != 0 {
        return false;
    }
    if these.simd_gt(u8x8::splat(126)).to_bitmask() != 0 {
        return false;
    }
    if these.simd_eq(u8x8::splat(b'"')).to_bitmask() != 0 {
        return false;
    }
    these.simd_eq(u8x8::splat(b'\\')).to_bitmask() == 0
}
