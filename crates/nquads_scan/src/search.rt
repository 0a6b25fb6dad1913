//! Searches for a byte that is likely to be near, 32 bytes at a time. A search stops at a line end, too, since no term
//! goes on after one.
//!
//! A call of `memchr` costs more than the search itself if the byte is some ten bytes away. Who calls a search here looks
//! at the byte that was found.

ghost use Rattle.std.specs.Prelude.{◌≡◌, ◌≤◌, length, map};
ghost use Rattle.std.specs.Simd.Lanes.{mask_l};
ghost use Rattle.nquads_scan.specs.Ends.{is_line_end, is_sought, HasNoEndIn, IsPassed};

use std::simd::prelude::*;

/// How many bytes are compared at once.
const WIDTH: usize = 32;

/// Returns whether a byte is LF or CR.
#[inline(always)]
pub fn is_line_end(b: u8) -> bool
    ensures { result ≡ is_line_end b }
{
    b == b'\n' || b == b'\r'
}

/// Returns whether a search for these two bytes stops at a byte.
#[inline(always)]
fn is_sought(a: u8, b: u8, c: u8) -> bool
    ensures { result ≡ is_sought a b c }
{
    c == a || c == b || is_line_end(c)
}

/// Returns a bit for each of 32 bytes at which a search for these two stops.
#[inline(always)]
fn marks(lanes: u8x32, a: u8, b: u8) -> u64
    ensures { result ≡ mask_l (map (is_sought a b) lanes) }
{
    let ends = lanes.simd_eq(u8x32::splat(b'\n')) | lanes.simd_eq(u8x32::splat(b'\r'));
    (lanes.simd_eq(u8x32::splat(a)) | lanes.simd_eq(u8x32::splat(b)) | ends).to_bitmask()
}

/// Returns the place of the first of these two bytes or line ends, from this place on, or the length.
#[inline(always)]
fn search_singly(bytes: &[u8], from: usize, a: u8, b: u8) -> usize
    requires { from ≤ length bytes.now }
    ensures low { from ≤ result }
    ensures passed { IsPassed a b bytes.now from result }
{
    let mut at = from;
    while at < bytes.len() && !is_sought(a, b, bytes[at]) {
        at += 1;
    }
    at
}

/// Returns the place of the first of these two bytes or line ends, from this place on, or the length.
#[inline(always)]
pub fn search(bytes: &[u8], from: usize, a: u8, b: u8) -> usize
    requires { from ≤ length bytes.now }
    ensures low { from ≤ result }
    ensures passed { IsPassed a b bytes.now from result }
    ensures kept { HasNoEndIn bytes.now from result }
{
    let mut at = from;
    while bytes.len() - at >= WIDTH {
        let found = marks(u8x32::from_slice(&bytes[at..]), a, b);
        if found != 0 {
            return at + found.trailing_zeros() as usize;
        }
        at += WIDTH;
    }
    search_singly(bytes, at, a, b)
}
