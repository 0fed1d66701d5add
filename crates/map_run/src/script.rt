//! The lines of a script.
ghost use Rattle.std.specs.Prelude.{◌≡◌, ◌+◌, ◌<◌, ◌≤◌, ◌∷◌, length, take, drop, map, IfSome, position, ◌==◌};
ghost use Rattle.std.specs.List.{position_or_len};
ghost use Rattle.std.specs.Simd.Lanes.{mask_l};
ghost use Rattle.machine_defs.specs.Script.{lines_of};
ghost use Rattle.map_run.specs.Lines.{lines_after};

use std::simd::prelude::*;

/// The first line of a text, and the text behind its line feed, if it ends with one.
pub fn next_line(text: &[u8]) -> (&[u8], Option<&[u8]>)
    ensures lines { lines_of text.now ≡ result.0.now ∷ lines_after result.1 }
    ensures shorter { IfSome result.1 (λ after. length after.now < length text.now) }
{
    match line_end(text) {
        Some(end) => (&text[..end], Some(&text[end + 1..])),
        None => (text, None),
    }
}

/// How many bytes are looked at together.
const LANES: usize = 16;

/// Where the first line feed stands.
fn line_end(text: &[u8]) -> Option<usize>
    ensures place { result ≡ position (λ b. b == 10) text.now }
    ensures within { IfSome result (λ end. end < length text.now) }
{
    let end = line_len(text);
    if end < text.len() { Some(end) } else { None }
}

/// Where the first line feed stands, or else the end of the text.
fn line_len(text: &[u8]) -> usize
    ensures { result ≡ position_or_len (λ b. b == 10) text.now }
{
    let mut start = 0;
    while text.len() - start >= LANES {
        let feeds = line_feeds(text, start);
        if feeds != 0 {
            return start + feeds.trailing_zeros() as usize;
        }
        start += LANES;
    }
    line_len_from(text, start)
}

/// Which of the bytes from `start` on are line feeds: the lowest bit tells of the byte at `start`, the next of the one behind it.
fn line_feeds(text: &[u8], start: usize) -> u64
    requires { start + LANES ≤ length text.now }
    ensures { result ≡ mask_l (map (λ b. b == 10) (take 16 (drop start text.now))) }
{
    u8x16::from_slice(&text[start..])
        .simd_eq(u8x16::splat(b'\n'))
        .to_bitmask()
}

/// Where the first line feed from `start` on stands, or else the end of the text.
fn line_len_from(text: &[u8], start: usize) -> usize
    requires { start ≤ length text.now }
    ensures { result ≡ start + position_or_len (λ b. b == 10) (drop start text.now) }
{
    let mut end = start;
    while end < text.len() && text[end] != b'\n' {
        end += 1;
    }
    end
}
