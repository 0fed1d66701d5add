//! Comments, which run from a number sign to the end of the line.
ghost use Rattle.std.specs.Prelude.{◌≡◌, ◌≤◌, length};
ghost use Rattle.std.specs.List.{position_or_len};
ghost use Rattle.map_defs.specs.TextWords.{uncommented, is_comment_sign};

/// What stands before the first number sign.
pub fn without_comment(line: &[u8]) -> &[u8]
    ensures { result.now ≡ uncommented line.now }
{
    &line[..comment_start(line)]
}

/// Where the first number sign stands, or else the end of the line.
fn comment_start(line: &[u8]) -> usize
    ensures place { result ≡ position_or_len is_comment_sign line.now }
    ensures within { result ≤ length line.now }
{
    line.iter()
        .position(|byte| *byte == b'#')
        .unwrap_or(line.len())
}
