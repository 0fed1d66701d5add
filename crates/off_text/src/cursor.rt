ghost use Rattle.std.specs.Prelude.{◌+◌, ◌-◌, ◌<◌, ◌^◌, length};

/// A line that has words: its number, its first word, and the text behind that word, without comments.
#[derive(Clone, Copy)]
pub struct Row<'a> {
    pub line: u32,
    pub first: &'a [u8],
    pub others: &'a [u8],
}

/// How far a text is read: the number of lines before, and the text that is left.
#[derive(Clone, Copy)]
pub struct Cursor<'a> {
    pub line: u32,
    pub rest: &'a [u8],
    ghost bound: { line + length rest.now < 2 ^ 32 - 1 },
}
