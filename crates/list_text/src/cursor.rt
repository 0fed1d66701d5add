ghost use Rattle.std.specs.Prelude.{◌+◌, ◌-◌, ◌<◌, ◌^◌, length};

/// How far a text is read: the number of lines before, and the text that is left.
#[derive(Clone, Copy)]
pub(crate) struct Cursor<'a> {
    pub line: u32,
    pub rest: &'a [u8],
    ghost bound: { line + length rest.now < 2 ^ 32 - 1 },
}
