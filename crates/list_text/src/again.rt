//! That reading and writing listings go together.
ghost use Rattle.list_text.specs.Again.{IsWrittenAgain};

/// A text of version 2 that is read is written again byte for byte.
pub fn written_again()
    ensures { IsWrittenAgain }
{}
