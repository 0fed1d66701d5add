//! The numbers behind the first word of a line.
ghost use Rattle.std.specs.Prelude.{◌≡◌, [], ◌∷◌, ◌++◌, length, IfSome, IfNone};
ghost use Rattle.machine_defs.specs.Script.{numerals};
ghost use Rattle.map_defs.specs.TextWords.{words_of};
ghost use Rattle.script_text.specs.Numbers.{given, ReadsNumbers};

use crate::front::{Front, take_number};

/// At most three numbers: no line of numbers alone has more.
#[derive(Clone, Copy, Debug, PartialEq, Eq)]
pub enum Numbers {
    Zero,
    One(u64),
    Two(u64, u64),
    Three(u64, u64, u64),
}

impl Numbers {
    /// These numbers and one more; none where there are three.
    fn with(self, number: u64) -> Option<Numbers>
        ensures more { IfSome result (λ more. given more ≡ given self ++ number ∷ []) }
        ensures full { IfNone result (length (given self) ≡ 3) }
    {
        match self {
            Numbers::Zero => Some(Numbers::One(number)),
            Numbers::One(a) => Some(Numbers::Two(a, number)),
            Numbers::Two(a, b) => Some(Numbers::Three(a, b, number)),
            Numbers::Three(..) => None,
        }
    }
}

/// The numbers that the words of a line write. There are none where a word is no numeral, or where they are more than three.
pub fn read_numbers(line: &[u8]) -> Option<Numbers>
    ensures { ReadsNumbers result (numerals (words_of line.now)) }
{
    let mut numbers = Numbers::Zero;
    let mut rest = line;
    loop {
        match take_number(rest) {
            Front::End => return Some(numbers),
            Front::Number(number, behind) => match numbers.with(number) {
                Some(more) => {
                    numbers = more;
                    rest = behind;
                }
                None => return None,
            },
            Front::Other => return None,
        }
    }
}
