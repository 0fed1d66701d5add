ghost use Rattle.std.specs.Prelude.{◌≡◌, [], length, map, IfOk, IfErr, All, refl};
ghost use Rattle.map_defs.specs.Values.{KeepsWhole};
ghost use Rattle.hook_book.specs.Books.{book_of, IsReady, AreFine, IsPlaceOf};
ghost use Rattle.hook_book.specs.Faults.{IsFirstFault, IsFaultOf, FindsFault};
ghost use Rattle.hook_book.specs.BookFacts.{book-lawful};

use crate::boxed::Kept;
use attr_rules::{Hook, Rule, RuleName, is_free_name};
use map_kind::Value;

/// A list of rules under names, as boxes of them, over another hook, which is the row `host`. It may be called where the base
/// may, the names may be given, and each of the rules may be called and leaves whole what is not split; of a book that was
/// made of a base that may be called, all this holds.
#[derive(Drop)]
pub struct Book<H, R> {
    base: H,
    hooks: Vec<R>,
}

/// What is wrong with the name of a rule.
#[derive(Clone, Copy, Debug, PartialEq, Eq)]
pub enum BookWhat {
    /// It is no name of 1 to 32 small letters, digits and underscores, or stands in a table.
    BadName,
    /// An earlier rule has it.
    Twice,
}

/// Why a list of rules makes no book, with all that was handed in.
#[derive(Drop)]
pub struct BookFault<H, R> {
    pub what: BookWhat,
    /// The first place, from 0, whose name is at fault.
    pub place: usize,
    pub base: H,
    pub hooks: Vec<R>,
}

impl<H: Hook, R: Kept> Book<H, R> {
    /// The book of these rules over a hook that knows no names. It takes no memory.
    ///
    /// Refused exactly where a name is at fault: then the first such place is told, and all is handed back.
    pub fn new(base: H, hooks: Vec<R>) -> Result<Book<H, R>, BookFault<H, R>>
        requires nameless { (H.hook base).names ≡ [] }
        requires whole { All (λ rule. KeepsWhole (R.does rule)) hooks.items }
        requires ready { All R.may hooks.items }
        ensures fine { IfOk result (λ book. AreFine (map R.called hooks.items) (length hooks.items)) }
        ensures book { IfOk result (λ book. ⟦<Book<H, R> as Hook>⟧.hook book ≡ book_of (H.meaning base) R.called R.does hooks.items) }
        ensures callable { IfOk result (λ book. H.ready base → ⟦<Book<H, R> as Rule>⟧.ready book) }
        ensures fault { IfErr result (λ fault. IsFirstFault (map R.called hooks.items) fault.place fault.what) }
        ensures back { IfErr result (λ fault. (fault.base ≡ base) × (fault.hooks ≡ hooks)) }
    {
        match first_fault(&hooks) {
            Some((what, place)) => {
                Err(BookFault {
                    what,
                    place,
                    base,
                    hooks,
                })
            }
            None => Ok(Book { base, hooks }),
        }
    }
}

/// The first of these rules whose name is at fault: what is wrong with it, and its place.
fn first_fault<R: Kept>(hooks: &[R]) -> Option<(BookWhat, usize)>
    ensures { FindsFault (map R.called hooks.now) result }
{
    for (place, hook) in hooks.iter().enumerate() {
        if let Some(what) = fault_of(&hooks[..place], hook.name()) {
            return Some((what, place));
        }
    }
    None
}

/// What is wrong with a name behind these rules.
fn fault_of<R: Kept>(before: &[R], name: &str) -> Option<BookWhat>
    ensures { IsFaultOf (map R.called before.now) name.now result }
{
    if !is_free_name(name) {
        return Some(BookWhat::BadName);
    }
    match place_among(before, name) {
        Some(_) => Some(BookWhat::Twice),
        None => None,
    }
}

/// The place of the first of these rules that has this name.
fn place_among<R: Kept>(hooks: &[R], name: &str) -> Option<usize>
    ensures { IsPlaceOf (map R.called hooks.now) name.now result }
{
    for (place, hook) in hooks.iter().enumerate() {
        if hook.name() == name {
            return Some(place);
        }
    }
    None
}

impl<H: Hook, R: Kept> Rule for Book<H, R> {
    ghost meaning = { λ b. H.meaning b.base };

    ghost ready = { λ b. IsReady (H.ready b.base) R.may R.called R.does b.hooks.items };

    ghost whole = { λ b ready. H.whole b.base ready.begun };

    fn merged(&self, x: Value, y: Value) -> Value {
        self.base.merged(x, y)
    }

    fn share(&self, value: Value, pieces: u32, piece: u32) -> Option<Value> {
        self.base.share(value, pieces, piece)
    }
}

impl<H: Hook, R: Kept> Hook for Book<H, R> {
    ghost hook = { λ b. book_of (H.meaning b.base) R.called R.does b.hooks.items };

    ghost host = { λ b. refl };

    ghost lawful = { λ b ready. book-lawful (H.meaning b.base) (H.whole b.base ready.begun) R.called R.does b.hooks.items ready.free ready.whole };

    fn knows(&self, name: &str) -> bool {
        place_among(&self.hooks, name).is_some()
    }

    fn merged_by(&self, name: RuleName, x: Value, y: Value) -> Value {
        match place_among(&self.hooks, name.as_str()) {
            Some(place) => self.hooks[place].merged(x, y),
            None => x,
        }
    }

    fn share_by(&self, name: RuleName, value: Value, pieces: u32, piece: u32) -> Option<Value> {
        match place_among(&self.hooks, name.as_str()) {
            Some(place) => self.hooks[place].share(value, pieces, piece),
            None => Some(value),
        }
    }
}
