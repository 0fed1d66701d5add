ghost use Rattle.std.specs.Prelude.{◌<◌, codes, refl};
ghost use Rattle.hook_book.specs.Rules.{exclusive_or};

use attr_rules::{Hook, Hooked, OrCopy, Rule, RuleName};
use hook_book::{Book, BookFault, BookWhat, Kept, Named, Span, Xor};
use map_kind::Value;
use std::test::Fail;

/// A rule that has the name of a row of the table.
#[derive(Clone, Copy)]
struct Sum;

impl Rule for Sum {
    ghost meaning = { λ _. exclusive_or };

    ghost ready = { λ _. Unit };

    ghost whole = { λ _ _ v _. refl };

    fn merged(&self, x: Value, y: Value) -> Value {
        Xor.merged(x, y)
    }

    fn share(&self, value: Value, _pieces: u32, _piece: u32) -> Option<Value> {
        Some(value)
    }
}

impl Named for Sum {
    ghost called = { λ _. codes "sum" };

    fn name(&self) -> &str {
        "sum"
    }
}

fn value(a: i64, b: i64, c: i64) -> Value {
    Value { a, b, c }
}

/// The value of two numbers by the hook that was handed back.
fn handed_back<H: Hook, R: Kept>(fault: &BookFault<H, R>) -> Value
    requires { H.ready fault.now.base }
{
    fault.base.merged(value(5, 1, 0), value(6, 2, 0))
}

/// The value of two values by the rule of this name; none where the hook does not know it.
fn merged_by<H: Hook>(hook: &H, name: &str, x: Value, y: Value) -> Option<Value>
    requires { H.ready hook.now }
{
    let name = RuleName::new(name)?;
    if hook.knows(name.as_str()) {
        Some(hook.merged_by(name, x, y))
    } else {
        None
    }
}

/// What a piece of two pieces gets of a value by the rule of this name; none where the hook does not know it.
fn share_by<H: Hook>(hook: &H, name: &str, value: Value, piece: u32) -> Option<Value>
    requires ready { H.ready hook.now }
    requires piece { piece < 2 }
{
    let name = RuleName::new(name)?;
    if hook.knows(name.as_str()) {
        hook.share_by(name, value, 2, piece)
    } else {
        None
    }
}

#[test]
fn answers_by_names(rt: HostRuntime) -> Result<(), Fail> {
    let alloc = rt.alloc();
    let base = Hooked::<OrCopy, _, _>::new(
        |x: Value, y: Value| {
            Value {
                a: x.a | y.a,
                b: x.b | y.b,
                c: x.c | y.c,
            }
        },
        |value: Value, _pieces: u32, _piece: u32| Some(value),
    );
    let mut hooks: Vec<Box<dyn Named>> = Vec::new(alloc);
    hooks.push(Box::new(alloc, Xor)?)?;
    hooks.push(Box::new(alloc, Span)?)?;
    let Ok(book) = Book::new(base, hooks) else {
        return Err("no book".into());
    };
    let (x, y) = (value(5, -8, 1), value(6, 3, 9));
    assert_eq!(&rt; book.merged(x, y), value(7, -5, 9));
    assert_eq!(&rt;
        (book.knows("xor"), book.knows("span"), book.knows("sum")),
        (true, true, false)
    );
    assert_eq!(&rt; merged_by(&book, "xor", x, y), Some(value(3, -5, 8)));
    assert_eq!(&rt; merged_by(&book, "span", x, y), Some(value(5, 3, 10)));
    assert_eq!(&rt; merged_by(&book, "spam", x, y), None);
    assert_eq!(&rt; share_by(&book, "xor", x, 1), Some(x));
    assert_eq!(&rt;
        share_by(&book, "span", value(2, 9, 9), 0),
        Some(value(2, 9, 5))
    );
    assert_eq!(&rt;
        share_by(&book, "span", value(2, 9, 9), 1),
        Some(value(2, 9, 4))
    );
    Ok(())
}

#[test]
fn refuses_names(rt: HostRuntime) -> Result<(), Fail> {
    let alloc = rt.alloc();
    let mut hooks: Vec<Box<dyn Named>> = Vec::new(alloc);
    hooks.push(Box::new(alloc, Xor)?)?;
    hooks.push(Box::new(alloc, Xor)?)?;
    let Err(fault) = Book::new(OrCopy, hooks) else {
        return Err("a book".into());
    };
    assert_eq!(&rt; (fault.what, fault.place), (BookWhat::Twice, 1));
    assert_eq!(&rt; fault.hooks.len(), 2);
    assert_eq!(&rt; handed_back(&fault), value(7, 3, 0));
    let mut hooks: Vec<Box<dyn Named>> = Vec::new(alloc);
    hooks.push(Box::new(alloc, Sum)?)?;
    let Err(fault) = Book::new(fault.base, hooks) else {
        return Err("a book".into());
    };
    assert_eq!(&rt; (fault.what, fault.place), (BookWhat::BadName, 0));
    Ok(())
}
