ghost use Rattle.std.specs.Prelude.{◌<◌};

use attr_rules::{
    Hooked, Merge, OrCopy, Rule, RuleName, RuleWith, Split, TableRule, is_free_name, merge_listed,
    merge_named, split_listed, split_named,
};
use map_kind::Value;
use std::test::Fail;

fn value(a: i64, b: i64, c: i64) -> Value {
    Value { a, b, c }
}

fn merged(merge: Merge, x: Value, y: Value) -> Value {
    let rule = TableRule {
        merge,
        split: Split::Copied,
    };
    let hook = Hooked::<OrCopy, _, _>::new(
        |x: Value, y: Value| {
            Value {
                a: x.a | y.a,
                b: x.b | y.b,
                c: x.c | y.c,
            }
        },
        |value: Value, _pieces: u32, _piece: u32| Some(value),
    );
    RuleWith { rule, hook: &hook }.merged(x, y)
}

fn share(split: Split, v: Value, pieces: u32, piece: u32) -> Option<Value>
    requires { piece < pieces }
{
    let rule = TableRule {
        merge: Merge::First,
        split,
    };
    let hook = Hooked::<OrCopy, _, _>::new(
        |x: Value, y: Value| {
            Value {
                a: x.a | y.a,
                b: x.b | y.b,
                c: x.c | y.c,
            }
        },
        |value: Value, _pieces: u32, _piece: u32| Some(value),
    );
    RuleWith { rule, hook: &hook }.share(v, pieces, piece)
}

#[test]
fn merges_each_number(rt: HostRuntime) -> Result<(), Fail> {
    let x = value(-3, i64::MAX, i64::MIN);
    let y = value(0, 1, -1);
    assert_eq!(&rt; merged(Merge::First, x, y), x);
    assert_eq!(&rt; merged(Merge::Last, x, y), y);
    assert_eq!(&rt; merged(Merge::Sum, x, y), x);
    assert_eq!(&rt; merged(Merge::Min, x, y), value(-3, 1, i64::MIN));
    assert_eq!(&rt; merged(Merge::Max, x, y), value(0, i64::MAX, -1));
    assert_eq!(&rt;
        merged(Merge::Mid, x, y),
        value(-2, 1 << 62, -(1 << 62) - 1)
    );
    Ok(())
}

#[test]
fn shares_among_pieces(rt: HostRuntime) -> Result<(), Fail> {
    let v = value(-7, 7, 2);
    assert_eq!(&rt; share(Split::Share, v, 3, 0), Some(value(-2, 3, 1)));
    assert_eq!(&rt; share(Split::Share, v, 3, 1), Some(value(-2, 2, 1)));
    assert_eq!(&rt; share(Split::Share, v, 3, 2), Some(value(-3, 2, 0)));
    assert_eq!(&rt; share(Split::Keep, v, 3, 0), Some(v));
    assert_eq!(&rt; share(Split::Keep, v, 3, 2), None);
    assert_eq!(&rt; share(Split::Copied, v, 3, 2), Some(v));
    Ok(())
}

#[test]
fn knows_the_names_of_the_table(rt: HostRuntime) -> Result<(), Fail> {
    assert_eq!(&rt; merge_named("median"), None);
    assert_eq!(&rt; merge_named("host"), Some(Merge::Host));
    assert_eq!(&rt; merge_named("mid"), Some(Merge::Mid));
    assert_eq!(&rt; split_named("copied"), None);
    assert_eq!(&rt; split_named("copy"), Some(Split::Copied));
    assert_eq!(&rt; (Merge::Mid.name(), Split::Copied.name()), ("mid", "copy"));
    Ok(())
}

#[test]
fn asks_the_closures_that_are_stored(rt: HostRuntime) -> Result<(), Fail> {
    let (x, y) = (value(5, -8, 1), value(6, 3, 1));
    assert_eq!(&rt; merged(Merge::Host, x, y), value(7, -5, 1));
    assert_eq!(&rt; share(Split::Host, x, 3, 2), Some(x));
    Ok(())
}

#[test]
fn names_rules(rt: HostRuntime) -> Result<(), Fail> {
    let name = RuleName::new("x_or2").unwrap();
    assert_eq!(&rt; name.as_str(), "x_or2");
    assert_eq!(&rt; RuleName::new(""), None);
    assert_eq!(&rt; RuleName::new("Xor"), None);
    let longest = "a_name_of_32_bytes_with_digits_9";
    assert_eq!(&rt; RuleName::new(longest).unwrap().as_str(), longest);
    assert_eq!(&rt; RuleName::new("a_name_of_33_bytes_with_digits_99"), None);
    assert_eq!(&rt; merge_listed("x_or2"), Some(Merge::Named(name)));
    assert_eq!(&rt; split_listed("x_or2"), Some(Split::Named(name)));
    assert_eq!(&rt; merge_listed("copy").unwrap().name(), "copy");
    assert_eq!(&rt; split_listed("host"), Some(Split::Host));
    assert_eq!(&rt;
        (
            is_free_name("x_or2"),
            is_free_name("keep"),
            is_free_name("x-or")
        ),
        (true, false, false)
    );
    Ok(())
}

#[test]
fn a_name_that_no_hook_knows_is_first_and_copy(rt: HostRuntime) -> Result<(), Fail> {
    let name = RuleName::new("xor").unwrap();
    let (x, y) = (value(5, -8, 1), value(6, 3, 1));
    assert_eq!(&rt; merged(Merge::Named(name), x, y), x);
    assert_eq!(&rt; share(Split::Named(name), x, 2, 1), Some(x));
    Ok(())
}
