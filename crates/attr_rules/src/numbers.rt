ghost use Rattle.std.specs.Prelude.{◌≡◌, ◌<◌};
ghost use Rattle.std.specs.Int.{int_min, int_max};
ghost use Rattle.map_defs.specs.Values.{on_each, held_sum, middle, dealt, dealt_value};

use map_kind::Value;

/// The sums of the numbers of two values, held within `i64`.
pub(crate) fn sum(x: Value, y: Value) -> Value
    ensures { result ≡ on_each held_sum x y }
{
    Value {
        a: x.a.saturating_add(y.a),
        b: x.b.saturating_add(y.b),
        c: x.c.saturating_add(y.c),
    }
}

/// The lesser of each number of two values.
pub(crate) fn least(x: Value, y: Value) -> Value
    ensures { result ≡ on_each int_min x y }
{
    Value {
        a: lesser(x.a, y.a),
        b: lesser(x.b, y.b),
        c: lesser(x.c, y.c),
    }
}

/// The greater of each number of two values.
pub(crate) fn greatest(x: Value, y: Value) -> Value
    ensures { result ≡ on_each int_max x y }
{
    Value {
        a: greater(x.a, y.a),
        b: greater(x.b, y.b),
        c: greater(x.c, y.c),
    }
}

/// The floor of half of the sum of each number of two values.
pub(crate) fn mid(x: Value, y: Value) -> Value
    ensures { result ≡ on_each middle x y }
{
    Value {
        a: middle(x.a, y.a),
        b: middle(x.b, y.b),
        c: middle(x.c, y.c),
    }
}

/// What piece `piece` of `pieces` gets where each number of a value is dealt out.
pub(crate) fn dealt_value(value: Value, pieces: u32, piece: u32) -> Value
    requires { piece < pieces }
    ensures { result ≡ dealt_value pieces piece value }
{
    Value {
        a: dealt(value.a, pieces, piece),
        b: dealt(value.b, pieces, piece),
        c: dealt(value.c, pieces, piece),
    }
}

/// The lesser of two numbers.
fn lesser(x: i64, y: i64) -> i64
    ensures { result ≡ int_min x y }
{
    x.min(y)
}

/// The greater of two numbers.
fn greater(x: i64, y: i64) -> i64
    ensures { result ≡ int_max x y }
{
    x.max(y)
}

/// The floor of half of the sum.
fn middle(x: i64, y: i64) -> i64
    ensures { result ≡ middle x y }
{
    (i128::from(x) + i128::from(y)).div_euclid(2) as i64
}

/// What piece `piece` of `pieces` gets where a number is dealt out: each gets the quotient, and the first ones, as many as
/// the rest says, one more.
pub fn dealt(number: i64, pieces: u32, piece: u32) -> i64
    requires { piece < pieces }
    ensures { result ≡ dealt pieces piece number }
{
    let least = number.div_euclid(i64::from(pieces));
    let rest = number.rem_euclid(i64::from(pieces));
    if i64::from(piece) < rest {
        least + 1
    } else {
        least
    }
}
