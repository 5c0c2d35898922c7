// Values, and what an operator makes of two.
ghost use Rattle.std.specs.Prelude.{◌≡◌};
ghost use Rattle.expr.specs.Value.{fitted, applied, combined, written};

use crate::Value;

// Beside `write`, and no generic one for both: `fitted` of specs/Value.antt speaks of ℤ, `written` of ℕ, and a trait that says so of both types is longer than they are.
fn fit(v: i64) -> Value
    ensures { result ≡ fitted v }
{
    match i32::try_from(v) {
        Ok(fits) => Value::Is(fits),
        Err(_) => Value::Large,
    }
}

// Sums, differences and products of 32 signed bits fit in 64.
#[tactic(auto, unfolding(crate::specs::Value::applied))]
fn apply(c: u8, a: i32, b: i32) -> Value
    ensures { result ≡ applied c a b }
{
    let (x, y) = (a as i64, b as i64);
    match c {
        b'*' => fit(x * y),
        b'+' => fit(x + y),
        _ => fit(x - y),
    }
}

pub fn combine(c: u8, a: Value, b: Value) -> Value
    ensures { result ≡ combined c a b }
{
    match (a, b) {
        (Value::Unknown, _) | (_, Value::Unknown) => Value::Unknown,
        (Value::Large, _) | (_, Value::Large) => Value::Large,
        (Value::Is(x), Value::Is(y)) => apply(c, x, y),
    }
}

pub fn write(n: u64) -> Value
    ensures { result ≡ written n }
{
    match i32::try_from(n) {
        Ok(fits) => Value::Is(fits),
        Err(_) => Value::Large,
    }
}
