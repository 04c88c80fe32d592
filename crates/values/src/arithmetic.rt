// Signed arithmetic of 32 bits.
ghost use Rattle.std.specs.Prelude.{◌≡◌};
ghost use Rattle.values.specs.Arithmetic.{operated};

use tokens::Operator;

// What an operator gives.
pub fn operate(operator: Operator, a: i32, b: i32) -> Option<i32>
    ensures { result ≡ operated operator a b }
{
    match operator {
        Operator::Add => a.checked_add(b),
        Operator::Subtract => a.checked_sub(b),
        Operator::Multiply => a.checked_mul(b),
        Operator::Divide => a.checked_div(b),
        Operator::Less => Some(i32::from(a < b)),
        Operator::Equal => Some(i32::from(a == b)),
    }
}
