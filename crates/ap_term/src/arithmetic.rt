//! Arithmetic on the integers among the values.
ghost use Rattle.std.specs.Prelude.{◌≡◌, option_and_then};
ghost use Rattle.ap_term.specs.Arithmetic.{result_of, is_integer, compute, within};

// The greatest integer that there is. The least is its negative.
const MAX_INTEGER: i64 = 2_147_483_647;

/// An operation on integers. Unary minus is `Sub` from 0.
#[derive(Clone, Copy, Debug, PartialEq, Eq)]
pub enum ArithOp {
    Add,
    Sub,
    Mul,
    /// The quotient, rounded toward 0.
    Div,
    /// What is left of the dividend after that division.
    Rem,
}

/// What the operation gives. `None` where an operand or the result is not in -2147483647 to 2147483647, and where the
/// divisor is 0.
pub fn arith(op: ArithOp, a: i64, b: i64) -> Option<i64>
    ensures { result ≡ compute op a b }
{
    if is_integer(a) && is_integer(b) {
        result_of(op, a, b)
    } else {
        None
    }
}

// What the operation gives on operands of any size.
#[tactic(auto, using(crate::proofs::ArithmeticLemmas::within_exact, crate::proofs::ArithmeticLemmas::remainder))]
fn result_of(op: ArithOp, a: i64, b: i64) -> Option<i64>
    ensures { result ≡ result_of op a b }
{
    match op {
        ArithOp::Add => in_range(a.checked_add(b)),
        ArithOp::Sub => in_range(a.checked_sub(b)),
        ArithOp::Mul => in_range(a.checked_mul(b)),
        ArithOp::Div => in_range(a.checked_div(b)),
        ArithOp::Rem if b == 0 => None,
        ArithOp::Rem => in_range(Some(a.wrapping_rem(b))),
    }
}

fn is_integer(number: i64) -> bool
    ensures { result ≡ is_integer number }
{
    -MAX_INTEGER <= number && number <= MAX_INTEGER
}

// The number, if there is one and it is in range.
fn in_range(number: Option<i64>) -> Option<i64>
    ensures { result ≡ option_and_then within number }
{
    number.filter(|n| -MAX_INTEGER <= *n && *n <= MAX_INTEGER)
}
