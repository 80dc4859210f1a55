// Arithmetic.
ghost use Rattle.std.specs.Prelude.{◌≡◌};
ghost use Rattle.code.specs.Means.{op_number};
ghost use Rattle.language.specs.Meaning.{worked as meant};

use model_text::tree::Operator;

// Modulo 2^64; by 0 it is 0.
pub fn worked(op: Operator, x: u64, y: u64) -> u64
    ensures { result ≡ meant (op_number op) x y }
{
    match op {
        Operator::Add => x.wrapping_add(y),
        Operator::Sub => x.wrapping_sub(y),
        Operator::Mul => x.wrapping_mul(y),
        Operator::Div => x.checked_div(y).unwrap_or(0),
        Operator::Rem => x.checked_rem(y).unwrap_or(0),
        Operator::Equal => u64::from(x == y),
        Operator::Less => u64::from(x < y),
    }
}
