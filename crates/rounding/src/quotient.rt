// A quotient of whole numbers, rounded to a whole number.
ghost use Rattle.std.specs.Prelude.{◌≡◌};
ghost use Rattle.rounding.specs.Quotient.{quotient_of};

// The whole number nearest to a / b, a tie going to the even one; 0 if b is 0.
pub fn nearest_quotient(a: u64, b: u64) -> u64
    ensures { result ≡ quotient_of a b }
{
    if b == 0 {
        return 0;
    }
    let whole = a / b;
    let rest = a % b;
    let gap = b - rest;
    if rest < gap {
        return whole;
    }
    if gap < rest {
        return whole + 1;
    }
    whole + whole % 2
}
