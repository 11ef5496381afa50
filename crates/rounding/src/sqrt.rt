// The square root of an f32 and of an f64, correctly rounded. The digits of the root are worked out
// one by one in a u64. One law, stated for both formats at once, says which bits they make.
ghost use Rattle.std.specs.Prelude.{◌≡◌, ◌+◌, ◌*◌, ◌/◌, ◌^◌, ◌≤◌, ◌<◌};
ghost use Rattle.std.specs.Float.Ieee.{of_bits};
ghost use Rattle.rounding.specs.Root.{sqrt_of, nearest_root};
ghost use Rattle.rounding.specs.Inner.{Rooted, Rootable, ScaledRoot};

use float::floating::Floating;

#[derive(Clone, Copy)]
struct Root {
    digits: u64,
    rest: u64,
}

#[derive(Clone, Copy)]
struct Scaled {
    digits: u64,
    places: u64,
}

// The whole part of the root of floor(w * 4^n / 2^64), and the remainder. Each turn takes the two
// highest binary digits that are left of w, and finds one digit of the root.
fn whole_root(w: u64, n: u64) -> Root
    requires { n ≤ 53 }
    ensures { Rooted w n result.digits result.rest }
{
    let mut word = w;
    let mut root: u64 = 0;
    let mut rest: u64 = 0;
    for _i in 0..n {
        let next = 4 * rest + word / 0x4000_0000_0000_0000;
        let trial = 4 * root + 1;
        word = word % 0x4000_0000_0000_0000 * 4;
        if trial <= next {
            rest = next - trial;
            root = 2 * root + 1;
        } else {
            rest = next;
            root = 2 * root;
        }
    }
    Root { digits: root, rest }
}

// The whole number nearest to the root of floor(w * 4^n / 2^64).
fn nearest_root(w: u64, n: u64) -> u64
    requires { n ≤ 53 }
    ensures { (result ≡ nearest_root (w * 4 ^ n / 2 ^ 64)) × (result ≤ 2 ^ n) }
{
    let Root { digits, rest } = whole_root(w, n);
    if digits < rest { digits + 1 } else { digits }
}

// The root of q * 2^j, rounded to its p leading binary digits, and how many digits that drops.
fn scaled_root(q: u64, j: u64, p: u64) -> Scaled
    requires { Rootable q j p }
    ensures { ScaledRoot q j p result.digits result.places }
{
    let zeros = q.leading_zeros() as u64;
    let length = j + 64 - zeros;
    let places = (length + 1) / 2 - p;
    let shift = if length % 2 == 0 { zeros } else { zeros - 1 };
    let digits = nearest_root(q << shift, p);
    Scaled { digits, places }
}

// The bits of the root of the value with the bits b, which is finite and above 0.
fn root_bits<F: Floating>(b: u64) -> u64
    requires positive { 0 < b }
    requires finite { b < F.INFINITY }
    ensures { (of_bits F.format result ≡ sqrt_of F.format (of_bits F.format b)) × (result ≤ F.INFINITY) }
{
    let field = b / F::HIDDEN;
    let digits = b % F::HIDDEN;
    let root = if field == 0 {
        scaled_root(digits, F::PLACES, F::DIGITS)
    } else {
        scaled_root(F::HIDDEN + digits, F::PLACES + (field - 1), F::DIGITS)
    };
    (root.places * F::HIDDEN + root.digits).min(F::INFINITY)
}

// Rust's `sqrt`, correctly rounded. -0 gives -0; a number below 0 and NaN give NaN.
pub fn sqrt<F: Floating>(x: F) -> F
    ensures { F.value result ≡ sqrt_of F.format (F.value x) }
{
    if F::ZERO < x {
        let b = F::widen(x.own_bits());
        if b < F::INFINITY {
            return F::from_own_bits(F::narrow(root_bits::<F>(b)));
        }
        return x;
    }
    if x == F::ZERO {
        return x;
    }
    F::NAN
}
