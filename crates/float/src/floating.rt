// f32 and f64 seen as one: what the code needs that Rust has at each of the two apart.
ghost use Rattle.std.specs.Prelude.{◌≡◌, ◌*◌, ◌%◌, ℕ, true, Float, refl};
ghost use Rattle.std.specs.Float.{Format, binary32, binary64, nan};
ghost use Rattle.std.specs.Float.Ieee.{eq, fits, hid, low, lt, of_bits, ones, prec, to_bits, top};
ghost use Rattle.std.specs.Ordering.{float_partial_cmp};
ghost use Rattle.float.specs.Literal.{literal};

// A binary format of IEEE 754, f32 or f64. The methods are total, as all that is public: where the
// language's own ask that there is no NaN, or that a number fits, these have an answer.
pub trait Floating: Copy + PartialOrd {
    // Where the bits are kept, u32 or u64.
    type Bits: Copy;

    const ZERO: Self;

    const ONE: Self;

    const NAN: Self;

    // The bits of -0 and of the infinity, and the lowest bit of the exponent's field.
    const SIGN: u64;

    const INFINITY: u64;

    const HIDDEN: u64;

    // How many binary digits a number has, and how many of the smallest positive number lie behind
    // the point.
    const DIGITS: u64;

    const PLACES: u64;

    ghost format: { Format };

    // A value and a bit pattern, as the specifications see them.
    ghost value: { Self → Float };

    ghost number: { Self.Bits → ℕ };

    ghost ZERO: { Self };

    ghost ONE: { Self };

    ghost NAN: { Self };

    ghost SIGN: { ℕ };

    ghost INFINITY: { ℕ };

    ghost HIDDEN: { ℕ };

    ghost DIGITS: { ℕ };

    ghost PLACES: { ℕ };

    // Rust's `to_bits`, with one pattern for every NaN.
    fn own_bits(self) -> Self::Bits
        ensures bits { number result ≡ to_bits format (value self) }
        ensures fits { fits format (value self) ≡ true };

    // Rust's `from_bits`, with one NaN for every pattern of one.
    fn from_own_bits(bits: Self::Bits) -> Self
        ensures { value result ≡ of_bits format (number bits) };

    fn widen(bits: Self::Bits) -> u64
        ensures { result ≡ number bits };

    // The low bits, as many as there is room for.
    fn narrow(bits: u64) -> Self::Bits
        ensures { number result ≡ bits % (2 * top format) };

    // Rust's `<` of the width itself: that of `PartialOrd` is compiled to jumps.
    fn is_below(self, other: Self) -> bool
        ensures { result ≡ lt (value self) (value other) };

    ghost zero_is: { value ZERO ≡ literal format 0 1 };

    ghost one_is: { value ONE ≡ literal format 1 1 };

    ghost nan_is: { value NAN ≡ nan };

    ghost sign_is: { SIGN ≡ top format };

    ghost infinity_is: { INFINITY ≡ ones format * hid format };

    ghost hidden_is: { HIDDEN ≡ hid format };

    ghost digits_is: { DIGITS ≡ prec format };

    ghost places_is: { PLACES ≡ low format };

    ghost equal: { (a b : Self) → Self.eq a b ≡ eq (value a) (value b) };

    ghost order: { (a b : Self) → Self.partial_cmp a b ≡ float_partial_cmp (value a) (value b) };

    ghost same_value: { (a b : Self) → value a ≡ value b → a ≡ b };

    ghost same_number: { (a b : Self.Bits) → number a ≡ number b → a ≡ b };
}

impl Floating for f32 {
    type Bits = u32;

    const ZERO: f32 = 0.0;

    const ONE: f32 = 1.0;

    const NAN: f32 = f32::NAN;

    const SIGN: u64 = 0x8000_0000;

    const INFINITY: u64 = 0x7f80_0000;

    const HIDDEN: u64 = 0x80_0000;

    const DIGITS: u64 = 24;

    const PLACES: u64 = 149;

    ghost format = { binary32 };

    ghost value = { λ x. x };

    ghost number = { λ n. n };

    ghost ZERO = { literal binary32 0 1 };

    ghost ONE = { literal binary32 1 1 };

    ghost NAN = { nan };

    ghost SIGN = { 0x8000_0000 };

    ghost INFINITY = { 0x7f80_0000 };

    ghost HIDDEN = { 0x80_0000 };

    ghost DIGITS = { 24 };

    ghost PLACES = { 149 };

    fn own_bits(self) -> u32 {
        if self != self {
            return 0x7fc0_0000;
        }
        f32::to_bits(self)
    }

    fn from_own_bits(bits: u32) -> f32 {
        if 0x7f80_0000 < bits % 0x8000_0000 {
            return f32::NAN;
        }
        f32::from_bits(bits)
    }

    fn widen(bits: u32) -> u64 {
        bits as u64
    }

    fn narrow(bits: u64) -> u32 {
        (bits % 0x1_0000_0000) as u32
    }

    fn is_below(self, other: f32) -> bool {
        self < other
    }

    ghost zero_is = { refl };

    ghost one_is = { refl };

    ghost nan_is = { refl };

    ghost sign_is = { refl };

    ghost infinity_is = { refl };

    ghost hidden_is = { refl };

    ghost digits_is = { refl };

    ghost places_is = { refl };

    ghost equal = { λ a b. refl };

    ghost order = { λ a b. refl };

    ghost same_value = { λ a b h. h };

    ghost same_number = { λ a b h. h };
}

impl Floating for f64 {
    type Bits = u64;

    const ZERO: f64 = 0.0;

    const ONE: f64 = 1.0;

    const NAN: f64 = f64::NAN;

    const SIGN: u64 = 0x8000_0000_0000_0000;

    const INFINITY: u64 = 0x7ff0_0000_0000_0000;

    const HIDDEN: u64 = 0x10_0000_0000_0000;

    const DIGITS: u64 = 53;

    const PLACES: u64 = 1074;

    ghost format = { binary64 };

    ghost value = { λ x. x };

    ghost number = { λ n. n };

    ghost ZERO = { literal binary64 0 1 };

    ghost ONE = { literal binary64 1 1 };

    ghost NAN = { nan };

    ghost SIGN = { 0x8000_0000_0000_0000 };

    ghost INFINITY = { 0x7ff0_0000_0000_0000 };

    ghost HIDDEN = { 0x10_0000_0000_0000 };

    ghost DIGITS = { 53 };

    ghost PLACES = { 1074 };

    fn own_bits(self) -> u64 {
        if self != self {
            return 0x7ff8_0000_0000_0000;
        }
        f64::to_bits(self)
    }

    fn from_own_bits(bits: u64) -> f64 {
        if 0x7ff0_0000_0000_0000 < bits % 0x8000_0000_0000_0000 {
            return f64::NAN;
        }
        f64::from_bits(bits)
    }

    fn widen(bits: u64) -> u64 {
        bits
    }

    fn narrow(bits: u64) -> u64 {
        bits
    }

    fn is_below(self, other: f64) -> bool {
        self < other
    }

    ghost zero_is = { refl };

    ghost one_is = { refl };

    ghost nan_is = { refl };

    ghost sign_is = { refl };

    ghost infinity_is = { refl };

    ghost hidden_is = { refl };

    ghost digits_is = { refl };

    ghost places_is = { refl };

    ghost equal = { λ a b. refl };

    ghost order = { λ a b. refl };

    ghost same_value = { λ a b h. h };

    ghost same_number = { λ a b h. h };
}
