// A float from 2^-50 to 1 in decimal: 17 significant digits of its own value, correctly rounded, which read back as that float.
//
// They are made from the float's bits, which are its exact value, by whole numbers alone.
#![tactic(auto)]

ghost use Rattle.std.specs.Prelude.{◌≡◌, length};
ghost use Prim.Native.Nat.{◌+◌, ◌*◌, ◌<◌, ◌≤◌, compare};
ghost use Rattle.std.specs.Float.Ieee.{nearest, Positive.num, Positive.den};
ghost use Rattle.text.specs.Placed.{Put};
ghost use Rattle.decimals.specs.Decimals.{enough, InUnit, decimals_of, Within, Shown, pointed, float_text, longest_text};
ghost use Rattle.decimals.specs.Private.{limb, unit, Split, joined, goes_on};

// The digits as one whole number, and how many of them stand after the point.
#[derive(Clone, Copy)]
pub struct Decimals {
    pub digits: u64,
    pub places: u64,
}

// A fraction in two limbs of 52 bits: its units are 2^-104.
#[derive(Clone, Copy)]
struct Limbs {
    high: u64,
    low: u64,
}

// The fraction of an f64 has 52 bits, and a leading one that is not written.
const FRACTION: u64 = 52;

const LIMB: u64 = 1 << FRACTION;

const HALF: u64 = 1 << (FRACTION - 1);

// The exponent's field of 1.
const ONE: u64 = 1023;

// The least number of 17 digits.
const ENOUGH: u64 = 10000000000000000;

// 17 digits of 10^-15 end at this place after the point.
const MOST_PLACES: u64 = 31;

// The limbs of a float: its bits are its significand and how far that is shifted down from 1.
fn split(x: f64) -> Limbs
    requires { InUnit x }
    ensures { Split x result }
{
    let bits = f64::to_bits(x);
    let significand = bits % LIMB + LIMB;
    let shift = ONE - bits / LIMB;
    Limbs {
        high: significand >> shift,
        low: (significand << (FRACTION - shift)) % LIMB,
    }
}

// Whether another digit is needed and there is a place for it.
fn goes_on(digits: u64, places: u64) -> bool
    ensures { result ≡ goes_on digits places }
{
    digits < ENOUGH && places < MOST_PLACES
}

// The nearest whole number of digits, by the fraction that is left; at a tie the even one.
fn rounded(digits: u64, high: u64, low: u64) -> u64
    requires { (digits < enough * 10) × (high < limb) × (low < limb) }
    ensures { result ≡ nearest digits (compare ((high * limb + low) * 2) unit) }
{
    if high < HALF {
        return digits;
    }
    if HALF < high {
        return digits + 1;
    }
    if 0 < low {
        return digits + 1;
    }
    digits + digits % 2
}

// The decimals of a fraction: ten times what is left gives the next digit.
fn spelt(l: Limbs) -> Decimals
    requires { (l.high ≤ limb) × (l.low < limb) }
    ensures value { result ≡ decimals_of (joined l) unit }
    ensures within { Within result }
{
    let mut digits = l.high / LIMB;
    let mut high = l.high % LIMB;
    let mut low = l.low;
    let mut places: u64 = 0;
    while goes_on(digits, places) {
        let down = low * 10;
        let up = high * 10 + down / LIMB;
        digits = digits * 10 + up / LIMB;
        high = up % LIMB;
        low = down % LIMB;
        places += 1;
    }
    Decimals {
        digits: rounded(digits, high, low),
        places,
    }
}

// The decimals of a float.
fn decimals_of(x: f64) -> Decimals
    requires { InUnit x }
    ensures value { result ≡ decimals_of (num x) (den x) }
    ensures within { Within result }
{
    spelt(split(x))
}

// Digits in decimal, the last so many of them after a point.
fn put_pointed(out: &mut [u8], at: usize, places: u64, digits: u64) -> usize
    requires { at + length (pointed places digits) ≤ length out.old }
    ensures { Put out.old at (pointed places digits) out.new result }
{
    if places == 0 {
        return text_fields::put_field(out, at, digits, b'.');
    }
    let here = put_pointed(out, at, places - 1, digits / 10);
    text::put_byte(out, here, b'0' + (digits % 10) as u8)
}

// A float's text: 0, or its decimals.
pub fn put_float(out: &mut [u8], at: usize, x: f64) -> usize
    requires { Shown x × (at + longest_text ≤ length out.old) }
    ensures put { Put out.old at (float_text x) out.new result }
    ensures upper_bound { result ≤ at + longest_text }
{
    if f64::to_bits(x) == 0 {
        return text::put_number(out, at, 0);
    }
    let d = decimals_of(x);
    put_pointed(out, at, d.places, d.digits)
}
