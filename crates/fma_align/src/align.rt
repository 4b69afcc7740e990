// How far one exponent is from another, and what is aligned to one.
ghost use Rattle.std.specs.Prelude.{◌≡◌, ◌<◌, ◌^◌, ◌-ℤ◌};
ghost use Rattle.std.specs.Int.Signed.{mag};
ghost use Rattle.fmt_exponents.specs.Field.{above};

// How far one exponent is below another, and how far above. One of the two is 0.
#[derive(Clone, Copy)]
pub struct Sides {
    pub below: u32,
    pub above: u32,
}

// A product and a third number at one exponent, and how many bits the product was shifted right for it.
#[derive(Clone, Copy)]
pub struct Aligned<S> {
    pub product: S,
    pub third: S,
    pub down: u32,
}

// How far a is below b, and how far above.
pub fn sides_of(a: i32, b: i32) -> Sides
    requires { (mag a < 2 ^ 19) × (mag b < 2 ^ 19) }
    ensures { (result.below ≡ above (b -ℤ a)) × (result.above ≡ above (a -ℤ b)) }
{
    let top = a.max(b);
    Sides {
        below: (top - a) as u32,
        above: (top - b) as u32,
    }
}
