// The plain reduction, x times 2^e modulo y, a bit at a time, to which the fast one is proved equal.
#![tactic(auto)]

ghost use Rattle.std.specs.Prelude.{◌≡◌, ◌*◌, ◌%◌, ◌<◌, ◌^◌};

// x modulo y, for x below twice y: subtracts y once or not at all.
pub fn subtract_once(x: u64, y: u64) -> u64
    requires { x < 2 * y }
    ensures { result ≡ x % y }
{
    if x < y { x } else { x - y }
}

// The carried remainder is below twice y, so a doubling wraps for no y that leaves two bits free.
pub fn reduce_stepwise(x: u64, e: u32, y: u64) -> u64
    requires { (x < 2 * y) × (y < 2 ^ 62) }
    ensures { result ≡ x * 2 ^ e % y }
{
    let mut r = x;
    for _ in 0..e {
        r = subtract_once(r, y) * 2;
    }
    subtract_once(r, y)
}
