// Significands to reduce.
ghost use Rattle.std.specs.Prelude.{◌<◌, ◌^◌};

// sig times 2^shift modulo by.
#[derive(Clone, Copy)]
pub struct Division {
    pub sig: u64,
    pub shift: u32,
    pub by: u64,
    ghost some: { 0 < by },
    ghost near: { shift < 2 ^ 18 },
}

impl Division {
    ghost use Rattle.std.specs.Prelude.{◌≡◌, cond, ◌*◌, ◌%◌, ◌<◌, ◌^◌, leb};

    // sig itself where it is below twice by, as the routes require, otherwise sig modulo by. Only a subnormal divisor needs that.
    pub fn below_twice(self) -> u64
        requires { self.by < 2 ^ 62 }
        ensures { result ≡ cond (leb (2 * self.by) self.sig) (self.sig % self.by) self.sig }
    {
        if self.sig >= 2 * self.by {
            return self.sig % self.by;
        }
        self.sig
    }
}
