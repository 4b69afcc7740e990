// Masks: some of the last bits of a word, all set.
ghost use Rattle.integral.specs.Point.{Mask};

#[derive(Clone, Copy)]
pub struct Mask {
    pub bits: u64,
    ghost last: { ∥ Mask bits ∥₁ },
}

impl Mask {
    ghost use Rattle.std.specs.Prelude.{◌≡◌, suc, ◌*◌, ◌/◌, ◌%◌};

    // The bits of v under the mask.
    pub fn under(self, v: u64) -> u64
        ensures { result ≡ v % suc self.bits }
    {
        v & self.bits
    }

    // v without them.
    pub fn clear(self, v: u64) -> u64
        ensures { result ≡ v / suc self.bits * suc self.bits }
    {
        v - self.under(v)
    }
}
