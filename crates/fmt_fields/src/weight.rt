// The weight of a flag.
ghost use Rattle.std.specs.Prelude.{◌≡◌, if◌then◌else◌};

// A weight where it is set, else nothing.
pub fn weigh(set: bool, weight: u32) -> u32
    ensures { result ≡ (if set then weight else 0) }
{
    if set { weight } else { 0 }
}
