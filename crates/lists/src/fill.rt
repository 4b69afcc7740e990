// The list call at its places.
ghost use Rattle.std.specs.Prelude.{◌≡◌, map, length, slice_index, EachIndex};
ghost use Rattle.ieee.specs.Format.{b64};
ghost use Rattle.ieee.specs.Lists.{operation};

use crate::operation::Operation;
use integral::floor::floor;
use integral::trunc::trunc;
use sqrt::sqrt::sqrt;

// Fills each place of ys by f, from the same place of xs. By an index, since after an adapter of `iter_mut` a proof knows no element.
fn fill<F: Fn(u64) -> u64>(f: F, xs: &[u64], ys: &mut [u64])
    requires callable { F.IsAlwaysCallable f }
    requires alike { length xs.now ≡ length ys.old }
    ensures { EachIndex ys.new (λ k. F.post f (slice_index xs.now k) (slice_index ys.new k)) }
{
    for (i, x) in xs.iter().enumerate() {
        ys[i] = f(*x);
    }
}

// The same by the number of an operation, which is chosen once for the whole loop. Any other number leaves a pattern as it is: the contract is by `operation`, which
// has an answer for every number.
pub fn fill64(op: u32, xs: &[u64], ys: &mut [u64])
    requires { length xs.now ≡ length ys.old }
    ensures { ys.new ≡ map (operation b64 op) xs.now }
{
    match Operation::try_from(op) {
        Ok(Operation::Sqrt) => fill(sqrt::<u64>, xs, ys),
        Ok(Operation::Floor) => fill(floor::<u64>, xs, ys),
        Ok(Operation::Trunc) => fill(trunc::<u64>, xs, ys),
        Err(_) => ys.copy_from_slice(xs),
    }
}
