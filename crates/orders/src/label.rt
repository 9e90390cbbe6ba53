ghost use Rattle.std.specs.Prelude.{◌≡◌};
ghost use Rattle.orders.specs.Values.{by_bytes};

use std::cmp::Ordering;

// Two labels as unsigned bytes: the first byte that differs decides.
pub fn compare_labels(x: &[u8; 12], y: &[u8; 12]) -> Ordering
    ensures { result ≡ by_bytes x.now y.now }
{
    x.cmp(y)
}
