// The order of byte strings (document 02, N1).
#![tactic(auto)]

ghost use Rattle.std.specs.Prelude.{◌≡◌};
ghost use Rattle.byte_orders.specs.Orders.{is_before};

// Whether one byte string stands before another in ascending byte sequence.
pub fn is_before(left: &[u8], right: &[u8]) -> bool
    ensures { result ≡ is_before left.now right.now }
{
    left.cmp(right).is_lt()
}
