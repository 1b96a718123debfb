// Where a part of a byte string stands, as two numbers: what was found once is handed on by its bounds, and not looked
// for again.
#![tactic(auto)]

ghost use Rattle.std.specs.Prelude.{◌≡◌, ◌-◌, ◌≤◌, length};
ghost use Rattle.byte_bounds.specs.Bounds.{bytes_in, FitIn, inside};

// From start on, and before end.
#[derive(Clone, Copy)]
pub struct Bounds {
    pub start: usize,
    pub end: usize,
}

// The bytes within bounds.
pub fn part<'a>(bytes: &'a [u8], bounds: Bounds) -> &'a [u8]
    requires { FitIn (length bytes.now) bounds }
    ensures { result.now ≡ bytes_in bytes.now bounds }
{
    &bytes[bounds.start..bounds.end]
}

// The bounds in the whole of what has the bounds inner in its part outer.
pub fn inside(outer: Bounds, inner: Bounds) -> Bounds
    requires { (outer.start ≤ outer.end) × FitIn (outer.end - outer.start) inner }
    ensures { result ≡ inside outer inner }
{
    Bounds {
        start: outer.start + inner.start,
        end: outer.start + inner.end,
    }
}
