ghost use Rattle.std.specs.Prelude.{◌≡◌, ◌≤◌, IfSome};
ghost use Rattle.call_values.specs.Positions.{position_in};

/// A number as a position from 0 to a length, both included. `None` exactly where it is none.
pub fn position_in(length: usize, position: i64) -> Option<usize>
    ensures value { result ≡ position_in length position }
    ensures within { IfSome result (λ i. i ≤ length) }
{
    if 0 <= position && position as u64 <= length as u64 {
        Some(position as usize)
    } else {
        None
    }
}
