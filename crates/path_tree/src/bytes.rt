ghost use Rattle.std.specs.Prelude.{◌≡◌, ◌<◌, IfSome, length};
ghost use Rattle.path_tree.specs.Paths.{first_of};

/// The position of the first byte that is one of the two.
pub fn first_of(a: u8, b: u8, text: &[u8]) -> Option<usize>
    ensures value { result ≡ first_of a b text.now }
    ensures within { IfSome result (λ i. i < length text.now) }
{
    for (i, byte) in text.iter().enumerate() {
        if *byte == a || *byte == b {
            return Some(i);
        }
    }
    None
}
