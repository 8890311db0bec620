ghost use Rattle.std.specs.Prelude.{◌≡◌, ◌+◌, ◌-◌, ◌^◌, ◌<◌, ◌≤◌, length, IfSome};
ghost use Rattle.std.specs.List.{position};
ghost use Rattle.sfs_image.specs.Bytes.{nonzero_in, is_nonzero, zeros};

/// The place of the first byte that is not zero, from a place on and before an end.
pub fn first_nonzero(bytes: &[u8], from: usize, end: usize) -> Option<u32>
    requires order { from ≤ end }
    requires within { end ≤ length bytes.now }
    requires small { length bytes.now < 2 ^ 32 }
    ensures { result ≡ nonzero_in from (end - from) bytes.now }
{
    match first_place(&bytes[from..end]) {
        Some(place) => Some((from + place) as u32),
        None => None,
    }
}

// The place of the first byte that is not zero.
fn first_place(bytes: &[u8]) -> Option<usize>
    ensures place { result ≡ position is_nonzero bytes.now }
    ensures within { IfSome result (λ place. place < length bytes.now) }
{
    bytes.iter().position(|byte| *byte != 0)
}

/// Fills bytes with zeros.
#[tactic(auto, unfolding(crate::specs::Bytes::zeros))]
pub fn clear(bytes: &mut [u8])
    ensures { bytes.new ≡ zeros (length bytes.old) }
{
    bytes.fill(0);
}
