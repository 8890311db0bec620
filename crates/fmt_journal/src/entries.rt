ghost use Rattle.std.specs.Prelude.{◌≡◌, ◌+◌, ◌*◌, ◌<◌, ◌≤◌, None, length};
ghost use Rattle.sfs_image.specs.Journal.{numbers_fault as fault_of_numbers, is_next as comes_next, number_byte, record_byte};

/// A place in a slot: the block, counted from the slot's begin, and the byte in that block.
#[derive(Clone, Copy, Debug, PartialEq, Eq)]
pub struct SlotPlace {
    pub block: u32,
    pub byte: u32,
}

/// Where the number of an entry stands: 4 bytes, 1,024 numbers in a block, from block 1 on.
pub fn number_place(entry: u32) -> SlotPlace
    ensures place { 4096 * result.block + result.byte ≡ number_byte entry }
    ensures within { result.byte + 4 ≤ 4096 }
{
    SlotPlace {
        block: 1 + entry / 1024,
        byte: entry % 1024 * 4,
    }
}

/// Where the record of an entry stands: 512 bytes, 8 records in a block, behind the blocks of
/// numbers.
pub fn record_place(inodes: u32, entry: u32) -> SlotPlace
    requires inodes { inodes ≤ 16384 }
    ensures place { 4096 * result.block + result.byte ≡ record_byte inodes entry }
    ensures within { result.byte + 512 ≤ 4096 }
{
    SlotPlace {
        block: 1 + inodes.div_ceil(1024) + entry / 8,
        byte: entry % 8 * 512,
    }
}

/// The byte, counted from the slot's begin, of the first number that is not below the number of
/// inodes or not above the number before it.
pub fn numbers_fault(numbers: &[u32], inodes: u32) -> Option<u32>
    requires { length numbers.now ≤ 16384 }
    ensures { result ≡ fault_of_numbers inodes numbers.now }
{
    for k in 0..numbers.len() {
        if !is_next(numbers, k, inodes) {
            return Some(4096 + 4 * k as u32);
        }
    }
    None
}

// Whether a number is below the number of inodes and above the one before it.
fn is_next(numbers: &[u32], k: usize, inodes: u32) -> bool
    requires { k < length numbers.now }
    ensures { result ≡ comes_next inodes numbers.now k }
{
    numbers[k] < inodes && (k == 0 || numbers[k - 1] < numbers[k])
}
