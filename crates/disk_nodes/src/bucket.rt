// Which blocks of a directory have names of one bucket.
ghost use Rattle.std.specs.Prelude.{◌≡◌, ◌≢◌, ◌⊎◌, ◌<◌, ◌+◌, ◌-◌, ◌^◌, ℕ, true, false, replicate, slice_index_or};
ghost use Rattle.disk_nodes.specs.Names.{tells, is_noted};

// How many blocks a bucket notes.
pub(crate) const NOTES: usize = 16;

// The blocks that have names of this bucket, each noted as a number one above its place; 0 is none. Where more
// have some than it can note, it is crowded, and then each block may.
#[derive(Clone, Copy)]
pub(crate) struct Bucket {
    pub(crate) notes: [u32; NOTES],
    pub(crate) is_crowded: bool,
}

impl Bucket {
    // A bucket without names.
    pub(crate) fn empty() -> Bucket
        ensures { result ≡ record { notes = replicate 16 0; is_crowded = false } }
    {
        Bucket {
            notes: [0; NOTES],
            is_crowded: false,
        }
    }

    // Notes the block of a place.
    pub(crate) fn note(&mut self, place: usize)
        ensures told { tells self.new place ≡ true }
        ensures others { (other : ℕ) → tells self.old other ≡ true → tells self.new other ≡ true }
    {
        if place >= u32::MAX as usize {
            self.is_crowded = true;
            return;
        }
        let note = place as u32 + 1;
        if place_of(&self.notes, note) < NOTES {
            return;
        }
        let free = place_of(&self.notes, 0);
        if free < NOTES {
            self.notes[free] = note;
        } else {
            self.is_crowded = true;
        }
    }

    // Forgets the block of a place.
    pub(crate) fn forget(&mut self, place: usize)
        ensures gone { place < 2 ^ 32 - 1 → is_noted self.new place ≡ false }
        ensures less { (other : ℕ) → is_noted self.old other ≡ false → is_noted self.new other ≡ false }
        ensures others { (other : ℕ) → other ≢ place → tells self.old other ≡ true → tells self.new other ≡ true }
    {
        if place >= u32::MAX as usize {
            return;
        }
        self.notes = without(&self.notes, place as u32 + 1);
    }
}

// Where a number stands, or 16 where it stands nowhere.
fn place_of(notes: &[u32; NOTES], note: u32) -> usize
    ensures { result < 16 → slice_index_or notes.now result 0 ≡ note }
{
    for k in 0..NOTES {
        if notes[k] == note {
            return k;
        }
    }
    NOTES
}

// The same numbers, but with 0 for one of them.
fn without(notes: &[u32; NOTES], note: u32) -> [u32; NOTES]
    ensures gone { (k : ℕ) → k < 16 → 0 < note → slice_index_or result k 0 ≢ note }
    ensures others { (k : ℕ) → k < 16 → slice_index_or notes.now k 0 ≢ note → slice_index_or result k 0 ≡ slice_index_or notes.now k 0 }
    ensures less { (k : ℕ) → k < 16 → (slice_index_or result k 0 ≡ 0) ⊎ (slice_index_or result k 0 ≡ slice_index_or notes.now k 0) }
{
    let mut left = *notes;
    for k in 0..NOTES {
        if left[k] == note {
            left[k] = 0;
        }
    }
    left
}
