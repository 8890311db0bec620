ghost use Rattle.std.specs.Prelude.{◌≡◌, if◌then◌else◌};
ghost use Rattle.space_map.specs.Pool.{is_free, released};
ghost use Rattle.space_map.specs.Change.{changed};

/// What a block or an inode is: free, taken by the disk, or granted to a commit.
#[derive(Clone, Copy)]
pub enum Status {
    Free,
    Taken,
    Granted,
}

impl Status {
    pub(crate) fn is_free(self) -> bool
        ensures { result ≡ is_free self }
    {
        match self {
            Status::Free => true,
            Status::Taken | Status::Granted => false,
        }
    }

    // 1 for a status that is free, and 0 for another.
    pub(crate) fn free_units(self) -> u32
        ensures { result ≡ (if is_free self then 1 else 0) }
    {
        u32::from(self.is_free())
    }

    // What is taken becomes free.
    fn released(self) -> Status
        ensures { result ≡ released self }
    {
        match self {
            Status::Free | Status::Taken => Status::Free,
            Status::Granted => Status::Granted,
        }
    }
}

/// A change of a status.
#[derive(Clone, Copy)]
pub(crate) enum Change {
    /// Any status becomes this one.
    Become(Status),
    /// What is taken becomes free.
    Release,
}

impl Change {
    // The status that the change makes of this one.
    pub(crate) fn of(self, status: Status) -> Status
        ensures { result ≡ changed self status }
    {
        match self {
            Change::Become(other) => other,
            Change::Release => status.released(),
        }
    }
}
