// Which phase a slot is in.
ghost use Rattle.std.specs.Prelude.{◌≡◌, ◌<◌, length};
ghost use Rattle.disk_box.specs.Kind.{kind_of, HasKind};
ghost use Rattle.disk_box.specs.Oldest.{is_writing};
ghost use Rattle.disk_box.specs.Steps.{is_lingering};

use crate::{Desk, Phase};

/// Which phase a slot is in, without its state.
#[derive(Clone, Copy, PartialEq, Eq)]
pub enum Kind {
    Idle,
    Filling,
    Filled,
    Sealed,
    Opened,
    Durable,
    Placed,
    Copied,
    Closing,
    Lost,
}

impl Kind {
    /// Whether a durable commit is in a slot of this phase, of which records are to be placed or the gate is to be shut.
    pub fn is_lingering(self) -> bool
        ensures { result ≡ is_lingering self }
    {
        match self {
            Kind::Durable | Kind::Placed | Kind::Copied | Kind::Closing => true,
            _ => false,
        }
    }

    /// Whether a slot of this phase is about to be written for by its core: it is being filled, or its gate is to be opened.
    pub fn is_writing(self) -> bool
        ensures { result ≡ is_writing self }
    {
        match self {
            Kind::Filling | Kind::Sealed => true,
            _ => false,
        }
    }
}

impl Phase {
    /// Which one it is.
    pub fn kind(&self) -> Kind
        ensures { result ≡ kind_of self.now }
    {
        match self {
            Phase::Idle { .. } => Kind::Idle,
            Phase::Filling { .. } => Kind::Filling,
            Phase::Filled { .. } => Kind::Filled,
            Phase::Sealed { .. } => Kind::Sealed,
            Phase::Opened { .. } => Kind::Opened,
            Phase::Durable { .. } => Kind::Durable,
            Phase::Placed { .. } => Kind::Placed,
            Phase::Copied { .. } => Kind::Copied,
            Phase::Closing { .. } => Kind::Closing,
            Phase::Lost => Kind::Lost,
        }
    }
}

impl<D> Desk<D> {
    /// Which phase a slot is in.
    pub fn kind_at(&self, k: usize) -> Kind
        requires { k < length self.now.slots.items }
        ensures { HasKind self.now.slots.items k result }
    {
        self.slots[k].phase.kind()
    }
}
