// A whole commit through one slot.
ghost use Rattle.std.specs.Prelude.{◌≡◌, ℕ, List, ◌+◌, ◌-◌, ◌*◌, ◌<◌, ◌≤◌, All, IfOk, OnOk, length};
ghost use Rattle.sfs_image.specs.ImageOf.{InodePart};
ghost use Rattle.sfs_image.specs.Journal.{Entry};
ghost use Rattle.sfs_image.specs.Part.{Part};
ghost use Rattle.sfs_dev.specs.Run.{Advances, CountsOn};
ghost use Rattle.journal_one.specs.Calls.{HasDoubt, IsCalm};
ghost use Rattle.journal_one.specs.Job.{IsJob, LiesInData};
ghost use Rattle.journal_one.specs.Known.{EachLeft, IsFilling, IsFilled, IsDurable, AreAllPlaced, IsEnded};
ghost use Rattle.journal_one.specs.Stage.{left_to_fill, left_to_place};
ghost use Rattle.commit_one.specs.Carried.{Keeps, Opens, Shuts, Carries, TakesCalls, device_calls, durable_at};
ghost use Rattle.commit_one.specs.Change.{IsBefore, IsByItsSlot, IsAfter, AreFree, IsChangeOf, job_for};

use journal_one::{Doubt, Durable, Fill, Filled, Filling, Idle, Packed, Placed, Put};
use sfs_dev::Disk;

/// What a commit that has ended hands back.
pub struct Committed {
    /// The slot, idle again.
    pub idle: Idle,
    /// The disk's count of device calls when the commit was durable.
    pub moment: u64,
}

/// Commits a transaction through an idle slot, under this commit stamp, and waits until the table has
/// its records. With b fresh blocks and r records it makes b + r + 9 device calls, of which four are
/// syncs, and it takes no memory. After a doubt only recovery goes on.
pub fn commit<D: Disk>(
    disk: &mut D,
    idle: Idle,
    packed: Packed,
    stamp: u64,
) -> Result<Committed, Doubt>
    requires large { idle.layout.blocks ≤ (D.view disk.old).size }
    requires below { All (λ (entry : Entry). entry.inode < idle.layout.inodes) packed.entries }
    requires in_data { All (LiesInData idle.layout) packed.fresh }
    ensures idle { IfOk result (λ done. done.idle ≡ idle) }
    ensures moment { IfOk result (λ done. CountsOn (D.view disk.new) → done.moment ≡ durable_at (D.view disk.old).now (job_for idle packed stamp)) }
    ensures goes { Advances (D.view disk.old) (D.view disk.new) }
    ensures time { TakesCalls (device_calls (job_for idle packed stamp)) (D.view disk.old) (D.view disk.new) result }
    ensures doubt { HasDoubt (D.view disk.old) (D.view disk.new) result }
    ensures calm { OnOk result (IsCalm (D.view disk.new)) }
    ensures carried { (parts : ℕ → Part) (new : List InodePart) → IsChangeOf (job_for idle packed stamp) parts new
        → EachLeft (D.view disk.old) (IsBefore (job_for idle packed stamp) parts)
        → Carries (job_for idle packed stamp) parts new (D.view disk.old) (D.view disk.new) result }
{
    let filled = fill(disk, idle.begin(packed, stamp))?;
    let durable = make_durable(disk, filled)?;
    let moment = disk.now();
    let placed = place(disk, durable)?;
    let idle = shut(disk, placed)?;
    Ok(Committed { idle, moment })
}

// Writes all that fills the slot.
fn fill<D: Disk>(disk: &mut D, filling: Filling) -> Result<Filled, Doubt>
    requires large { filling.job.place.layout.blocks ≤ (D.view disk.old).size }
    requires some { 0 < left_to_fill filling }
    ensures job { IfOk result (λ filled. filled ≡ filling.job) }
    ensures goes { Advances (D.view disk.old) (D.view disk.new) }
    ensures time { TakesCalls (left_to_fill filling) (D.view disk.old) (D.view disk.new) result }
    ensures doubt { HasDoubt (D.view disk.old) (D.view disk.new) result }
    ensures filled { OnOk result (IsFilling filling.job filling.done (D.view disk.old) → IsFilled filling.job (D.view disk.new)) }
    ensures keeps { (parts : ℕ → Part) → IsJob filling.job → AreFree filling.job parts → EachLeft (D.view disk.old) (IsBefore filling.job parts)
        → Keeps (IsBefore filling.job parts) (D.view disk.old) (D.view disk.new) }
{
    let mut filling = filling;
    loop {
        match filling.put_next(disk)? {
            Fill::More { next } => filling = next,
            Fill::Done { filled } => return Ok(filled),
        }
    }
}

// Seals the slot, opens its gate, and waits until the gate is open on the disk.
fn make_durable<D: Disk>(disk: &mut D, filled: Filled) -> Result<Durable, Doubt>
    requires large { filled.place.layout.blocks ≤ (D.view disk.old).size }
    ensures job { IfOk result (λ durable. durable ≡ record { job = filled; done = 0 }) }
    ensures goes { Advances (D.view disk.old) (D.view disk.new) }
    ensures time { TakesCalls 3 (D.view disk.old) (D.view disk.new) result }
    ensures doubt { HasDoubt (D.view disk.old) (D.view disk.new) result }
    ensures durable { OnOk result (IsFilled filled (D.view disk.old) → IsDurable filled 0 (D.view disk.new)) }
    ensures opens { (parts : ℕ → Part) (new : List InodePart) → IsJob filled → IsChangeOf filled parts new → IsFilled filled (D.view disk.old)
        → EachLeft (D.view disk.old) (IsBefore filled parts) → Opens filled parts new (D.view disk.old) (D.view disk.new) result }
{
    filled.seal(disk)?.open_gate(disk)?.settle(disk)
}

// Places all records in the table.
fn place<D: Disk>(disk: &mut D, durable: Durable) -> Result<Placed, Doubt>
    requires large { durable.job.place.layout.blocks ≤ (D.view disk.old).size }
    requires some { 0 < left_to_place durable }
    ensures job { IfOk result (λ placed. placed ≡ durable.job) }
    ensures goes { Advances (D.view disk.old) (D.view disk.new) }
    ensures time { TakesCalls (left_to_place durable) (D.view disk.old) (D.view disk.new) result }
    ensures doubt { HasDoubt (D.view disk.old) (D.view disk.new) result }
    ensures placed { OnOk result (IsDurable durable.job durable.done (D.view disk.old) → AreAllPlaced durable.job (D.view disk.new)) }
    ensures keeps { (parts : ℕ → Part) (new : List InodePart) → IsJob durable.job → IsChangeOf durable.job parts new
        → EachLeft (D.view disk.old) (IsByItsSlot durable.job parts new) → Keeps (IsByItsSlot durable.job parts new) (D.view disk.old) (D.view disk.new) }
{
    let mut durable = durable;
    loop {
        match durable.place_next(disk)? {
            Put::More { next } => durable = next,
            Put::Done { placed } => return Ok(placed),
        }
    }
}

// Waits until the records are on the disk, closes the gate, and waits until that is on the disk.
fn shut<D: Disk>(disk: &mut D, placed: Placed) -> Result<Idle, Doubt>
    requires large { placed.place.layout.blocks ≤ (D.view disk.old).size }
    ensures idle { IfOk result (λ idle. idle ≡ placed.place) }
    ensures goes { Advances (D.view disk.old) (D.view disk.new) }
    ensures time { TakesCalls 3 (D.view disk.old) (D.view disk.new) result }
    ensures doubt { HasDoubt (D.view disk.old) (D.view disk.new) result }
    ensures calm { OnOk result (IsCalm (D.view disk.new)) }
    ensures closed { OnOk result (AreAllPlaced placed (D.view disk.old) → IsEnded placed (D.view disk.new)) }
    ensures shuts { (parts : ℕ → Part) (new : List InodePart) → IsJob placed → IsChangeOf placed parts new → AreAllPlaced placed (D.view disk.old)
        → EachLeft (D.view disk.old) (IsByItsSlot placed parts new) → Shuts placed parts new (D.view disk.old) (D.view disk.new) result }
{
    placed.copy(disk)?.shut_gate(disk)?.finish(disk)
}
