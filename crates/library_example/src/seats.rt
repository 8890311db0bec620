// Workers, and what comes of their errands.
ghost use Rattle.std.specs.Prelude.{◌≡◌, IfOk, map};
ghost use Rattle.library_example.specs.Seats.{worker_at};

use crate::trouble::Trouble;
use disk_box::Pen;
use sfs_base::NoMemory;
use sfs_dev::Disk;
use std::alloc::Global;
use workers::Worker;

/// A worker, and what came of its errand, once it was on it.
#[derive(Drop)]
pub struct Seat<D: Disk> {
    pub worker: Worker<Pen<D>>,
    pub read: Option<Result<String, Trouble>>,
}

/// The workers, a seat each.
pub fn seated<D: Disk + Drop>(
    alloc: Global,
    workers: Vec<Worker<Pen<D>>>,
) -> Result<Vec<Seat<D>>, NoMemory>
    ensures { IfOk result (λ seats. map worker_at seats.items ≡ workers.items) }
{
    let mut seats = Vec::with_capacity(alloc, workers.len())?;
    for worker in workers {
        seats.push_reserved(Seat { worker, read: None });
    }
    Ok(seats)
}

/// The workers at seats, and what came of their errands.
pub fn parted<D: Disk + Drop>(
    alloc: Global,
    seats: Vec<Seat<D>>,
) -> Result<(Vec<Worker<Pen<D>>>, Vec<Result<String, Trouble>>), NoMemory>
    ensures { IfOk result (λ parts. parts.0.items ≡ map worker_at seats.items) }
{
    let mut workers = Vec::with_capacity(alloc, seats.len())?;
    let mut reads = Vec::with_capacity(alloc, seats.len())?;
    for seat in seats {
        let Seat { worker, read } = seat;
        workers.push_reserved(worker);
        if let Some(read) = read {
            reads.push_reserved(read);
        }
    }
    Ok((workers, reads))
}
