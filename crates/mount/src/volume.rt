// What a mounted volume is made of.
ghost use Rattle.std.specs.Prelude.{◌≡◌};

use disk_box::Pen;
use fsync_dir::FlushSite;
use journal_set::JournalSet;
use mem_calls::TreeTable;
use mem_values::FileCore;
use sfs_dev::Disk;
use workers::Worker;

/// Room for the cores and the pens of a volume, which are taken in where it is unmounted.
#[derive(Drop)]
pub struct Room<D: Disk> {
    pub cores: Vec<FileCore>,
    pub pens: Vec<Pen<D>>,
}

/// A mounted volume: the table of its tree, the journals at its disk, how many cores it has, and room for the cores and pens that its workers have.
#[derive(Drop)]
pub struct Volume<D: Disk> {
    pub table: TreeTable,
    pub set: JournalSet<D>,
    pub cores: u8,
    pub room: Room<D>,
}

/// A volume, and one worker for each of its cores, ascending by number.
#[derive(Drop)]
pub struct Mounted<D: Disk> {
    pub volume: Volume<D>,
    pub workers: Vec<Worker<Pen<D>>>,
}

impl<D: Disk> Volume<D> {
    /// The table of its tree, which its workers share.
    pub fn shared(&self) -> &TreeTable
        ensures { result.now ≡ self.now.table }
    {
        &self.table
    }

    /// The journals at its disk.
    pub fn set(&self) -> &JournalSet<D>
        ensures { result.now ≡ self.now.set }
    {
        &self.set
    }

    /// Where its fsyncs are served.
    pub fn site(&self) -> FlushSite<'_, D>
        ensures table { result.table.now ≡ self.now.table }
        ensures set { result.set.now ≡ self.now.set }
        ensures cores { result.cores ≡ self.now.cores }
    {
        FlushSite {
            table: &self.table,
            set: &self.set,
            cores: self.cores,
        }
    }
}
