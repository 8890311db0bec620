// Where fsyncs are served.
use journal_set::JournalSet;
use mem_calls::TreeTable;
use sfs_dev::Disk;

/// The table of a file tree and the journals at its disk, with the number of its cores.
#[derive(Drop)]
pub struct FlushSite<'a, D: Disk> {
    pub table: &'a TreeTable,
    pub set: &'a JournalSet<D>,
    pub cores: u8,
}
