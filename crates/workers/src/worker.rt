// What one worker owns.
use mem_values::FileCore;

/// A worker: its core, the pen with which its fsyncs write, whether it was refused memory before a stamp in the last phase that it ran, and
/// how many calls there were as it looked at the end of that.
#[derive(Drop)]
pub struct Worker<P> {
    pub core: FileCore,
    pub pen: P,
    pub refused: bool,
    pub until: u64,
}
