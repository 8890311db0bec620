// The script of a mail spool.
use crate::asked::Asked;
use sfs_base::NoMemory;
use std::alloc::Global;

// The directories in which a worker's messages are made and to which they go.
fn directories_of(alloc: Global, asked: &Asked, worker: u32) -> Result<(String, String), NoMemory> {
    if asked.shared {
        Ok((
            String::from_str(alloc, "/tmp")?,
            String::from_str(alloc, "/new")?,
        ))
    } else {
        Ok((
            format!(in alloc; "/tmp{worker}")?,
            format!(in alloc; "/new{worker}")?,
        ))
    }
}

/// The directories are made and flushed in a first phase. In the second each worker makes its messages one after another: each of 4,096 bytes, in one
/// directory, where it is flushed; linked into another one, which is flushed; and unlinked from the first.
pub fn spool_script(alloc: Global, asked: &Asked) -> Result<String, NoMemory> {
    let mut script = String::new(alloc);
    let owners = if asked.shared { 1 } else { asked.workers };
    for worker in 0..owners {
        let (made, kept) = directories_of(alloc, asked, worker)?;
        script.push_str(format!(in alloc; "0 mkdir {made}\n0 mkdir {kept}\n")?.as_str())?;
    }
    script.push_str("0 fsync /\n---\n")?;
    let mut bytes = String::new(alloc);
    for _ in 0..4096u32 {
        bytes.push_str("6d")?;
    }
    for i in 0..asked.each {
        for worker in 0..asked.workers {
            let (made, kept) = directories_of(alloc, asked, worker)?;
            let message = format!(in alloc; "{made}/{worker}.{i}")?;
            let lines = format!(in alloc;
                "{worker} create {message}\n{worker} write {message} 0 {bytes}\n{worker} fsync {message}\n"
            )?;
            script.push_str(lines.as_str())?;
            let lines = format!(in alloc;
                "{worker} link {message} {kept}/{worker}.{i}\n{worker} fsync {kept}\n{worker} unlink {message}\n"
            )?;
            script.push_str(lines.as_str())?;
        }
    }
    Ok(script)
}
