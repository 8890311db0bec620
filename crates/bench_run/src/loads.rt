// What is run, and a disk in memory with an empty image.
use crate::runs::made;
use sfs_base::NoMemory;
use sfs_dev::Memory;
use std::alloc::Global;
use std::sync::Wait;
use std::thread::Threads;

/// How many messages the mail spool gets.
const MESSAGES: u32 = 500;

/// How many directories there are, with how many files each. Each file takes one of 16,384 inodes.
const DIRECTORIES: u32 = 8;

const FILES: u32 = 2000;

/// After so many files of all directories one of these is flushed.
const BATCH: u32 = 100;

/// What is run.
#[derive(Clone, Copy)]
pub enum Load {
    /// Each message is written in one directory, flushed, and given a name in another one, which is flushed.
    MailSpool,
    /// Empty files, by turns in each of some directories.
    Directories,
    /// A script of 16 workers that the program makes, which has 1,000 items for each of them.
    Made,
}

impl Load {
    /// Its name.
    pub fn name(self) -> &'static str {
        match self {
            Load::MailSpool => "mail spool",
            Load::Directories => "directories",
            Load::Made => "load 7 1000 16",
        }
    }

    /// The words that run it.
    pub fn words(self) -> &'static [&'static str] {
        match self {
            Load::MailSpool | Load::Directories => &["run", "65536"],
            Load::Made => &["load", "7", "1000", "16"],
        }
    }

    /// How many messages, files or items of a made script it has.
    pub fn items(self) -> u64 {
        match self {
            Load::MailSpool => MESSAGES as u64,
            Load::Directories => DIRECTORIES as u64 * FILES as u64,
            Load::Made => 16_000,
        }
    }
}

/// The script of a load, empty where the program makes it, and a disk for it.
pub fn begun<R: Threads + Wait + Sync>(
    rt: &R,
    alloc: Global,
    load: Load,
) -> Result<(String, Memory), NoMemory> {
    match load {
        Load::MailSpool => {
            let disk = made(rt, alloc, 4096, &["mkfs", "4096", "1024", "1"])?;
            Ok((mail_spool(alloc)?, disk))
        }
        Load::Directories => {
            let disk = made(rt, alloc, 16_384, &["mkfs", "16384", "16384", "1"])?;
            Ok((directories(alloc)?, disk))
        }
        Load::Made => {
            let words = ["mkfs", "262144", "16384", "16", "2"];
            let disk = made(rt, alloc, 262_144, &words)?;
            Ok((String::new(alloc), disk))
        }
    }
}

// Each message has 4,096 bytes.
fn mail_spool(alloc: Global) -> Result<String, NoMemory> {
    let mut script = String::from_str(alloc, "0 mkdir /tmp\n0 mkdir /new\n0 fsync /\n")?;
    let mut bytes = String::new(alloc);
    for _ in 0..4096u32 {
        bytes.push_str("6d")?;
    }
    for i in 0..MESSAGES {
        let lines = format!(in alloc;
            "0 create /tmp/{i}\n0 write /tmp/{i} 0 {bytes}\n0 fsync /tmp/{i}\n0 link /tmp/{i} /new/{i}\n0 fsync /new\n0 unlink /tmp/{i}\n"
        )?;
        script.push_str(lines.as_str())?;
    }
    Ok(script)
}

// One directory is flushed after each batch, by turns.
fn directories(alloc: Global) -> Result<String, NoMemory> {
    let mut script = String::new(alloc);
    for dir in 0..DIRECTORIES {
        script.push_str(format!(in alloc; "0 mkdir /d{dir}\n")?.as_str())?;
    }
    for i in 0..DIRECTORIES * FILES {
        let dir = i % DIRECTORIES;
        script.push_str(format!(in alloc; "0 create /d{dir}/f{i}\n")?.as_str())?;
        if i % BATCH == BATCH - 1 {
            let dir = i / BATCH % DIRECTORIES;
            script.push_str(format!(in alloc; "0 fsync /d{dir}\n")?.as_str())?;
        }
    }
    Ok(script)
}
