//! The program. `scalefs IMAGE mkfs BLOCKS INODES CORES [SLOTS]` makes an image file, `scalefs IMAGE show` recovers
//! it and writes its tree, and `scalefs IMAGE run [NODES]` mounts it, runs the script on standard input and writes the
//! text of its history. `scalefs IMAGE load SEED COUNT WORKERS` runs a script that is made of the three numbers. `scalefs
//! IMAGE check [NODES]` checks the text of a history on standard input, and `scalefs IMAGE verify` certifies the image.
#![tactic(auto)]

mod answer;

use answer::{End, over_file, parts_of};
use scalefs_run::{Status, status_line};
use sfs_base::{Sink, Source, StdSink, StdSource};
use std::alloc::Global;
use std::fs::{File, Files, OpenOptions};
use std::process::ExitCode;
use std::sync::Wait;
use std::thread::Threads;
use std::{env, io};

/// The status with which the program ends where the image can't be had.
const NO_IMAGE: u8 = 1;

fn main(rt: HostRuntime) -> io::Result<ExitCode> {
    let alloc = rt.alloc();
    let mut source = StdSource::new(rt.reader());
    let mut sink = StdSink::new(io::writer(&rt));
    let end = match env::args(&rt) {
        Ok(args) => match args.collect::<Vec<String>>(alloc) {
            Ok(words) => serve(&rt, alloc, &words, &mut source, &mut sink),
            Err(_) => End::Ended(Status::NoMemory),
        },
        Err(error) => End::Ended(fault_of(&error)),
    };
    let number = match end {
        End::Ended(status) => {
            if status != Status::Done {
                if let Ok(line) = status_line(alloc, &status) {
                    eprintln!(rt; "scalefs: {line}")?;
                }
            }
            status.number()
        }
        End::CannotOpen => {
            eprintln!(rt; "scalefs: cannot open the image")?;
            NO_IMAGE
        }
        End::InUse => {
            eprintln!(rt; "scalefs: the image is in use")?;
            NO_IMAGE
        }
    };
    Ok(ExitCode::from(number))
}

// Does what the words say. The image is opened before the command is looked at.
fn serve<R: Threads + Wait + Sync + Files<File = File>, S: Source, K: Sink>(
    rt: &R,
    alloc: Global,
    words: &[String],
    source: &mut S,
    sink: &mut K,
) -> End {
    let Some(parts) = parts_of(words) else {
        return End::Ended(Status::BadWords { place: 0 });
    };
    let opened = OpenOptions::new()
        .read(true)
        .write(true)
        .create(true)
        .open(rt, parts.image.as_str());
    match opened {
        Ok(file) => over_file(rt, alloc, file, parts.command, source, sink),
        Err(_) => End::CannotOpen,
    }
}

// The status of words that can't be had: memory was refused, or one is not UTF-8.
fn fault_of(error: &io::Error) -> Status {
    if error.kind() == io::ErrorKind::OutOfMemory {
        Status::NoMemory
    } else {
        Status::BadWords { place: 0 }
    }
}
