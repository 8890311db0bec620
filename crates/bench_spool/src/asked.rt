// What the words ask for.
ghost use Rattle.std.specs.Prelude.{◌≤◌, ◌<◌, ◌*◌};

/// How many messages one script may deliver: each has 8,192 digits of bytes, and a script 16,777,216 bytes at most.
const MOST_MESSAGES: u32 = 1900;

/// How many workers there may be.
const MOST_WORKERS: u32 = 16;

/// A spool: so many workers, each of which delivers so many messages, into directories of its own or into ones that all share, on this file.
#[derive(Drop)]
pub struct Asked<'a> {
    pub workers: u32,
    pub each: u32,
    pub shared: bool,
    pub file: &'a String,
}

impl<'a> Asked<'a> {
    /// How many messages all workers deliver.
    pub fn messages(&self) -> u64 {
        u64::from(self.workers).saturating_mul(u64::from(self.each))
    }
}

/// What the words `spool WORKERS MESSAGES shared|private FILE` ask for; MESSAGES are shared evenly among the workers.
pub fn spool_asked(words: &[String]) -> Option<Asked> {
    let [_, word, workers, messages, kind, file] = words else {
        return None;
    };
    if word.as_str() != "spool" {
        return None;
    }
    let shared = match kind.as_str() {
        "shared" => true,
        "private" => false,
        _ => return None,
    };
    let Ok(workers) = workers.as_str().parse::<u32>() else {
        return None;
    };
    let Ok(messages) = messages.as_str().parse::<u32>() else {
        return None;
    };
    if workers < 1 || workers > MOST_WORKERS || messages < workers || messages > MOST_MESSAGES {
        return None;
    }
    Some(Asked {
        workers,
        each: messages / workers,
        shared,
        file,
    })
}
