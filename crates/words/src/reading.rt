// The numbers of a command, which the program reads itself.
ghost use Rattle.std.specs.Prelude.{◌≡◌, map, option_map, IfOk};
ghost use Rattle.words.specs.Words.{command_of, number_asked, mkfs_asked, image_asked, load_asked, script_asked, slots_asked, show_asked, run_asked, check_asked, verify_asked, IsInRange, IsFromTo};
ghost use Rattle.sfs_image.specs.declared.limits.TheConstants.{MOST_SLOTS as SLOTS_HIGH};

use crate::Command;
use fmt_super::MOST_SLOTS;
use script::number_up_to;

/// How many new nodes a run may make, or a history that is checked, where the words don't say.
const NODES: u32 = 4096;

/// How many they may be at most.
const MOST_NODES: u32 = 65_536;

/// How many blocks, inodes and cores an image has.
const LEAST_BLOCKS: u32 = 8;

const MOST_BLOCKS: u32 = 262_144;

const LEAST_INODES: u32 = 16;

const MOST_INODES: u32 = 16_384;

const MOST_CORES: u32 = 16;

/// A seed at most, and how many items a worker has at most in a made script.
const MOST_SEED: u32 = 4_294_967_295;

const MOST_ITEMS: u32 = 4000;

/// How many journal slots each core has where the words don't say.
const SLOTS: u32 = 1;

/// What a first word and the words behind it ask for, or the place at which they are bad.
pub fn command_of(word: &str, values: &[&str]) -> Result<Command, u32>
    ensures command { result ≡ command_of word.now (map (λ value. value.now) values.now) }
    ensures ranges { IfOk result IsInRange }
{
    match word {
        "mkfs" => mkfs_asked(values),
        "show" => show_asked(values),
        "run" => run_asked(values),
        "load" => load_asked(values),
        "check" => check_asked(values),
        "verify" => verify_asked(values),
        _ => Err(0),
    }
}

// An image, of one journal slot a core where the number of slots is not said.
fn mkfs_asked(values: &[&str]) -> Result<Command, u32>
    ensures command { result ≡ mkfs_asked (map (λ value. value.now) values.now) }
    ensures ranges { IfOk result IsInRange }
{
    match values {
        [blocks, inodes, cores] => image_asked(blocks, inodes, cores, None),
        [blocks, inodes, cores, slots] => image_asked(blocks, inodes, cores, Some(slots)),
        _ => Err(0),
    }
}

fn image_asked(blocks: &str, inodes: &str, cores: &str, slots: Option<&str>) -> Result<Command, u32>
    ensures command { result ≡ image_asked blocks.now inodes.now cores.now (option_map (λ word. word.now) slots.entry) }
    ensures ranges { IfOk result IsInRange }
{
    let blocks = number_asked(1, LEAST_BLOCKS, MOST_BLOCKS, blocks)?;
    let inodes = number_asked(2, LEAST_INODES, MOST_INODES, inodes)?;
    let cores = number_asked(3, 1, MOST_CORES, cores)?;
    let slots = slots_asked(slots)?;
    Ok(Command::Mkfs {
        blocks,
        inodes,
        cores,
        slots,
    })
}

// The number of each core's journal slots.
fn slots_asked(slots: Option<&str>) -> Result<u32, u32>
    ensures number { result ≡ slots_asked (option_map (λ word. word.now) slots.entry) }
    ensures range { IfOk result (IsFromTo 1 SLOTS_HIGH) }
{
    match slots {
        Some(word) => number_asked(4, 1, MOST_SLOTS, word),
        None => Ok(SLOTS),
    }
}

fn show_asked(values: &[&str]) -> Result<Command, u32>
    ensures command { result ≡ show_asked (map (λ value. value.now) values.now) }
    ensures ranges { IfOk result IsInRange }
{
    match values {
        [] => Ok(Command::Show),
        _ => Err(0),
    }
}

// A run, with so many new nodes if that is said.
fn run_asked(values: &[&str]) -> Result<Command, u32>
    ensures command { result ≡ run_asked (map (λ value. value.now) values.now) }
    ensures ranges { IfOk result IsInRange }
{
    match values {
        [] => Ok(Command::Run { nodes: NODES }),
        [nodes] => {
            let nodes = number_asked(1, 1, MOST_NODES, nodes)?;
            Ok(Command::Run { nodes })
        }
        _ => Err(0),
    }
}

// A check of a history, with so many new nodes if that is said.
fn check_asked(values: &[&str]) -> Result<Command, u32>
    ensures command { result ≡ check_asked (map (λ value. value.now) values.now) }
    ensures ranges { IfOk result IsInRange }
{
    match values {
        [] => Ok(Command::Check { nodes: NODES }),
        [nodes] => {
            let nodes = number_asked(1, 1, MOST_NODES, nodes)?;
            Ok(Command::Check { nodes })
        }
        _ => Err(0),
    }
}

fn verify_asked(values: &[&str]) -> Result<Command, u32>
    ensures command { result ≡ verify_asked (map (λ value. value.now) values.now) }
    ensures ranges { IfOk result IsInRange }
{
    match values {
        [] => Ok(Command::Verify),
        _ => Err(0),
    }
}

// A made script of so many items and workers.
fn load_asked(values: &[&str]) -> Result<Command, u32>
    ensures command { result ≡ load_asked (map (λ value. value.now) values.now) }
    ensures ranges { IfOk result IsInRange }
{
    match values {
        [seed, count, workers] => script_asked(seed, count, workers),
        _ => Err(0),
    }
}

fn script_asked(seed: &str, count: &str, workers: &str) -> Result<Command, u32>
    ensures command { result ≡ script_asked seed.now count.now workers.now }
    ensures ranges { IfOk result IsInRange }
{
    let seed = number_asked(1, 0, MOST_SEED, seed)?;
    let count = number_asked(2, 1, MOST_ITEMS, count)?;
    let workers = number_asked(3, 1, MOST_CORES, workers)?;
    Ok(Command::Load {
        seed,
        count,
        workers,
    })
}

// The number that a word spells, where it is in its range; else the word is bad at this place.
fn number_asked(place: u32, least: u32, most: u32, word: &str) -> Result<u32, u32>
    ensures number { result ≡ number_asked place least most word.now }
    ensures range { IfOk result (IsFromTo least most) }
{
    match number_up_to(u64::from(most), word.as_bytes()) {
        Some(number) => {
            if number >= u64::from(least) {
                Ok(number as u32)
            } else {
                Err(place)
            }
        }
        None => Err(place),
    }
}
