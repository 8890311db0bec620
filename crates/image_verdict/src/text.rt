// The texts of a certificate and of an inode that breaks a rule.
ghost use Rattle.std.specs.Prelude.{◌≡◌, ◌++◌, IfOk, OnOk, string_bytes};
ghost use Rattle.image_verdict.specs.Texts.{broken_text, certificate_text, counts_text, place_text};

use image_check::{Certificate, Holder};
use sfs_base::NoMemory;
use std::alloc::Global;

/// The text of a certificate: a line `sound D directories F files`, the root being counted, and for
/// each entry on a directory a line `INODE HOLDER DEPTH`.
pub fn certificate_text(alloc: Global, cert: &Certificate) -> Result<Vec<u8>, NoMemory>
    ensures { IfOk result (λ text. text.items ≡ certificate_text cert.now) }
{
    let mut text = String::new(alloc);
    let places = cert.holders.as_slice();
    write_counts(&mut text, places.len() as u64 + 1, cert.files)?;
    for place in places {
        write_place(&mut text, place)?;
    }
    Ok(text.into_bytes())
}

// The first line.
fn write_counts(text: &mut String, directories: u64, files: u32) -> Result<(), NoMemory>
    ensures { OnOk result (string_bytes text.new ≡ string_bytes text.old ++ counts_text directories files) }
{
    write!(text, "sound {directories} directories {files} files\n")?;
    Ok(())
}

// The line of a directory.
fn write_place(text: &mut String, place: &Holder) -> Result<(), NoMemory>
    ensures { OnOk result (string_bytes text.new ≡ string_bytes text.old ++ place_text place.now) }
{
    let Holder {
        inode,
        holder,
        depth,
    } = *place;
    write!(text, "{inode} {holder} {depth}\n")?;
    Ok(())
}

/// The text of an inode that breaks a rule: a line `inode I rule R`, and a line `record HEX` with its
/// settled record.
pub fn broken_text(
    alloc: Global,
    inode: u32,
    rule: u8,
    bytes: &[u8; 512],
) -> Result<Vec<u8>, NoMemory>
    ensures { IfOk result (λ text. text.items ≡ broken_text inode rule bytes.now) }
{
    let mut text = String::new(alloc);
    write!(&mut text, "inode {inode} rule {rule}\n")?;
    write!(&mut text, "record ")?;
    let hex = hex::encode(alloc, bytes)?;
    text.push_str(hex.as_str())?;
    write!(&mut text, "\n")?;
    Ok(text.into_bytes())
}
