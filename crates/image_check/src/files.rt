// How many files a row names.
ghost use Rattle.std.specs.Prelude.{◌≡◌, ◌≤◌, ◌==◌, ◌&&◌, not, length};
ghost use Rattle.image_check.specs.Gathered.{files_counted};

use disk_tree::FILE;
use fmt_inode::Inode;

/// How many files a row names, by the number of rows that name each inode.
pub fn count_files(inodes: &[Inode], named: &[u32]) -> u32
    requires few { length inodes.now ≤ 16384 }
    requires count { length named.now ≡ length inodes.now }
    ensures { result ≡ files_counted inodes.now named.now (length inodes.now) }
{
    let mut files = 0;
    for place in 0..inodes.len() {
        if is_named_file(&inodes[place], named[place]) {
            files += 1;
        }
    }
    files
}

// The inode is a file that a row names.
fn is_named_file(inode: &Inode, named: u32) -> bool
    ensures { result ≡ (inode.now.kind == 1 && not (named == 0)) }
{
    inode.kind == FILE && named != 0
}
