// A tree as text.
ghost use Rattle.std.specs.Prelude.{◌≡◌, ◌<◌, ◌++◌, false, [], codes, length, IfOk, OnOk, string_bytes, true};
ghost use Rattle.indexmap.specs.IndexSet.{keys};
ghost use Rattle.tree_laws.specs.Shape.{with_file};
ghost use Rattle.tree_laws.specs.Sound.{IsSound};
ghost use Rattle.tree_laws.specs.Tree.{is_directory, bytes_of};
ghost use Rattle.script.specs.Texts.{name_text};
ghost use Rattle.script.specs.TreeTexts.{directory_text, file_text, tree_text};
ghost use Rattle.script.specs.TreeWalk.{item_of, items_of, child_items, shown_path, IsGroupIn, IsWalkOf, IsWalkBefore, left_to_meet};

use crate::writing::arguments::write_name;
use indexmap::IndexSet;
use sfs_base::{Kind, Name, NoMemory, NodeId};
use sfs_tree::Tree;
use std::alloc::Global;

/// A node that a walk is still to meet, and the names of its path as text, a `/` before each: none for
/// the root.
#[derive(Drop)]
struct Unmet {
    path: String,
    node: NodeId,
}

/// A walk from the root, depth first: the text so far, the files that were met, in order of first
/// mention, and the nodes that are still to meet, the next one last.
#[derive(Drop)]
struct Walk {
    text: String,
    files: IndexSet<u32>,
    unmet: Vec<Unmet>,
}

/// The text of a sound tree: for the root and for each row a line, depth first, rows ascending by the
/// bytes of their names: `dir LINKS ROWS PATH`, or `file LINKS SIZE GROUP PATH`, where the groups number
/// the files from 0 in order of first mention. It takes time and memory in proportion to the text.
pub fn tree_text(alloc: Global, tree: &Tree) -> Result<Vec<u8>, NoMemory>
    requires sound { IsSound tree.now }
    ensures ok { IfOk result (λ text. text.items ≡ tree_text tree.now) }
{
    let mut walk = begun(alloc, tree)?;
    while meet_next(alloc, tree, &mut walk)? {}
    Ok(walk.text.into_bytes())
}

// A walk that is to meet the root first.
fn begun(alloc: Global, tree: &Tree) -> Result<Walk, NoMemory>
    requires sound { IsSound tree.now }
    ensures { IfOk result (IsWalkOf tree.now) }
{
    let root = Unmet {
        path: String::new(alloc),
        node: NodeId(0),
    };
    let mut unmet = Vec::new(alloc);
    unmet.push(root)?;
    let _ = tree;
    Ok(Walk {
        text: String::new(alloc),
        files: IndexSet::new(alloc),
        unmet,
    })
}

// Meets the next node. Answers whether there was one.
fn meet_next(alloc: Global, tree: &Tree, walk: &mut Walk) -> Result<bool, NoMemory>
    requires sound { IsSound tree.now }
    requires walk { IsWalkOf tree.now walk.old }
    ensures walk { OnOk result (IsWalkOf tree.now walk.new) }
    ensures fewer { IfOk result (λ met. met ≡ true → left_to_meet tree.now walk.new < left_to_meet tree.now walk.old) }
    ensures done { IfOk result (λ met. met ≡ false → items_of walk.new.unmet.items ≡ []) }
{
    let Some(met) = walk.unmet.pop() else {
        return Ok(false);
    };
    meet(alloc, tree, &met, walk)?;
    Ok(true)
}

// Meets a node that was the next one.
fn meet(alloc: Global, tree: &Tree, met: &Unmet, walk: &mut Walk) -> Result<(), NoMemory>
    requires sound { IsSound tree.now }
    requires walk { IsWalkBefore tree.now met.now walk.old }
    ensures walk { OnOk result (IsWalkOf tree.now walk.new) }
    ensures children { OnOk result (items_of walk.new.unmet.items ≡ child_items tree.now (item_of met.now) ++ items_of walk.old.unmet.items) }
{
    if is_directory(tree, met.node) {
        write_directory(&mut walk.text, tree, met)?;
        add_children(alloc, &mut walk.unmet, tree, met)?;
        return Ok(());
    }
    let group = group_of(&mut walk.files, met.node)?;
    write_file(&mut walk.text, tree, group, met)?;
    Ok(())
}

// Whether a node of the tree is a directory.
fn is_directory(tree: &Tree, node: NodeId) -> bool
    ensures { result ≡ is_directory tree.now node.0 }
{
    tree.kind(node) == Some(Kind::Directory)
}

// The group of a file, which is noted where it was not met before.
fn group_of(files: &mut IndexSet<u32>, file: NodeId) -> Result<usize, NoMemory>
    ensures noted { OnOk result (files.new.keys ≡ with_file files.old.keys file.0) }
    ensures group { IfOk result (IsGroupIn files.new.keys file.0) }
{
    let (group, _) = files.insert_full(file.0)?;
    Ok(group)
}

// How many bytes a node has.
fn size_of(tree: &Tree, node: NodeId) -> usize
    ensures { result ≡ length (bytes_of tree.now node.0) }
{
    if tree.kind(node).is_none() {
        return 0;
    }
    tree.bytes(node).len()
}

// Writes the path of a node.
fn write_path(text: &mut String, path: &str) -> Result<(), NoMemory>
    ensures { OnOk result (string_bytes text.new ≡ string_bytes text.old ++ shown_path path.now) }
{
    if path.is_empty() {
        text.push_str("/")?;
    } else {
        text.push_str(path)?;
    }
    Ok(())
}

// Writes the line of a directory.
fn write_directory(text: &mut String, tree: &Tree, met: &Unmet) -> Result<(), NoMemory>
    ensures { OnOk result (string_bytes text.new ≡ string_bytes text.old ++ directory_text tree.now (shown_path (string_bytes met.now.path)) met.now.node.0) }
{
    let links = tree.links(met.node);
    let rows = tree.row_count(met.node);
    write!(text, "dir {links} {rows} ")?;
    write_path(text, met.path.as_str())?;
    write!(text, "\n")?;
    Ok(())
}

// Writes the line of a file of this group.
fn write_file(text: &mut String, tree: &Tree, group: usize, met: &Unmet) -> Result<(), NoMemory>
    ensures { OnOk result (string_bytes text.new ≡ string_bytes text.old ++ file_text tree.now group (shown_path (string_bytes met.now.path)) met.now.node.0) }
{
    let links = tree.links(met.node);
    let size = size_of(tree, met.node);
    write!(text, "file {links} {size} {group} ")?;
    write_path(text, met.path.as_str())?;
    write!(text, "\n")?;
    Ok(())
}

// Puts the children of a directory behind what is still to meet, the first one last.
fn add_children(
    alloc: Global,
    unmet: &mut Vec<Unmet>,
    tree: &Tree,
    met: &Unmet,
) -> Result<(), NoMemory>
    requires directory { is_directory tree.now met.now.node.0 ≡ true }
    ensures { OnOk result (items_of unmet.new.items ≡ child_items tree.now (item_of met.now) ++ items_of unmet.old.items) }
{
    let names = tree.names(met.node)?;
    let mut left = names.len();
    while left > 0 {
        left -= 1;
        let Some(row) = names.at(left) else {
            unreachable!();
        };
        unmet.push(Unmet {
            path: child_path(alloc, met.path.as_str(), &row.name)?,
            node: row.child,
        })?;
    }
    Ok(())
}

// The path of a child: its holder's, and behind it `/` and the name.
fn child_path(alloc: Global, path: &str, name: &Name) -> Result<String, NoMemory>
    ensures { IfOk result (λ child. string_bytes child ≡ path.now ++ (codes "/" ++ name_text name.now)) }
{
    let mut child = String::from_str(alloc, path)?;
    child.push_str("/")?;
    write_name(&mut child, name)?;
    Ok(child)
}
