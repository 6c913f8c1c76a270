// The live nodes by number.
ghost use Rattle.std.specs.Prelude.{◌≡◌, ◌<◌, ◌+◌, ◌^◌, OnOk};
ghost use Rattle.std.specs.HashMap.{spare};
ghost use Rattle.authfs_dirs.specs.Names.{settled, directory, lookup_check, with_name, without_name};
ghost use Rattle.authfs_dirs.specs.Inodes.{seen, node_of, Changes, Inserts, removed_in, found_in, IsNewIn, IsCleared, AreReset, CookiesTo, KeepsCookies, KeepsCookiesFrom, HasRoom, done, Gives};

use crate::inode::{Change, Inode};
use crate::new_name::NewName;
use indexmap::IndexMap;
use mg_base::{Errno, Memory};

/// The live nodes by number.
pub(crate) type Nodes = IndexMap<u64, Inode>;

/// A live directory.
#[tactic(auto, unfolding(crate::specs::Names::directory))]
pub(crate) fn directory(nodes: &Nodes, number: u64) -> Result<&Inode, Errno>
    ensures { Gives (λ x. node_of x.now) result (directory (seen nodes.now.entries) number) }
{
    match nodes.get(&number) {
        Some(inode) => {
            if inode.kind.is_dir() {
                Ok(inode)
            } else {
                Err(Errno::Enotdir)
            }
        }
        None => Err(Errno::Enoent),
    }
}

/// The node that a directory's name names.
#[tactic(auto, unfolding(crate::specs::Names::lookup_check))]
pub(crate) fn named(nodes: &Nodes, parent: u64, name: &[u8]) -> Result<u64, Errno>
    ensures { result ≡ lookup_check (seen nodes.now.entries) parent name.now }
{
    let dir = match directory(nodes, parent) {
        Ok(dir) => dir,
        Err(errno) => return Err(errno),
    };
    match dir.names.node(name) {
        Some(node) => Ok(node),
        None => Err(Errno::Enoent),
    }
}

/// Makes a change of a live node.
pub(crate) fn change(nodes: &mut Nodes, number: u64, change: Change)
    ensures nodes { Changes nodes.old.entries nodes.new.entries number (done change) }
    ensures cookies { KeepsCookies nodes.old.entries nodes.new.entries }
{
    match nodes.get_mut(&number) {
        Some(inode) => inode.change(change),
        None => {}
    }
}

/// Drops a node that doesn't live any more.
pub(crate) fn settle(nodes: &mut Nodes, number: u64)
    ensures nodes { seen nodes.new.entries ≡ settled (seen nodes.old.entries) number }
    ensures cookies { KeepsCookies nodes.old.entries nodes.new.entries }
{
    match nodes.get(&number) {
        Some(inode) => {
            if inode.lives(number) {
                return;
            }
        }
        None => return,
    }
    let _ = nodes.swap_remove(&number);
}

/// Takes memory for one more node, and for one more name in a directory.
pub(crate) fn make_room(nodes: &mut Nodes, parent: u64) -> Result<(), Memory>
    ensures nodes { seen nodes.new.entries ≡ seen nodes.old.entries }
    ensures cookies { KeepsCookies nodes.old.entries nodes.new.entries }
    ensures space { OnOk result (0 < spare nodes.new) }
    ensures room { OnOk result (HasRoom nodes.new.entries parent) }
{
    match nodes.reserve(1) {
        Ok(()) => {}
        Err(_) => return Err(Memory),
    }
    match nodes.get_mut(&parent) {
        Some(inode) => inode.names.reserve(),
        None => Err(Memory),
    }
}

/// Adds a name to a directory. It takes no memory.
pub(crate) fn add_name(nodes: &mut Nodes, parent: u64, name: NewName, number: u64)
    requires room { HasRoom nodes.old.entries parent }
    requires new { IsNewIn nodes.old.entries parent name }
    requires cookies { CookiesTo nodes.old.entries (number + 1) }
    requires number { number < 2 ^ 63 }
    ensures nodes { Changes nodes.old.entries nodes.new.entries parent (with_name name number) }
    ensures cookies { CookiesTo nodes.new.entries (number + 2) }
    ensures spare { spare nodes.new ≡ spare nodes.old }
{
    match nodes.get_mut(&parent) {
        Some(inode) => inode.names.add(name, number),
        None => {}
    }
}

/// Adds a node. It takes no memory.
pub(crate) fn add_node(nodes: &mut Nodes, number: u64, inode: Inode)
    requires spare { 0 < spare nodes.old }
    ensures nodes { Inserts nodes.old.entries nodes.new.entries number inode }
    ensures cookies { KeepsCookiesFrom inode.names.next nodes.old.entries nodes.new.entries }
{
    let _ = nodes.insert(number, inode);
}

/// The node that a directory's name names.
pub(crate) fn find(nodes: &Nodes, parent: u64, name: &[u8]) -> Option<u64>
    ensures { result ≡ found_in nodes.now.entries parent name.now }
{
    match nodes.get(&parent) {
        Some(inode) => inode.names.node(name),
        None => None,
    }
}

/// Takes a name from a directory.
pub(crate) fn drop_name(nodes: &mut Nodes, parent: u64, name: &[u8])
    ensures nodes { Changes nodes.old.entries nodes.new.entries parent (without_name name.now) }
    ensures cookies { KeepsCookies nodes.old.entries nodes.new.entries }
{
    match nodes.get_mut(&parent) {
        Some(inode) => inode.names.remove(name),
        None => {}
    }
}

/// Takes a name from a directory, and drops the node if it doesn't live any more. It takes no memory.
pub(crate) fn remove_name(nodes: &mut Nodes, parent: u64, name: &[u8])
    ensures nodes { seen nodes.new.entries ≡ removed_in nodes.old.entries parent name.now }
    ensures cookies { KeepsCookies nodes.old.entries nodes.new.entries }
{
    match find(nodes, parent, name) {
        Some(node) => {
            drop_name(nodes, parent, name);
            change(nodes, node, Change::Unnamed);
            settle(nodes, node);
        }
        None => {}
    }
}

/// Takes all lookups and open handles away, and drops each node that doesn't live any more.
pub(crate) fn reset(nodes: &mut Nodes)
    ensures nodes { AreReset nodes.old.entries nodes.new.entries }
    ensures cookies { KeepsCookies nodes.old.entries nodes.new.entries }
{
    let _distinct = nodes.len();
    nodes.retain(
        |number: &u64, inode: &mut Inode| -> bool
            ensures { IsCleared number.now inode.old inode.new result }
        {
            inode.clear();
            inode.lives(*number)
        },
    );
}
