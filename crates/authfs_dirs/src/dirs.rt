// The nodes and names of a session.
ghost use Rattle.std.specs.Prelude.{◌≡◌, ◌<◌, ◌≤◌, ◌+◌, ◌^◌, ℕ, Bool, Some, None, Ok, Err, IsOk, IsTrue, IfOk, OnOk, OnErr, length};
ghost use Rattle.std.specs.FinMap as table;
ghost use Rattle.authfs_dirs.specs.Names.{Names, kind_at, is_live_dir, may_plant, at_first, planted, lookup_check, looked_up, may_add, with_room, added, may_remove, removed, forgotten, pinned, unpinned, IsReset};
ghost use Rattle.authfs_dirs.specs.Dirents.{listing};

use crate::inode::{Change, Inode};
use crate::kind::Kind;
use crate::listing::{Listing, put_all};
use crate::new_name::NewName;
use crate::nodes::{
    Nodes, add_name, add_node, change, directory, find, make_room, named, remove_name, reset,
    settle,
};
use indexmap::IndexMap;
use mg_base::{Errno, Memory};
use std::alloc::Global;
use std::marker::Model;

/// The number of the root.
pub const ROOT: u64 = 1;

/// How many nodes may live.
pub const MOST_NODES: usize = 65536;

/// How many nodes may be added in all.
pub const MOST_MADE: u32 = 0x8000_0000;

/// The live nodes, and the names of each directory.
#[derive(Drop)]
pub struct Dirs {
    alloc: Global,
    nodes: Nodes,
    last: u64,
    made: u32,
    room: Option<u64>,
}

impl Model for Dirs {
    ghost use Rattle.std.specs.HashMap.{spare};
    ghost use Rattle.authfs_dirs.specs.Names.{Names};

    ghost Value = { Names };

    ghost use Rattle.std.specs.Coded.{codes};
    ghost use Rattle.std.specs.FinMap as table;

    ghost coded = { Prim.hlevel (codes, table.code) };

    ghost use Rattle.authfs_dirs.specs.Inodes.{names_of, IsSound};

    ghost view = { λ a. names_of a.nodes.entries a.last a.made a.room };

    ghost invariant = { λ a. IsSound a.nodes.entries (spare a.nodes) a.last a.made a.room };
}

impl Dirs {
    /// The root alone.
    #[tactic(auto, unfolding(crate::specs::Names::at_first))]
    pub fn new(alloc: Global) -> Result<Dirs, Memory>
        ensures { IfOk result (λ dirs. dirs ≡ at_first) }
    {
        let mut nodes: Nodes = IndexMap::new(alloc);
        nodes.reserve(1)?;
        add_node(
            &mut nodes,
            ROOT,
            Inode::new(alloc, Kind::Dir { host: None }, None, 0),
        );
        Ok(Dirs {
            alloc,
            nodes,
            last: ROOT,
            made: 0,
            room: None,
        })
    }

    /// Whether an entry of the plan may be added: its name is new, and fewer than 65,536 nodes were made.
    #[tactic(auto, unfolding(crate::specs::Names::may_plant))]
    pub fn may_plant(&self, name: &[u8]) -> bool
        ensures { result ≡ may_plant self.now name.now }
    {
        if find(&self.nodes, ROOT, name).is_some() {
            return false;
        }
        self.last < 65536
    }

    /// The host's number of the next file or directory that is made, where one may be added.
    pub fn next_file(&self) -> u32
        requires { self.now.made < 2147483648 }
        ensures { result ≡ 2147483648 + self.now.made }
    {
        MOST_MADE + self.made
    }

    /// Adds an entry of the plan to the root, and gives the node's number.
    #[tactic(auto, unfolding(crate::specs::Names::planted, crate::specs::Names::with_room))]
    pub fn plant(&mut self, name: &[u8], kind: Kind) -> Result<u64, Memory>
        requires may { IsTrue (may_plant self.old name.now) }
        requires short { length name.now ≤ 255 }
        ensures number { IfOk result (λ number. number ≡ self.old.last + 1) }
        ensures names { OnOk result (self.new ≡ planted self.old name.now kind) }
        ensures kept { OnErr result (self.new ≡ with_room self.old None) }
    {
        self.room = None;
        let new = match NewName::new(self.alloc, name) {
            Ok(new) => new,
            Err(_) => return Err(Memory),
        };
        match make_room(&mut self.nodes, ROOT) {
            Ok(()) => {}
            Err(_) => return Err(Memory),
        }
        let number = self.last + 1;
        add_name(&mut self.nodes, ROOT, new, number);
        add_node(
            &mut self.nodes,
            number,
            Inode::new(self.alloc, kind, Some(ROOT), 0),
        );
        self.last = number;
        Ok(number)
    }

    /// What a node is; None where it isn't live.
    pub fn kind(&self, node: u64) -> Option<Kind>
        ensures { result ≡ kind_at self.now node }
    {
        match self.nodes.get(&node) {
            Some(inode) => Some(inode.kind),
            None => None,
        }
    }

    /// The node that a name names.
    pub fn find(&self, parent: u64, name: &[u8]) -> Result<u64, Errno>
        ensures { result ≡ lookup_check self.now.nodes parent name.now }
    {
        named(&self.nodes, parent, name)
    }

    /// Counts one more lookup of a live node. It takes no memory.
    #[tactic(auto, unfolding(crate::specs::Names::looked_up))]
    pub fn count_lookup(&mut self, node: u64)
        ensures { self.new ≡ looked_up self.old node }
    {
        change(&mut self.nodes, node, Change::LookedUp);
        self.room = None;
    }

    /// The host's number of the directory, where a name may be added.
    #[tactic(auto, unfolding(crate::specs::Names::may_add))]
    pub fn may_add(&self, parent: u64, name: &[u8]) -> Result<u32, Errno>
        ensures value { result ≡ may_add self.now parent name.now }
        ensures made { IsOk result → self.now.made < 2147483648 }
    {
        let dir = match directory(&self.nodes, parent) {
            Ok(dir) => dir,
            Err(errno) => return Err(errno),
        };
        let Some(host) = dir.kind.host() else {
            return Err(Errno::Eacces);
        };
        if dir.parent.is_none() {
            return Err(Errno::Enoent);
        }
        if dir.names.node(name).is_some() {
            return Err(Errno::Eexist);
        }
        if self.nodes.len() >= MOST_NODES {
            return Err(Errno::Enospc);
        }
        if self.made >= MOST_MADE {
            return Err(Errno::Enospc);
        }
        Ok(host)
    }

    /// Copies a name, and takes all memory that `add` needs in this directory.
    #[tactic(auto, unfolding(crate::specs::Names::with_room, crate::specs::Names::may_add))]
    pub fn reserve(&mut self, parent: u64, name: &[u8]) -> Result<NewName, Memory>
        requires may { IsOk (may_add self.old parent name.now) }
        requires short { length name.now ≤ 255 }
        ensures name { IfOk result (λ new. new ≡ name.now) }
        ensures may { OnOk result (IsOk (may_add self.new parent name.now)) }
        ensures room { OnOk result (self.new.room ≡ Some parent) }
        ensures names { OnOk result (self.new ≡ with_room self.old (Some parent)) }
        ensures kept { OnErr result (self.new ≡ with_room self.old None) }
    {
        self.room = None;
        let new = match NewName::new(self.alloc, name) {
            Ok(new) => new,
            Err(_) => return Err(Memory),
        };
        match make_room(&mut self.nodes, parent) {
            Ok(()) => {}
            Err(_) => return Err(Memory),
        }
        self.room = Some(parent);
        Ok(new)
    }

    /// Adds a name and a new node, with one lookup, and gives the node's number. It takes no memory.
    #[tactic(auto, unfolding(crate::specs::Names::added))]
    pub fn add(&mut self, parent: u64, name: NewName, kind: Kind) -> u64
        requires may { IsOk (may_add self.old parent name) }
        requires room { self.old.room ≡ Some parent }
        ensures number { result ≡ self.old.last + 1 }
        ensures names { self.new ≡ added self.old parent name kind }
    {
        let number = self.last + 1;
        add_name(&mut self.nodes, parent, name, number);
        add_node(
            &mut self.nodes,
            number,
            Inode::new(self.alloc, kind, Some(parent), 1),
        );
        self.last = number;
        self.made += 1;
        self.room = None;
        number
    }

    /// The host's number of the directory, where a name may be removed: that of an empty directory, or of a file.
    #[tactic(auto, unfolding(crate::specs::Names::may_remove))]
    pub fn may_remove(&self, parent: u64, name: &[u8], dir: bool) -> Result<u32, Errno>
        ensures { result ≡ may_remove self.now.nodes parent name.now dir }
    {
        let holder = match directory(&self.nodes, parent) {
            Ok(holder) => holder,
            Err(errno) => return Err(errno),
        };
        let Some(host) = holder.kind.host() else {
            return Err(Errno::Eacces);
        };
        let Some(node) = holder.names.node(name) else {
            return Err(Errno::Enoent);
        };
        match self.nodes.get(&node) {
            Some(inode) => match inode.fits(dir) {
                Ok(()) => Ok(host),
                Err(errno) => Err(errno),
            },
            None => Err(Errno::Enoent),
        }
    }

    /// The entries of a live directory with a cookie above this one, as many as are whole in so many bytes.
    #[tactic(auto, unfolding(crate::specs::Dirents::listing))]
    pub fn list(&self, node: u64, cookie: u64, size: u32) -> Result<Listing, Memory>
        requires dir { IsTrue (is_live_dir (kind_at self.now node)) }
        requires size { size ≤ 131072 }
        ensures { IfOk result (λ l. l ≡ listing self.now.nodes node cookie size) }
    {
        let mut out = Vec::new(self.alloc);
        match self.nodes.get(&node) {
            Some(inode) => {
                match put_all(&mut out, size as usize, &self.nodes, node, inode, cookie) {
                    Ok(()) => Ok(Listing::new(out)),
                    Err(_) => Err(Memory),
                }
            }
            None => Ok(Listing::new(out)),
        }
    }

    /// Removes a name. Its node is dropped where it has no lookups and no open handle. It takes no memory.
    #[tactic(auto, unfolding(crate::specs::Names::removed))]
    pub fn remove(&mut self, parent: u64, name: &[u8])
        ensures { self.new ≡ removed self.old parent name.now }
    {
        remove_name(&mut self.nodes, parent, name);
        self.room = None;
    }

    /// Counts so many lookups less. It takes no memory.
    #[tactic(auto, unfolding(crate::specs::Names::forgotten))]
    pub fn forget(&mut self, node: u64, count: u64)
        ensures { self.new ≡ forgotten self.old node count }
    {
        change(&mut self.nodes, node, Change::Forgotten(count));
        settle(&mut self.nodes, node);
        self.room = None;
    }

    /// Counts one more open handle of a live node. It takes no memory.
    #[tactic(auto, unfolding(crate::specs::Names::pinned))]
    pub fn pin(&mut self, node: u64)
        ensures { self.new ≡ pinned self.old node }
    {
        change(&mut self.nodes, node, Change::Pinned);
        self.room = None;
    }

    /// Counts one open handle less. It takes no memory.
    #[tactic(auto, unfolding(crate::specs::Names::unpinned))]
    pub fn unpin(&mut self, node: u64)
        ensures { self.new ≡ unpinned self.old node }
    {
        change(&mut self.nodes, node, Change::Unpinned);
        settle(&mut self.nodes, node);
        self.room = None;
    }

    /// Takes all lookups and open handles away. It takes no memory.
    pub fn reset(&mut self)
        ensures { IsReset self.old self.new }
    {
        reset(&mut self.nodes);
        self.room = None;
    }
}
