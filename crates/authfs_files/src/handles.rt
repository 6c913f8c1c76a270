// The open handles of a session.
ghost use Rattle.std.specs.Prelude.{◌≡◌, ◌≤◌, ◌<◌, ◌+◌, [], ◌∷◌, ◌++◌, None, OnOk, IsTrue, IsSome, MatchOption, length};
ghost use Rattle.authfs_files.specs.Open.{Open, AreRising, node_of, holds, may_open, closed};
ghost use Rattle.authfs_files.specs.Pairs.{key_of, IsRising, StandsAt};

use mg_base::Memory;
use slab::Slab;
use std::alloc::Global;
use std::marker::Model;

/// How many handles may be open.
pub const MOST_HANDLES: usize = 4096;

/// A handle's number, and the key of its node.
#[derive(Clone, Copy, Debug, PartialEq, Eq, Drop)]
pub(crate) struct Pair {
    pub(crate) number: u64,
    pub(crate) key: usize,
}

/// A pair, and its place among the others.
#[derive(Clone, Copy, Drop)]
pub(crate) struct Found {
    pub(crate) place: usize,
    pub(crate) pair: Pair,
}

/// The open handles, each with the node that it was opened for. A number is never given twice.
#[derive(Drop)]
pub struct Handles {
    nodes: Slab<u64>,
    pairs: Vec<Pair>,
    given: u64,
}

impl Model for Handles {
    ghost use Rattle.authfs_files.specs.Open.{Open};

    ghost Value = { Open };

    ghost use Rattle.authfs_files.specs.Pairs.{open_of, IsOpen};

    ghost view = { λ a. open_of a.nodes a.pairs a.given };

    ghost invariant = { λ a. IsOpen a.nodes.slots 1 a.pairs.items a.given };
}

// The place of a handle among the pairs.
fn place_of(pairs: &[Pair], number: u64) -> Option<Found>
    requires { IsRising 1 pairs.now }
    ensures { MatchOption result (key_of number pairs.now ≡ None) (StandsAt pairs.now number) }
{
    let place = pairs.partition_point(|pair| pair.number < number);
    match pairs.get(place) {
        Some(pair) => {
            if pair.number == number {
                Some(Found { place, pair: *pair })
            } else {
                None
            }
        }
        None => None,
    }
}

impl Handles {
    /// None is open. It takes no memory.
    pub fn new(alloc: Global) -> Handles
        ensures handles { result.open_handles ≡ [] }
        ensures given { result.given ≡ 0 }
    {
        Handles {
            nodes: Slab::new(alloc),
            pairs: Vec::new(alloc),
            given: 0,
        }
    }

    /// Whether a further handle may be given. The numbers of those that are open rise from 1 on, and none is above the last one
    /// that was given.
    #[tactic(auto, unfolding(crate::specs::Open::may_open))]
    pub fn may_open(&self) -> bool
        ensures value { result ≡ may_open self.now.open_handles self.now.given }
        ensures rising { AreRising 1 self.now.open_handles self.now.given }
    {
        if self.pairs.len() >= MOST_HANDLES {
            return false;
        }
        self.given < u64::MAX
    }

    /// Takes memory for one more handle.
    pub fn reserve(&mut self) -> Result<(), Memory>
        ensures handles { self.new.open_handles ≡ self.old.open_handles }
        ensures given { self.new.given ≡ self.old.given }
        ensures room { OnOk result (1 ≤ self.new.spare_handles) }
    {
        match self.nodes.reserve(1) {
            Ok(()) => {}
            Err(_) => return Err(Memory),
        }
        match self.pairs.reserve(1) {
            Ok(()) => Ok(()),
            Err(_) => Err(Memory),
        }
    }

    /// Opens a handle of a node, and gives its number. It takes no memory.
    pub fn open_node(&mut self, node: u64) -> u64
        requires may { IsTrue (may_open self.old.open_handles self.old.given) }
        requires room { 1 ≤ self.old.spare_handles }
        ensures number { result ≡ self.old.given + 1 }
        ensures handles { self.new.open_handles ≡ self.old.open_handles ++ (result, node) ∷ [] }
        ensures given { self.new.given ≡ result }
        ensures fresh { node_of result self.old.open_handles ≡ None }
        ensures held { IsTrue (holds self.new.open_handles result node) }
    {
        let number = self.given + 1;
        let key = self.nodes.insert_reserved(node);
        self.pairs.push_reserved(Pair { number, key });
        self.given = number;
        number
    }

    /// Whether a handle is open, and of this node.
    #[tactic(auto, unfolding(crate::specs::Open::holds))]
    pub fn holds(&self, handle: u64, node: u64) -> bool
        ensures { result ≡ holds self.now.open_handles handle node }
    {
        match place_of(self.pairs.as_slice(), handle) {
            Some(found) => match self.nodes.get(found.pair.key) {
                Some(open) => *open == node,
                None => false,
            },
            None => false,
        }
    }

    /// Closes an open handle. It takes no memory.
    pub fn close(&mut self, handle: u64)
        requires { IsSome (node_of handle self.old.open_handles) }
        ensures handles { self.new.open_handles ≡ closed handle self.old.open_handles }
        ensures given { self.new.given ≡ self.old.given }
        ensures gone { node_of handle self.new.open_handles ≡ None }
    {
        let found = match place_of(self.pairs.as_slice(), handle) {
            Some(found) => found,
            None => return,
        };
        let _pair = self.pairs.remove(found.place);
        let _node = self.nodes.try_remove(found.pair.key);
    }

    /// Closes all. The numbers go on. It takes no memory.
    pub fn close_all(&mut self)
        ensures handles { self.new.open_handles ≡ [] }
        ensures given { self.new.given ≡ self.old.given }
    {
        self.nodes.clear();
        self.pairs.clear();
    }
}
