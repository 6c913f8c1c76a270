// Laws of names and nodes.
ghost use Rattle.authfs_dirs.specs.Tree.{StaysSound, FindsChildren};

/// The nodes are a tree of directories below the root at first, and stay so whichever call changes them: each name is that
/// of one live node, which has its name there alone; no node is kept without a reason to live; a directory's cookies rise in
/// the order of its names, each used once; and at most 65,536 nodes live. Its contract is the law; it does nothing.
pub fn tree_stays_sound()
    ensures { StaysSound }
{}

/// The node that a look-up finds lives, and has its name in the directory that was asked. Its contract is the law; it does
/// nothing.
pub fn children_are_found()
    ensures { FindsChildren }
{}
