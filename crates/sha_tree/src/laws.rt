// Laws of trees: what paths through a tree say of a content, and how a stored tree lies.
ghost use Rattle.std.specs.Prelude.{◌≡◌, ◌*◌, ◌<◌, ◌≤◌, List, length, ℕ};
ghost use Rattle.mg_base.specs.declared.values.Digest.{Digest};
ghost use Rattle.sha_tree.specs.declared.measure.Measure.{Measure};
ghost use Rattle.sha_tree.specs.Measured.{IsMeasured, HasTree};
ghost use Rattle.sha_tree.specs.Path.{PathsAreSound};
ghost use Rattle.sha_tree.specs.Digests.{leaf, digest_at, tree_page, tree_root};
ghost use Rattle.sha_tree.specs.Tree.{block_count, page, page_hash, pages_at, root, stored_tree, tree_pages, AreLeaves, IsStored};

/// Where no two different inputs share a digest, what pieces tie to the root of a content's tree is
/// the content's. Its contract is the law; it does nothing.
pub fn paths_are_sound()
    ensures law { PathsAreSound }
    ensures devices { (m : Measure) (content : List ℕ) → IsMeasured m content → HasTree m content }
{}

/// A stored tree has each page above the blocks at its place, and no more.
/// Its contract is the law; it does nothing.
pub fn stored_pages_lie_in_order()
    ensures places { (bytes salt : List ℕ) → IsStored (stored_tree bytes salt) bytes salt }
    ensures len { (bytes salt : List ℕ) →
        length (stored_tree bytes salt) ≡ 4096 * tree_pages (block_count (length bytes)) }
{}

/// The tree over the digests of a content's blocks is the content's tree: each digest, each page
/// above the blocks, the root. Its contract is the law; it does nothing.
pub fn digests_make_the_tree()
    ensures digests { (bytes salt : List ℕ) (leaves : List Digest) (level i : ℕ) →
        AreLeaves bytes salt leaves → i < pages_at (length leaves) level →
        digest_at salt (leaf leaves) (length leaves) level i ≡
        page_hash salt (page bytes salt level i) }
    ensures pages { (bytes salt : List ℕ) (leaves : List Digest) (level i : ℕ) →
        AreLeaves bytes salt leaves → 0 < level →
        tree_page salt (leaf leaves) (length leaves) level i ≡ page bytes salt level i }
    ensures root { (bytes salt : List ℕ) (leaves : List Digest) →
        AreLeaves bytes salt leaves → length leaves ≤ 1048576 →
        tree_root salt (leaf leaves) (length leaves) ≡ root bytes salt }
{}
