// The children of a node, with what a book forgets.
ghost use Rattle.std.specs.Prelude.{◌≡◌, IfOk};
ghost use Rattle.qg_node.specs.Nodes.{own_pointers};
ghost use Rattle.qg_extents.specs.Table.{book_of};
ghost use Rattle.qg_subvolumes.specs.Dropping.{children_told};

use qg_node::{Node, Pointer};
use qg_num::{Key, NoMemory};
use qg_tree_backrefs::TreeRefs;
use qg_tree_read::Way;
use qg_walk::expected_below;
use std::alloc::Global;

/// A node that a subvolume reached: where it lies, what is expected there, and whether it is full. The last is asked of
/// the book before the node above loses what it owed: a book forgets the mark of what has no reference left.
#[derive(Drop)]
pub(crate) struct Child {
    pub(crate) way: Way,
    pub(crate) full: bool,
}

/// The children of a node, which are of a level. `to` is the next key on the way to the node.
pub(crate) fn children_of(
    alloc: Global,
    book: &TreeRefs,
    node: &Node,
    to: Option<Key>,
    level: u8,
) -> Result<Vec<Child>, NoMemory>
    ensures { IfOk result (λ children. children.items ≡ children_told (book_of book.now.refs) to level
        (own_pointers node.now)) }
{
    match node {
        Node::Leaf { .. } => Ok(Vec::new(alloc)),
        Node::Inner { pointers, .. } => children_at(alloc, book, pointers.as_slice(), to, level),
    }
}

// The children that pointers lead to.
fn children_at(
    alloc: Global,
    book: &TreeRefs,
    pointers: &[Pointer],
    to: Option<Key>,
    level: u8,
) -> Result<Vec<Child>, NoMemory>
    ensures { IfOk result (λ children. children.items ≡ children_told (book_of book.now.refs) to level pointers.now) }
{
    let mut children = Vec::new(alloc);
    let mut rest = pointers;
    'pointers: while let Some((pointer, others)) = rest.split_first() {
        children.push(Child {
            way: Way {
                address: pointer.child,
                expected: expected_below(level, to, pointer, others),
            },
            full: book.refs().is_marked(pointer.child),
        })?;
        rest = others;
    }
    Ok(children)
}
