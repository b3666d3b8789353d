// What is remembered of the nodes that were read.
ghost use Rattle.std.specs.Prelude.{◌≡◌, ◌∷◌, ◌++◌, [], List, IfErr, OnOk};
ghost use Rattle.qg_node.specs.declared.node.Node.{Node as NodeValue};
ghost use Rattle.qg_shared_walk.specs.Memo.{IsEntered, digest_at};

use crate::digest::Digest;
use qg_node::Node;
use qg_num::Address;
use qg_walk::{NodeList, OpenFault};
use std::alloc::Global;
use std::collections::BTreeMap;

/// What is remembered of the nodes that were read (this project's own).
#[derive(Drop)]
pub(crate) struct Memo<N> {
    /// For each node the digest of it, by its address in bytes.
    pub(crate) digests: BTreeMap<u64, Digest>,
    /// What the reader keeps of the nodes, each behind those below it.
    pub(crate) nodes: N,
}

impl<N: NodeList> Memo<N> {
    /// Of no nodes. It takes no memory.
    pub(crate) fn new(alloc: Global, nodes: N) -> Memo<N>
        ensures none { result.digests.entries ≡ [] }
        ensures nodes { result.nodes ≡ nodes }
    {
        Memo {
            digests: BTreeMap::new(alloc),
            nodes,
        }
    }

    /// The digest of the node at an address; none where none was read there.
    pub(crate) fn at(&self, address: Address) -> Option<Digest>
        ensures { result ≡ digest_at self.now.digests.entries address }
    {
        self.digests.get(&address.value()).copied()
    }

    /// Remembers a node that was read at an address, where none was before.
    pub(crate) fn enter(
        &mut self,
        address: Address,
        node: &Node,
        digest: &Digest,
    ) -> Result<(), OpenFault>
        ensures entered { OnOk result (IsEntered self.old.digests.entries self.new.digests.entries address digest.now) }
        ensures kept { (nodes : List NodeValue) → N.keeps self.old.nodes nodes
            → OnOk result (N.keeps self.new.nodes (nodes ++ node.now ∷ [])) }
        ensures memory { IfErr result (λ fault. fault ≡ OpenFault.NoMemory) }
    {
        self.digests.insert(address.value(), *digest)?;
        self.nodes.push(node)?;
        Ok(())
    }
}
