// The order of references.
ghost use Rattle.std.specs.Prelude.{◌≡◌};
ghost use Rattle.qg_image.specs.Record.{same_reference};
ghost use Rattle.qg_refs.specs.Order.{rank_of, precedes};

use qg_items::Reference;

// What orders a reference: the type of its item, the tree or the parent, and for a keyed one to data the file and the
// offset.
#[derive(Clone, Copy)]
struct Rank {
    kind: u8,
    from: u64,
    ino: u64,
    offset: u64,
}

/// Whether a reference comes before another: by the type of its item, then by the tree or by the parent, then by the
/// file, then by the offset. So references to one extent stand in the order of their keys (on-disk format,
/// "backreferences").
pub fn is_before(reference: &Reference, other: &Reference) -> bool
    ensures { result ≡ precedes reference.now other.now }
{
    let a = rank_of(reference);
    let b = rank_of(other);
    a.kind < b.kind
        || (a.kind == b.kind
            && (a.from < b.from
                || (a.from == b.from
                    && (a.ino < b.ino || (a.ino == b.ino && a.offset < b.offset)))))
}

/// Whether two references name the same.
pub fn is_same(reference: &Reference, other: &Reference) -> bool
    ensures { result ≡ same_reference reference.now other.now }
{
    reference == other
}

fn rank_of(reference: &Reference) -> Rank
    ensures { result ≡ rank_of reference.now }
{
    let (kind, from, ino, offset) = match *reference {
        Reference::KeyedBlock { root } => (176, root.value(), 0, 0),
        Reference::KeyedData { root, ino, offset } => (178, root.value(), ino.value(), offset),
        Reference::SharedBlock { parent } => (182, parent.value(), 0, 0),
        Reference::SharedData { parent } => (184, parent.value(), 0, 0),
    };
    Rank {
        kind,
        from,
        ino,
        offset,
    }
}
