// What is told of an image.
use qg_backref_rule::{Kind, Owing, Thing};
use qg_image::ExtentPart;
use qg_items::{ExtentItem, Reference};
use qg_num::{Address, BlockFault, Generation, Ino, RootId, Sequence};
use qg_owner_rule::Linked;
use std::alloc::{AllocError, Global};

/// Where the first slot lies, in bytes.
const FIRST: u64 = 1048576;

/// The bytes of a node.
const NODE: u64 = 4096;

/// Where the data extent lies, in bytes. It is as long as a node.
const EXTENT: u64 = 67174400;

/// What is told of an image: its roots, its nodes in slots from the first on, what begins where, and what is owed.
#[derive(Drop)]
pub(crate) struct Image {
    pub roots: Vec<(RootId, Address)>,
    pub nodes: Vec<Linked>,
    pub things: Vec<Thing>,
    pub owings: Vec<Owing>,
}

/// The address of a slot.
pub(crate) fn slot(number: u64) -> Address {
    Address::new(FIRST.wrapping_add(NODE.wrapping_mul(number)))
}

/// The number of a subvolume by its place: 5, then 256 and so on.
pub(crate) fn subvolume(place: u64) -> RootId {
    if place == 0 {
        return RootId::new(5);
    }
    RootId::new(place.wrapping_add(255))
}

impl Image {
    /// So many roots, whose nodes are to come in the first slots.
    pub(crate) fn with_roots(alloc: Global, count: u64) -> Result<Image, BlockFault> {
        let mut image = Image {
            roots: Vec::new(alloc),
            nodes: Vec::new(alloc),
            things: Vec::new(alloc),
            owings: Vec::new(alloc),
        };
        for place in 0..count {
            let (root, address) = (subvolume(place), slot(place));
            image.roots.push((root, address))?;
            image.owe(address, Reference::KeyedBlock { root })?;
        }
        Ok(image)
    }

    fn owe(&mut self, address: Address, reference: Reference) -> Result<(), BlockFault> {
        self.owings.push(Owing { address, reference })?;
        Ok(())
    }

    /// A node comes into the next slot, which isn't full.
    pub(crate) fn put_node(
        &mut self,
        level: u8,
        owner: RootId,
        children: Sequence<Address>,
    ) -> Result<(), BlockFault> {
        let address = slot(self.nodes.len() as u64);
        for child in children.as_slice() {
            self.owe(*child, Reference::KeyedBlock { root: owner })?;
        }
        let kind = Kind::Node {
            level,
            generation: Generation::new(2),
            full: false,
        };
        self.things.push(Thing { address, kind })?;
        self.nodes.push(Linked {
            address,
            level,
            owner,
            full: false,
            children,
        })?;
        Ok(())
    }

    /// The extent comes, which so many pieces of a file name, each by another reference.
    pub(crate) fn put_extent(&mut self, pieces: u64) -> Result<(), BlockFault> {
        let address = Address::new(EXTENT);
        let kind = Kind::Extent { bytes: NODE };
        self.things.push(Thing { address, kind })?;
        for piece in 0..pieces {
            let reference = Reference::KeyedData {
                root: RootId::new(5),
                ino: Ino::new(257),
                offset: piece.wrapping_mul(4096),
            };
            self.owe(address, reference)?;
        }
        Ok(())
    }

    /// The records of what is owed. Each reference is owed once, and something to each thing.
    pub(crate) fn parts(&self, alloc: Global) -> Result<Vec<ExtentPart>, AllocError> {
        let mut owed = self.owings.clone()?;
        owed.sort_by_key(|owing| owing.address)?;
        let runs = owed
            .as_slice()
            .chunk_by(|owing, next| owing.address == next.address);
        let mut parts = Vec::new(alloc);
        for (thing, run) in self.things.iter().zip(runs) {
            parts.push(record_of(thing, run.len() as u64))?;
            put_references(&mut parts, run)?;
        }
        Ok(parts)
    }
}

/// The record of what begins somewhere, with so many references.
fn record_of(thing: &Thing, refs: u64) -> ExtentPart {
    let address = thing.address;
    let generation = Generation::new(2);
    match thing.kind {
        Kind::Node { level, .. } => ExtentPart::NodeRecord {
            address,
            level: level as u64,
            extent: ExtentItem {
                refs,
                generation,
                flags: 2,
            },
        },
        Kind::Extent { bytes } => ExtentPart::DataRecord {
            address,
            bytes,
            extent: ExtentItem {
                refs,
                generation,
                flags: 1,
            },
        },
    }
}

fn put_references(parts: &mut Vec<ExtentPart>, owed: &[Owing]) -> Result<(), AllocError> {
    for owing in owed {
        parts.push(ExtentPart::Referenced {
            address: owing.address,
            reference: owing.reference,
            count: 1,
        })?;
    }
    Ok(())
}
