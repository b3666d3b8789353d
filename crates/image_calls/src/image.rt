// Calls on an image that is told line by line: which subvolumes reach a node, and what the rules `refs` and `home` say.
ghost use Rattle.std.specs.Prelude.{◌≡◌, map, IfOk, IsTrue};
ghost use Rattle.std.specs.List.Sorted.{IsNonDecreasingBy, IsStrictlyIncreasing};
ghost use Rattle.qg_image.specs.Owed.{part_address};
ghost use Rattle.qg_image.specs.Table.{keys_of};

use crate::books::told_item;
use crate::refs::reference_of;
use call_lines::{Fault, add_word, first_word, numbers_of, told, told_if, told_number};
use qg_backref_rule::{
    Owing, Thing, owed_failure, owing_of_root, owings_of_node, references_failure, sort_things,
    thing_of_extent, thing_of_node,
};
use qg_extents::{Extents, RefsFault};
use qg_image::{Element, ExtentPart, Failure};
use qg_items::kind::EXTENT_DATA;
use qg_items::{EXTENT_DATA_BYTES, ExtentData, ExtentItem, write_extent_data};
use qg_node::{Body, Header, Item, Items, Node, Pointer, Pointers};
use qg_num::{Address, Generation, Key, RootId, Rule};
use qg_owner_rule::{Linked, homeless, linked_of};
use qg_qgroup_counts::{Reached, SetId, reached_from};
use qg_shared_walk::{NodesRead, ReferenceVerdict, judge_references};
use qg_walk::NodeList;
use std::alloc::Global;

/// Where the extent lies of which leaves have pieces, in bytes.
const EXTENT: u64 = 67174400;

/// The length of that extent, in bytes.
const EXTENT_BYTES: u64 = 8192;

/// An image as lines tell it.
#[derive(Drop)]
pub(crate) struct Image {
    roots: Vec<(RootId, Address)>,
    nodes: Vec<(Node, bool)>,
    parts: Vec<ExtentPart>,
}

impl Image {
    /// An image of nothing.
    pub(crate) fn new(alloc: Global) -> Image {
        Image {
            roots: Vec::new(alloc),
            nodes: Vec::new(alloc),
            parts: Vec::new(alloc),
        }
    }
}

fn header(address: u64, level: u8, owner: u64) -> Header {
    Header {
        address: Address::new(address),
        generation: Generation::new(2),
        owner: RootId::new(owner),
        level,
    }
}

/// A leaf with pieces of the extent: each has the number of its file, where it begins in the extent, and its length.
fn leaf(alloc: Global, address: u64, owner: u64, pieces: &[u64]) -> Result<Node, Fault> {
    let mut items = Items::new(alloc);
    for numbers in pieces.chunks(3) {
        let [ino, offset, len] = numbers else {
            return Err(Fault::Call);
        };
        let piece = ExtentData {
            generation: Generation::new(2),
            ram_bytes: EXTENT_BYTES,
            disk_bytenr: Address::new(EXTENT),
            disk_num_bytes: EXTENT_BYTES,
            offset: *offset,
            num_bytes: *len,
        };
        let mut bytes = [0; EXTENT_DATA_BYTES];
        write_extent_data(&piece, &mut bytes);
        items.push(Item {
            key: key_of(*ino),
            body: Body::from_slice(alloc, &bytes)?,
        })?;
    }
    let header = header(address, 0, owner);
    Ok(Node::Leaf { header, items })
}

/// The key of a piece at the front of a file.
fn key_of(ino: u64) -> Key {
    Key {
        objectid: ino,
        kind: EXTENT_DATA,
        offset: 0,
    }
}

/// An inner node with these children.
fn inner(
    alloc: Global,
    address: u64,
    level: u64,
    owner: u64,
    children: &[u64],
) -> Result<Node, Fault> {
    let mut pointers = Pointers::new(alloc);
    for child in children {
        pointers.push(Pointer {
            key: key_of(*child),
            child: Address::new(*child),
            generation: Generation::new(2),
        })?;
    }
    let level = u8::try_from(level).map_err(|_| Fault::Number)?;
    let header = header(address, level, owner);
    Ok(Node::Inner { header, pointers })
}

/// Puts a node in the place of the one at its address, or behind all.
fn put_node(image: &mut Image, node: Node, full: bool) -> Result<(), Fault> {
    let address = node.header().address;
    let place = image
        .nodes
        .iter()
        .position(|(other, _)| other.header().address == address);
    match place {
        Some(place) if place < image.nodes.len() => image.nodes[place] = (node, full),
        _ => image.nodes.push((node, full))?,
    }
    Ok(())
}

fn address_of(part: &ExtentPart) -> Address
    ensures { result ≡ part_address part.now }
{
    match part {
        ExtentPart::DataRecord { address, .. }
        | ExtentPart::NodeRecord { address, .. }
        | ExtentPart::Referenced { address, .. } => *address,
    }
}

/// Puts what an item of the extent tree says behind all that say something of no greater address.
fn put_part(image: &mut Image, part: ExtentPart) -> Result<(), Fault> {
    let at = address_of(&part);
    let place = image.parts.partition_point(|other| address_of(other) <= at);
    Ok(image.parts.insert(place, part)?)
}

/// A record of a node or of an extent, or none.
fn record_of(verb: &str, numbers: &[u64]) -> Option<ExtentPart> {
    match (verb, numbers) {
        ("node-record", [at, level, flags, refs]) => Some(ExtentPart::NodeRecord {
            address: Address::new(*at),
            level: *level,
            extent: ExtentItem {
                refs: *refs,
                generation: Generation::new(2),
                flags: *flags,
            },
        }),
        ("extent-record", [refs]) => Some(ExtentPart::DataRecord {
            address: Address::new(EXTENT),
            bytes: EXTENT_BYTES,
            extent: ExtentItem {
                refs: *refs,
                generation: Generation::new(2),
                flags: 1,
            },
        }),
        _ => None,
    }
}

/// Tells the image a little more.
fn tell(alloc: Global, image: &mut Image, verb: &str, text: &str) -> Result<(), Fault> {
    if verb == "ref" {
        let (at, reference) = first_word(text);
        let address = match numbers_of(alloc, at)?.as_slice() {
            [at] => Address::new(*at),
            _ => return Err(Fault::Call),
        };
        let reference = reference_of(alloc, reference)?;
        let count = 1;
        return put_part(
            image,
            ExtentPart::Referenced {
                address,
                reference,
                count,
            },
        );
    }
    let numbers = numbers_of(alloc, text)?;
    match (verb, numbers.as_slice()) {
        ("fresh", []) => *image = Image::new(alloc),
        ("root", [sub, at]) => image.roots.push((RootId::new(*sub), Address::new(*at)))?,
        ("leaf", [at, owner, pieces @ ..]) => {
            put_node(image, leaf(alloc, *at, *owner, pieces)?, false)?;
        }
        ("full-leaf", [at, owner, pieces @ ..]) => {
            put_node(image, leaf(alloc, *at, *owner, pieces)?, true)?;
        }
        ("other-leaf", [at, owner, pieces @ ..]) => {
            image
                .nodes
                .push((leaf(alloc, *at, *owner, pieces)?, false))?;
        }
        ("inner", [at, level, owner, children @ ..]) => {
            put_node(image, inner(alloc, *at, *level, *owner, children)?, false)?;
        }
        ("full-inner", [at, level, owner, children @ ..]) => {
            put_node(image, inner(alloc, *at, *level, *owner, children)?, true)?;
        }
        ("forget", [at]) => image.parts.retain(|part| address_of(part).value() != *at),
        (verb, numbers) => match record_of(verb, numbers) {
            Some(part) => put_part(image, part)?,
            None => return Err(Fault::Call),
        },
    }
    Ok(())
}

/// Whether what items say ascends by address.
fn do_parts_ascend(parts: &[ExtentPart]) -> bool
    ensures { IsTrue result → IsNonDecreasingBy part_address parts.now }
{
    for i in 1..parts.len() {
        if address_of(&parts[i]) < address_of(&parts[i - 1]) {
            return false;
        }
    }
    true
}

/// Whether roots ascend by the numbers of their subvolumes.
fn do_roots_ascend(roots: &[(RootId, Address)]) -> bool
    ensures { IsTrue result → IsStrictlyIncreasing (keys_of roots.now) }
{
    for i in 1..roots.len() {
        if roots[i].0 <= roots[i - 1].0 {
            return false;
        }
    }
    true
}

/// Whether nodes ascend by address.
fn do_nodes_ascend(nodes: &[Linked]) -> bool
    ensures { IsTrue result → IsStrictlyIncreasing (map (λ node. node.address) nodes.now) }
{
    for i in 1..nodes.len() {
        if nodes[i].address <= nodes[i - 1].address {
            return false;
        }
    }
    true
}

/// What the rule `home` needs of each node.
fn links_of(alloc: Global, image: &Image) -> Result<Vec<Linked>, Fault>
    ensures { IfOk result (λ links. IsStrictlyIncreasing (map (λ node. node.address) links.items)) }
{
    let mut links = Vec::new(alloc);
    for (node, full) in &image.nodes {
        links.push(linked_of(alloc, node, *full)?)?;
    }
    if !do_nodes_ascend(&links) {
        return Err(Fault::Unmet);
    }
    Ok(links)
}

/// Adds what roots owe.
fn add_roots(roots: &[(RootId, Address)], owings: &mut Vec<Owing>) -> Result<(), Fault> {
    for (sub, at) in roots {
        let Owing { address, reference } = owing_of_root(*sub, *at);
        owings.push(Owing { address, reference })?;
    }
    Ok(())
}

/// Adds what nodes owe.
fn add_owings(nodes: &[(Node, bool)], owings: &mut Vec<Owing>) -> Result<(), Fault> {
    for (node, full) in nodes {
        owings_of_node(node, *full, owings)?;
    }
    Ok(())
}

/// Adds nodes to what is there.
fn add_nodes(nodes: &[(Node, bool)], things: &mut Vec<Thing>) -> Result<(), Fault> {
    for (node, full) in nodes {
        let Thing { address, kind } = thing_of_node(&node.header(), *full);
        things.push(Thing { address, kind })?;
    }
    Ok(())
}

/// What is there: all nodes, and the extent that they name.
fn things_of(alloc: Global, image: &Image, extents: &[Element]) -> Result<Vec<Thing>, Fault>
    ensures { IfOk result (λ things. IsNonDecreasingBy (λ thing. thing.address) things.items) }
{
    let mut things = Vec::new(alloc);
    add_nodes(&image.nodes, &mut things)?;
    if let Some(extent) = extents.first() {
        let Thing { address, kind } = thing_of_extent(extent);
        things.push(Thing { address, kind })?;
    }
    sort_things(&mut things)?;
    Ok(things)
}

/// The nodes, as a walk gathers them.
fn gathered(alloc: Global, image: &Image) -> Result<NodesRead, Fault> {
    let mut read = NodesRead::new(alloc);
    for (node, _) in &image.nodes {
        NodeList::push(&mut read, node)?;
    }
    Ok(read)
}

/// Where the nodes lie, in the order of the walk.
fn told_addresses(alloc: Global, read: &NodesRead) -> Result<String, Fault> {
    let mut answer = String::new(alloc);
    for at in read.addresses(alloc)?.as_slice() {
        add_word(&mut answer, format!(in alloc; "{}", at.value())?.as_str())?;
    }
    Ok(answer)
}

/// The extents that leaves name: where each lies, and its length.
fn told_extents(alloc: Global, read: &NodesRead) -> Result<String, Fault> {
    let mut answer = String::new(alloc);
    for extent in read.extents(alloc)?.as_slice() {
        let (at, bytes) = (extent.address.value(), extent.bytes);
        add_word(&mut answer, format!(in alloc; "{at} {bytes}")?.as_str())?;
    }
    Ok(answer)
}

/// The rule that is broken, and where.
fn rule_and_place(failure: Failure) -> Result<(Rule, u64), Fault> {
    match failure {
        Failure::Broken { rule, address } => Ok((rule, address.value())),
        Failure::Differs { .. } => Err(Fault::Failed),
    }
}

/// The rule that is broken, and where, or none.
fn told_failure(alloc: Global, failure: Option<Failure>) -> Result<String, Fault> {
    let Some(failure) = failure else {
        return told(alloc, "none");
    };
    let (rule, at) = rule_and_place(failure)?;
    Ok(format!(in alloc; "{rule:?} {at}")?)
}

/// Where a book is broken.
fn broken_at(fault: RefsFault) -> Result<u64, Fault> {
    match fault {
        RefsFault::Broken(at) => Ok(at.value()),
        RefsFault::NoMemory => Err(Fault::NoMemory),
    }
}

/// An item of the book that is read of what other items say, or where it is broken.
fn told_book(alloc: Global, parts: &[ExtentPart], index: u64) -> Result<String, Fault>
    requires { IsNonDecreasingBy part_address parts.now }
{
    match Extents::read(alloc, 4096, parts) {
        Ok(extents) => told_item(alloc, &extents.items(alloc)?, index),
        Err(fault) => told_number(alloc, Some(broken_at(fault)?)),
    }
}

/// An item of the book that the image's records tell.
fn read(alloc: Global, image: &Image, numbers: &[u64]) -> Result<String, Fault> {
    if !do_parts_ascend(&image.parts) {
        return Err(Fault::Unmet);
    }
    match numbers {
        [index] => told_book(alloc, &image.parts, *index),
        _ => Err(Fault::Call),
    }
}

/// What the rules say of the image, by the nodes as a walk gathers them.
fn judge_gathered(alloc: Global, image: &Image) -> Result<String, Fault> {
    let (roots, parts) = (image.roots.as_slice(), image.parts.as_slice());
    if !do_parts_ascend(parts) || !do_roots_ascend(roots) {
        return Err(Fault::Unmet);
    }
    let read = gathered(alloc, image)?;
    let extents = read.extents(alloc)?;
    match judge_references(alloc, read, roots, extents.as_slice(), parts)? {
        ReferenceVerdict::Breaks(failure) => told_failure(alloc, Some(failure)),
        ReferenceVerdict::Keeps(_) => told(alloc, "none"),
    }
}

/// What the rules say of the image.
fn judge(alloc: Global, image: &Image, verb: &str) -> Result<String, Fault> {
    let (roots, parts) = (image.roots.as_slice(), image.parts.as_slice());
    if !do_parts_ascend(parts) || !do_roots_ascend(roots) {
        return Err(Fault::Unmet);
    }
    let extents = gathered(alloc, image)?.extents(alloc)?;
    let things = things_of(alloc, image, extents.as_slice())?;
    let mut owings = Vec::new(alloc);
    add_roots(roots, &mut owings)?;
    add_owings(&image.nodes, &mut owings)?;
    if verb == "owed" {
        let at = owed_failure(alloc, &mut owings, &things, parts)?;
        return told_number(alloc, at.map(|at| at.value()));
    }
    let links = links_of(alloc, image)?;
    if verb == "homeless" {
        let at = homeless(alloc, roots, &links)?;
        return told_number(alloc, at.map(|at| at.value()));
    }
    let failure = references_failure(alloc, &mut owings, &things, parts, roots, &links)?;
    told_failure(alloc, failure)
}

/// The subvolumes of a set.
fn told_members(
    alloc: Global,
    image: &Image,
    reached: &Reached,
    set: SetId,
) -> Result<String, Fault> {
    let mut answer = String::new(alloc);
    for index in reached.members(alloc, set, image.roots.len())?.as_slice() {
        if let Some((sub, _)) = image.roots.get(*index) {
            add_word(&mut answer, format!(in alloc; "{}", sub.value())?.as_str())?;
        }
    }
    Ok(answer)
}

/// The union of two sets, unless it is made twice.
fn told_union(
    alloc: Global,
    image: &Image,
    reached: &mut Reached,
    sets: [SetId; 2],
) -> Result<String, Fault> {
    let set = reached.union(alloc, &sets)?;
    let count = reached.count();
    if reached.union(alloc, &sets)? != set || reached.count() != count {
        return told(alloc, "made twice");
    }
    told_members(alloc, image, reached, set)
}

/// Who reaches the nodes.
fn reach(alloc: Global, image: &Image, verb: &str, places: &[u64]) -> Result<String, Fault> {
    let links = links_of(alloc, image)?;
    let mut reached = reached_from(alloc, &image.roots, &links)?;
    match (verb, places) {
        ("sets", []) => told_number(alloc, Some(reached.count() as u64)),
        ("members", [place]) => {
            told_members(alloc, image, &reached, reached.set_of(*place as usize))
        }
        ("same-set", [place, other]) => {
            let (set, other) = (
                reached.set_of(*place as usize),
                reached.set_of(*other as usize),
            );
            told_if(alloc, set == other)
        }
        ("union", [place, other]) => {
            let sets = [
                reached.set_of(*place as usize),
                reached.set_of(*other as usize),
            ];
            told_union(alloc, image, &mut reached, sets)
        }
        _ => Err(Fault::Call),
    }
}

/// Makes a call.
pub(crate) fn answer(
    alloc: Global,
    image: &mut Image,
    verb: &str,
    text: &str,
) -> Result<String, Fault> {
    match verb {
        "judge" => judge_gathered(alloc, image),
        "read" => read(alloc, image, &numbers_of(alloc, text)?),
        "homeless" | "owed" | "references" => judge(alloc, image, verb),
        "sets" | "members" | "same-set" | "union" => {
            reach(alloc, image, verb, &numbers_of(alloc, text)?)
        }
        "addresses" => told_addresses(alloc, &gathered(alloc, image)?),
        "extents" => told_extents(alloc, &gathered(alloc, image)?),
        _ => {
            tell(alloc, image, verb, text)?;
            told(alloc, "done")
        }
    }
}
