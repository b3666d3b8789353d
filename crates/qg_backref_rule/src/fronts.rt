// Where the first of several lists by address ends.
ghost use Rattle.std.specs.Prelude.{◌≡◌, ◌≤◌, length, nat_lt, nat_le, if◌then◌else◌};
ghost use Rattle.std.specs.List.{prefix_len};
ghost use Rattle.qg_image.specs.Owed.{part_address};
ghost use Rattle.qg_backref_rule.specs.Judged.{least_address, kind_first};

use crate::owing::Owing;
use crate::thing::{Kind, Thing};
use qg_image::ExtentPart;
use qg_num::Address;

/// The lower one of two lists' first addresses, if there is one.
pub(crate) fn least_address(things: &[Thing], parts: &[ExtentPart]) -> Option<Address>
    ensures { result ≡ least_address things.now parts.now }
{
    match (things.first(), parts.first()) {
        (Some(thing), Some(part)) => Some(lower(thing.address, address_of(part))),
        (Some(thing), None) => Some(thing.address),
        (None, Some(part)) => Some(address_of(part)),
        (None, None) => None,
    }
}

// The lower one of two addresses.
fn lower(a: Address, b: Address) -> Address
    ensures { result ≡ (if nat_le a b then a else b) }
{
    if a <= b { a } else { b }
}

/// The address of an item of the extent tree.
pub(crate) fn address_of(part: &ExtentPart) -> Address
    ensures { result ≡ part_address part.now }
{
    match part {
        ExtentPart::DataRecord { address, .. } => *address,
        ExtentPart::NodeRecord { address, .. } => *address,
        ExtentPart::Referenced { address, .. } => *address,
    }
}

/// How many owings stand in front whose address is below this one.
pub(crate) fn owings_below(owings: &[Owing], address: Address) -> usize
    ensures front { result ≡ prefix_len (λ owing. nat_lt owing.address address) owings.now }
    ensures within { result ≤ length owings.now }
{
    owings
        .iter()
        .take_while(|owing| owing.address < address)
        .count()
}

/// How many owings stand in front whose address is no higher than this one.
pub(crate) fn owings_upto(owings: &[Owing], address: Address) -> usize
    ensures front { result ≡ prefix_len (λ owing. nat_le owing.address address) owings.now }
    ensures within { result ≤ length owings.now }
{
    owings
        .iter()
        .take_while(|owing| owing.address <= address)
        .count()
}

/// The same of things.
pub(crate) fn things_upto(things: &[Thing], address: Address) -> usize
    ensures front { result ≡ prefix_len (λ thing. nat_le thing.address address) things.now }
    ensures within { result ≤ length things.now }
{
    things
        .iter()
        .take_while(|thing| thing.address <= address)
        .count()
}

/// The same of parts.
pub(crate) fn parts_upto(parts: &[ExtentPart], address: Address) -> usize
    ensures front { result ≡ prefix_len (λ part. nat_le (part_address part) address) parts.now }
    ensures within { result ≤ length parts.now }
{
    parts
        .iter()
        .take_while(|part| address_of(part) <= address)
        .count()
}

/// What the first thing is, if it is at this address.
pub(crate) fn kind_first(things: &[Thing], address: Address) -> Option<Kind>
    ensures { result ≡ kind_first things.now address }
{
    match things.first() {
        Some(thing) if thing.address == address => Some(thing.kind),
        _ => None,
    }
}
