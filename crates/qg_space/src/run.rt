// A run of sectors, kept small: there is one for each extent of an image.
ghost use Rattle.std.specs.Prelude.{◌≡◌};
ghost use Rattle.qg_space.specs.Run.{FitsRun};

use qg_image::Element;
use qg_num::Address;
use qg_super::{DATA_BEGIN, SECTOR};
use std::marker::Model;

/// A run of whole sectors, and what holds it. A contract sees its extent in bytes.
#[derive(Clone, Copy)]
pub(crate) struct Run {
    // The number of its first sector in the data area, and how many sectors it has.
    first: u32,
    sectors: u32,
    present: bool,
    held: bool,
}

const _: () = prove!(size_of::<Run>() == 12);

impl Model for Run {
    ghost use Rattle.qg_space.specs.Run.{Run};

    ghost Value = { Run };

    ghost use Rattle.qg_space.specs.Fields.{seen, kept, kept-seen};

    ghost view = { seen };

    ghost inverse = { kept };

    ghost inverse_ok = { λ r h. kept-seen r };
}

impl Run {
    /// The run of an extent, held by the present state or not, and by the last commit or not.
    pub(crate) fn new(extent: &Element, present: bool, held: bool) -> Run
        requires { FitsRun extent.now }
        ensures { result ≡ record { extent = extent.now; present = present; held = held } }
    {
        Run {
            first: ((extent.address.value() - DATA_BEGIN) / SECTOR) as u32,
            sectors: (extent.bytes / SECTOR) as u32,
            present,
            held,
        }
    }

    /// Where it lies, and its length in bytes.
    pub(crate) fn extent(&self) -> Element
        ensures { result ≡ self.now.extent }
    {
        Element {
            address: Address::new(DATA_BEGIN + self.first as u64 * SECTOR),
            bytes: self.sectors as u64 * SECTOR,
        }
    }

    /// Whether the present state holds it.
    pub(crate) fn is_present(&self) -> bool
        ensures { result ≡ self.now.present }
    {
        self.present
    }

    /// Whether the last commit holds it.
    pub(crate) fn is_held(&self) -> bool
        ensures { result ≡ self.now.held }
    {
        self.held
    }

    /// The present state holds it, or doesn't.
    pub(crate) fn set_present(&mut self, present: bool)
        ensures { self.new ≡ record self.old { present = present } }
    {
        self.present = present;
    }

    /// The last commit holds it, or doesn't.
    pub(crate) fn set_held(&mut self, held: bool)
        ensures { self.new ≡ record self.old { held = held } }
    {
        self.held = held;
    }
}
