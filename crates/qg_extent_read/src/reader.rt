// Who takes items of the extent tree.
use qg_node::Item;
use qg_num::NoMemory;

/// What is kept of items of the extent tree that are taken one after another (this project's own).
pub trait ItemReader: Sized {
    ghost use Rattle.std.specs.Prelude.{◌≡◌, OnOk};
    ghost use Rattle.qg_node.specs.declared.item.Item.{Item as ItemValue};

    /// What it is once it has taken one more.
    ghost after: { Self → ItemValue → Self };

    /// Takes one more.
    fn take(&mut self, item: &Item) -> Result<(), NoMemory>
        ensures { OnOk result (self.new ≡ after self.old item.now) };
}
