// What the trees of a commit weigh, what state they tell, and what an image stands for that holds them.
ghost use Rattle.qg_other_trees.specs.Laws.{
  CommitIsSound,
  ItemsWeigh,
  ItemsWeighWithin,
  LayoutIsFound,
  LayoutIsWalked,
  OtherTreesTell,
  OwesWhatBegins,
};

/// A law: the items of a book of references weigh what the records do that they name, each once, and no more than the
/// records of a layout that the book knows, in bytes (this project's own).
pub fn items_weigh_as_records()
    ensures weigh { ItemsWeigh }
    ensures within { ItemsWeighWithin }
{}

/// A law: where the root, extent and quota trees of a commit were laid out, and a state is the one that they were laid
/// out for, they are the other trees of that state, and the extent tree records exactly what its layout owes (this
/// project's own).
pub fn other_trees_tell_the_state()
    ensures tell { OtherTreesTell }
{}

/// A law: what the layout of a whole state owes is owed to a node or a data extent that begins in it (this project's
/// own).
pub fn whole_owes_what_begins()
    ensures begins { OwesWhatBegins }
{}

/// A law: where each node of a whole layout stands at its address in an image, a subvolume's tree breaks no rule there,
/// and the items and nodes found are those of the layout (this project's own).
pub fn layout_is_walked_in_the_image()
    ensures walked { LayoutIsWalked }
    ensures found { LayoutIsFound }
{}

/// A law: an image that holds the trees of a commit and the nodes of the state's layout breaks none of the rules, and
/// stands for the state that the commit leaves (this project's own).
pub fn commit_is_sound()
    ensures sound { CommitIsSound }
{}
