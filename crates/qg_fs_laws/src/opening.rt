// Laws that lead from a sound image that was just opened to trees that are kept of its state.
ghost use Rattle.qg_fs_laws.specs.OpeningLaws.{
  OpenedIsKept,
  OpenedIsRecorded,
  OpenedNamesOthers,
  SoundImageHoldsOthers,
  SoundImageIsKnown,
};

/// A law: what trees that are made of a sound image ask of it is known, and its other trees hold what they may (this
/// project's own).
pub fn sound_image_is_known()
    ensures known { SoundImageIsKnown }
    ensures others { SoundImageHoldsOthers }
{}

/// A law: the trees that are made of a sound image that was just opened are kept of the state which the image stands
/// for, and their book is what the last commit recorded (this project's own).
pub fn opened_is_kept()
    ensures kept { OpenedIsKept }
    ensures recorded { OpenedIsRecorded }
    ensures names { OpenedNamesOthers }
{}
