// What the text of a superblock and the reading of bytes are to each other.
ghost use Rattle.qg_super.specs.Laws.{OnePlace, OneSuper, ReadsBack, WritesBack};

/// A law: a superblock is read from its text, and bytes that are read as one are its text. So bytes are the text of one
/// superblock for one place at most (this project's own).
pub fn round_trips()
    ensures reads_back { ReadsBack }
    ensures writes_back { WritesBack }
    ensures one_super { OneSuper }
    ensures one_place { OnePlace }
{}
