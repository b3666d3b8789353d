// What reading a node and its text are to each other.
ghost use Rattle.qg_node.specs.Laws.{FillsItsSize, OneNode, ReadsBack, ReadsTexts};

/// A law: bytes are read as a node exactly where they are its text, a node is read from its text, and bytes are the
/// text of one node at most (this project's own).
pub fn round_trips()
    ensures reads_texts { ReadsTexts }
    ensures reads_back { ReadsBack }
    ensures one_node { OneNode }
    ensures fills_its_size { FillsItsSize }
{}
