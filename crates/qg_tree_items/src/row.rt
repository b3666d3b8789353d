// Rows of items.
ghost use Rattle.std.specs.Prelude.{◌≡◌, List, [], ◌∷◌, ◌++◌, map, IsTrue};
ghost use Rattle.qg_node.specs.Nodes.{is_ascending};
ghost use Rattle.qg_image.specs.declared.part.FilePart.{FilePart};
ghost use Rattle.qg_image.specs.FilesOf.{are_files};
ghost use Rattle.qg_tree_items.specs.Keys.{file_key};
ghost use Rattle.qg_tree_items.specs.Rows.{ArePieces, HasEnds, IsToldOf, Tells};

use crate::last::LastFile;
use crate::run::PieceRun;
use qg_image::FilePart;

/// What the rule `file` needs of a row of a subvolume's items, such as a leaf's (this project's own).
///
/// Its size is the same however long the row is. Two rows that stand one behind the other make one.
#[derive(Clone, Copy)]
pub struct FileRow {
    // None where no sound files have these items in a row.
    ends: Option<Ends>,
}

// The ends of a row whose files within are sound.
#[derive(Clone, Copy)]
struct Ends {
    // The pieces before the first INODE_ITEM.
    before: Option<PieceRun>,
    // The last INODE_ITEM, and the pieces behind it.
    last: Option<LastFile>,
}

impl FileRow {
    /// A row of no items.
    pub fn empty() -> FileRow
        ensures { Tells result [] }
    {
        FileRow {
            ends: Some(Ends {
                before: None,
                last: None,
            }),
        }
    }

    /// Puts an item behind the row.
    pub fn push(&mut self, part: &FilePart)
        ensures { (parts : List FilePart) → Tells self.old parts
            → IsTrue (is_ascending (map file_key (parts ++ part.now ∷ [])))
            → Tells self.new (parts ++ part.now ∷ []) }
    {
        *self = self.join(&FileRow::of(part));
    }

    /// The row, and behind it another.
    pub fn join(&self, behind: &FileRow) -> FileRow
        ensures { (xs ys : List FilePart) → Tells self.now xs → Tells behind.now ys
            → IsTrue (is_ascending (map file_key (xs ++ ys))) → Tells result (xs ++ ys) }
    {
        let Some(front) = &self.ends else {
            return FileRow { ends: None };
        };
        let Some(rest) = &behind.ends else {
            return FileRow { ends: None };
        };
        FileRow {
            ends: front.joined(rest),
        }
    }

    /// Whether the items fit each other, where the row is all items of a subvolume (rule `file`).
    pub fn are_files(&self) -> bool
        ensures { (parts : List FilePart) → Tells self.now parts → IsTrue (is_ascending (map file_key parts))
            → result ≡ are_files parts }
    {
        match &self.ends {
            None => false,
            Some(ends) => ends.are_files(),
        }
    }

    // A row of one item.
    fn of(part: &FilePart) -> FileRow
        ensures { Tells result (part.now ∷ []) }
    {
        FileRow {
            ends: Ends::of(part),
        }
    }
}

impl Ends {
    // Those of a row of one item; none where no sound file has it.
    fn of(part: &FilePart) -> Option<Ends>
        ensures { IsToldOf HasEnds result (part.now ∷ []) }
    {
        match part {
            FilePart::Inode { ino, inode } => Some(Ends {
                before: None,
                last: Some(LastFile::of(*ino, inode)),
            }),
            FilePart::PieceOf { ino, piece } => {
                let run = PieceRun::of(*ino, piece)?;
                Some(Ends {
                    before: Some(run),
                    last: None,
                })
            }
        }
    }

    // Those of the row, and behind it of another; none where no sound files have both.
    fn joined(&self, behind: &Ends) -> Option<Ends>
        ensures { (xs ys : List FilePart) → HasEnds self.now xs → HasEnds behind.now ys
            → IsTrue (is_ascending (map file_key (xs ++ ys))) → IsToldOf HasEnds result (xs ++ ys) }
    {
        let Some(last) = &self.last else {
            return behind.behind_pieces(&self.before);
        };
        let last = last.joined(&behind.before)?;
        let Some(next) = behind.last else {
            return Some(Ends {
                before: self.before,
                last: Some(last),
            });
        };
        if last.is_whole() {
            Some(Ends {
                before: self.before,
                last: Some(next),
            })
        } else {
            None
        }
    }

    // Those of pieces, and behind them of the row; none where no sound files have both.
    fn behind_pieces(&self, pieces: &Option<PieceRun>) -> Option<Ends>
        ensures { (xs ys : List FilePart) → ArePieces pieces.now xs → HasEnds self.now ys
            → IsToldOf HasEnds result (xs ++ ys) }
    {
        let Some(front) = pieces else {
            return Some(*self);
        };
        let before = match &self.before {
            None => *front,
            Some(rest) => front.joined(rest)?,
        };
        Some(Ends {
            before: Some(before),
            last: self.last,
        })
    }

    // Whether the items are those of sound files.
    fn are_files(&self) -> bool
        ensures { (parts : List FilePart) → HasEnds self.now parts → IsTrue (is_ascending (map file_key parts))
            → result ≡ are_files parts }
    {
        match (&self.before, &self.last) {
            (Some(_), _) => false,
            (None, None) => true,
            (None, Some(file)) => file.is_whole(),
        }
    }
}
