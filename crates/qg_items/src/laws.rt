// What reading and writing a body are to each other.
ghost use Rattle.qg_items.specs.ItemText.{inode_text, extent_data_text, root_text, extent_text, data_ref_text};
ghost use Rattle.qg_items.specs.ItemText.{shared_data_ref_text, status_text, info_text, limit_text};
ghost use Rattle.qg_items.specs.ItemReading.{inode_read, extent_data_read, root_read, extent_read, data_ref_read};
ghost use Rattle.qg_items.specs.ItemReading.{shared_data_ref_read, status_read, info_read, limit_read};
ghost use Rattle.qg_items.specs.Laws.{RoundTrips, InodeFits, ExtentDataFits, RootFits, ExtentFits, DataRefFits};
ghost use Rattle.qg_items.specs.Laws.{SharedDataRefFits, StatusFits, InfoFits, LimitFits};

/// A law: an item whose numbers fit is read from its text, and bytes that are read as an item are its text. So an item
/// has one text, and bytes are the text of one item at most (this project's own).
pub fn round_trips()
    ensures inode { RoundTrips InodeFits inode_text inode_read }
    ensures extent_data { RoundTrips ExtentDataFits extent_data_text extent_data_read }
    ensures root { RoundTrips RootFits root_text root_read }
    ensures extent { RoundTrips ExtentFits extent_text extent_read }
    ensures data_ref { RoundTrips DataRefFits data_ref_text data_ref_read }
    ensures shared_data_ref { RoundTrips SharedDataRefFits shared_data_ref_text shared_data_ref_read }
    ensures status { RoundTrips StatusFits status_text status_read }
    ensures info { RoundTrips InfoFits info_text info_read }
    ensures limit { RoundTrips LimitFits limit_text limit_read }
{}
