// What writing and reading quota are to each other.
ghost use Rattle.qg_quota.specs.Laws.{ItemsAreWrittenBack, QuotaIsReadBack, QuotaIsTaken};

/// A law: what is written of quota is read as that quota, and breaks no rule where the quota serves the live subvolumes
/// (this project's own).
pub fn quota_is_read_back()
    ensures told { QuotaIsReadBack }
    ensures taken { QuotaIsTaken }
{}

/// A law: items that break no rule are those that are written of the quota that they tell (this project's own).
pub fn items_are_written_back()
    ensures { ItemsAreWrittenBack }
{}
