//! The small tenders of the trade, worked from the definitions alone.
ghost use Rattle.clearing.specs.Tenders.{SmallTenders, FebruaryOpens};

/// Each small tender of the table has the award that stands there, or none, and its month is that of the calendar.
pub fn small_tenders()
    ensures table { SmallTenders }
    ensures calendar { FebruaryOpens }
{}
