//! The laws of the page, each a function without a body.
ghost use Rattle.dspec_parking.specs.Laws.{BeginningKeepsPage, ExpiringKeepsPage, LeavingEndsAll, OldestGoFirst, ParkingKeepsPage, TakingKeepsPage};

/// A ring in which nothing was parked keeps the page.
pub fn beginning_keeps_page()
    ensures { BeginningKeepsPage }
{}

/// A block that is parked keeps the page: it is the newest, and what made room for it was evicted.
pub fn parking_keeps_page()
    ensures { ParkingKeepsPage }
{}

/// A block that comes out keeps the page: it was parked so, it had not ended, and now it was kept.
pub fn taking_keeps_page()
    ensures { TakingKeepsPage }
{}

/// Blocks that expire keep the page.
pub fn expiring_keeps_page()
    ensures { ExpiringKeepsPage }
{}

/// When the ring goes, each block has its one end, and the counts are their sums.
pub fn leaving_ends_all()
    ensures { LeavingEndsAll }
{}

/// All that are older than a block that was evicted, or expired, have ended.
pub fn oldest_go_first()
    ensures { OldestGoFirst }
{}
