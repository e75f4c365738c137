//! Laws of shelves. Each function does nothing: its contract is the law.

ghost use Rattle.shelf_store.specs.Deeds.{DroppedStands, LentStands, NewStands};
ghost use Rattle.shelf_store.specs.Deeds.{PutStands, SameStands};
ghost use Rattle.shelf_store.specs.Deeds.{FindsTheGreatest, FindsWhatIsAllowed};
ghost use Rattle.shelf_store.specs.Deeds.{FloorsNeverFall, VersionsNeverFall};

/// A shelf stands for what was put and dropped since it was new. The floor of each path is the
/// greatest version below which it was dropped. The replica that stands there, with its fragments
/// and holds, is the last one of the greatest version that was put there, which is at least the
/// floor; where none stands, all that were put are of versions below the floor. So it is from the
/// first, and after each call, also where memory ran out. What is left behind a loan, a replica of
/// the same path and version, counts as put.
pub fn shelves_stand_for_what_was_put_and_dropped<H>()
    ensures new { NewStands H }
    ensures put { PutStands H }
    ensures dropped { DroppedStands H }
    ensures lent { LentStands H }
    ensures same { SameStands H }
{}

/// A look-up finds a replica exactly where the front allows one of those that were put on the path:
/// one of a version at least the front, which was never dropped. What it finds is of the path, and
/// the last of those of the greatest version that were put there.
pub fn a_shelf_finds_exactly_what_a_front_allows<H>()
    ensures allowed { FindsWhatIsAllowed H }
    ensures greatest { FindsTheGreatest H }
{}

/// Whatever is put and dropped, floors never fall, and what stands on a path is of no lower version
/// than what stood there before.
pub fn floors_and_versions_never_fall<H>()
    ensures floors { FloorsNeverFall H }
    ensures versions { VersionsNeverFall H }
{}
