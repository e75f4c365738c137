//! Laws of books. Each function does nothing: its contract is the law.

ghost use Rattle.std.specs.Prelude.{[], ℕ, List};
ghost use Rattle.fs_types.specs.Pieces.{Fragment};
ghost use Rattle.owner_book.specs.Journals.{CommittedStands, CreatedStands, FrozenByTheLast};
ghost use Rattle.owner_book.specs.Journals.{LaminatedStands, LentStands, LookedStands};
ghost use Rattle.owner_book.specs.Journals.{ReplicaShows, StandsFor, TruncatedStands};
ghost use Rattle.owner_book.specs.Journals.{UnlinkedStands};
ghost use Rattle.owner_book.specs.Kept.{no_path};
ghost use Rattle.owner_book.specs.LookupLaws.{PartsAreInRange, PiecesAreOfRange, PinsAreOfRange};
ghost use Rattle.owner_book.specs.Lookups.{NameRange, parts_in};

use fs_types::Hold;

/// A path's file is the state of its journal: the marks of its bytes are those that the lines of
/// the journal make, in their order, from none, over all lives of the path; and it is frozen exactly
/// where the last line laminated it. A look-up adds no line and keeps that so, as does whatever is
/// left behind the loan of a hold; and a replica of a frozen file shows that state.
pub fn files_are_states_of_their_journals<H: Hold>()
    ensures none { StandsFor [] (no_path {H = H}) }
    ensures created { CreatedStands H }
    ensures committed { CommittedStands H.piece }
    ensures truncated { TruncatedStands H.piece }
    ensures laminated { LaminatedStands H.piece }
    ensures unlinked { UnlinkedStands H }
    ensures frozen { FrozenByTheLast H }
    ensures looked { LookedStands H.Hold }
    ensures lent { LentStands H }
    ensures replicated { ReplicaShows H.Hold }
{}

/// What a look-up finds names exactly the marked bytes of its range: at each place of the range the
/// parts have the mark that the file's fragments have there, and at no other place any.
pub fn lookups_name_the_marks_of_their_range()
    ensures { (from to : ℕ) (fs : List Fragment) → NameRange from to fs (parts_in from to fs) }
{}

/// What a look-up finds stands within its range in order of place, each part before the next. The
/// pieces that it names are those of which bytes stand in the range, each once, and so are those of
/// its pins with the bare ones.
pub fn lookups_find_each_piece_of_their_range_once<H: Hold>()
    ensures parts { PartsAreInRange }
    ensures pieces { PiecesAreOfRange }
    ensures pins { PinsAreOfRange H.Hold }
{}
