//! Laws of answers, of overwriting, and of paths and names. Each function is empty: its contract is
//! the law.

ghost use Rattle.std.specs.Prelude.{ℕ};
ghost use Rattle.fs_types.specs.AnswerLaws.{AnswersDecideTheList, GivenAnswersRise};
ghost use Rattle.fs_types.specs.AnswerLaws.{PutsAboveAtEnd, PutsInOrder, PutsOneAnswer};
ghost use Rattle.fs_types.specs.Marks.{no_mark};
ghost use Rattle.fs_types.specs.OverwriteLaws.{CutsFirstPlaces, OverwritesByPlace, ShowsRange};
ghost use Rattle.fs_types.specs.PathLaws.{MountedTextsArePaths, PathsAreMountedTexts};
ghost use Rattle.fs_types.specs.PathLaws.{NamesAreVisible, NamesHaveBounds};
ghost use Rattle.fs_types.specs.PathLaws.{PathsAreNames, PathsHaveBounds};

/// Answers are put one by one, and are kept in the order of their lines.
#[tactic(auto, using(crate::proofs::AnswerOrder::answers_in_a_table))]
pub fn answers_are_a_table()
    ensures one { PutsOneAnswer }
    ensures in_order { PutsInOrder }
    ensures rising { GivenAnswersRise }
    ensures at_end { PutsAboveAtEnd }
    ensures decided { AnswersDecideTheList }
{}

/// What is put over a list stands where it was put, and every other place keeps what it had. This
/// and the next two laws hold for bytes and for marks alike.
pub fn overwriting_is_by_place()
    ensures bytes { OverwritesByPlace {X = ℕ} 0 }
    ensures marks { OverwritesByPlace no_mark }
{}

/// A list that is cut to n places has n places, and each has what it had, or a blank.
pub fn cutting_leaves_the_first_places()
    ensures bytes { CutsFirstPlaces {X = ℕ} 0 }
    ensures marks { CutsFirstPlaces no_mark }
{}

/// What is shown from a place on are the places from there on, and none past the end.
pub fn showing_gives_a_range()
    ensures bytes { ShowsRange {X = ℕ} 0 }
    ensures marks { ShowsRange no_mark }
{}

/// A path is the mount point and components with a slash between each two.
#[tactic(auto, using(crate::proofs::PathsAndNames::mounted_texts))]
pub fn paths_are_mounted_texts()
    ensures mounted { PathsAreMountedTexts }
    ensures path { MountedTextsArePaths }
    ensures bounds { PathsHaveBounds }
{}

/// A name is a short text with no space and no end of line, and a path is a name.
#[tactic(auto, using(crate::proofs::PathsAndNames::name_from_path))]
pub fn names_are_visible_texts()
    ensures path { PathsAreNames }
    ensures bounds { NamesHaveBounds }
    ensures visible { NamesAreVisible }
{}
