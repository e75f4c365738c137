//! Laws of the marks of fragments. Each function is empty: its contract is the law.

ghost use Rattle.span_list.specs.MarkLaws.{CutsMarks, PutsMarks};
ghost use Rattle.span_list.specs.MarkLaws.{NextHasItsMarks, NoneAfterLast, NoneBeforeNext};

/// What is put stands where it was put, and every other place keeps its mark. After a cut each
/// place before it keeps its mark, and no place from there on has one.
pub fn putting_and_cutting_are_by_place()
    ensures put { PutsMarks }
    ensures cut { CutsMarks }
{}

/// A look-up finds what stands next: no mark is passed over.
pub fn look_ups_pass_no_mark()
    ensures before { NoneBeforeNext }
    ensures within { NextHasItsMarks }
    ensures none { NoneAfterLast }
{}
