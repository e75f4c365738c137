//! Laws about simulated runs. Each function does nothing: its contract is the law.

ghost use Rattle.core_machine.specs.RunLaws.{RunsAreLegal, LogsHoldExactly};
ghost use Rattle.core_machine.specs.RunLaws.{FreeIsWhatIsLeft, HeldIsExact};
ghost use Rattle.core_machine.specs.RunLaws.{NoSpaceIsExact, AnswersWereGiven, GivenAnswersStand};

/// What a run reports when no client has an event left is legal.
pub fn runs_are_legal()
    ensures { RunsAreLegal }
{}

/// At each moment of a run each client's log holds exactly the client's pieces that are held, each
/// in one slot.
pub fn logs_hold_exactly()
    ensures { LogsHoldExactly }
{}

/// As many slots of a log are free as the held pieces leave.
pub fn free_is_what_is_left()
    ensures { FreeIsWhatIsLeft }
{}

/// When no client has an event left, each log holds as many pieces as its client has live and
/// pending.
pub fn held_is_exact()
    ensures { HeldIsExact }
{}

/// An event is answered with no space exactly where its line is a write that nothing else refuses,
/// and that needs more slots than the held pieces leave.
pub fn no_space_is_exact()
    ensures { NoSpaceIsExact }
{}

/// Each answer that stands at a moment of a run was given by the event of its line, when its client
/// had its turn; and each that was given so stands from then on.
pub fn answers_were_given()
    ensures given { AnswersWereGiven }
    ensures stand { GivenAnswersStand }
{}
