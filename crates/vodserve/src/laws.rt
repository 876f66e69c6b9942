//! Laws over what `run` promises: each is true for every run.

ghost use Rattle.std.specs.Prelude.{◌≡◌, ℕ, List, Option};
ghost use Rattle.cli_args.specs.Invocations.{ClientParams, check_of};
ghost use Rattle.plan_cert.specs.declared.Segment.{Segment};
ghost use Rattle.cli_errors.specs.declared.errors.InputError.{InputError};
ghost use Rattle.vod_base.specs.IoState.{File};
ghost use Rattle.offline_commands.specs.OfflineCommands.{IsChecked, IsInputRefused, IsPlanned};
ghost use Rattle.offline_commands.specs.OfflineCommands.{IsPlanRefused};
ghost use Rattle.vodserve.specs.Laws.{ValidInputSucceeds, EachConnectionIsReturned, DayIsUnique};
ghost use Rattle.vodserve.specs.Laws.{SentIsBookedAfterEachLine};
ghost use Rattle.vodserve.specs.Laws.{NoConnectionIsLeftOut, RunPrintsItsDay};
ghost use Rattle.vodserve.specs.Laws.{EveryConnectionIsCorrect, RefusedFilmsAreNotServed};
ghost use Rattle.vodserve.specs.Laws.{AcceptedFilmsAreServed, ReportsMatchJournal};

/// A law: if no I/O error occurs, each command except `watch` completes on inputs that are
/// accepted. It ends with status 0, or `check` with 1 where it refuses the certificate, and its
/// complete text is written; or it ends with 6 (out of memory).
pub fn law_valid_input_succeeds()
    ensures { ValidInputSucceeds }
{}

/// A law: a server whose films are accepted serves, if no I/O error occurs and memory is found.
/// Where one of its films is refused, it does nothing.
pub fn law_accepted_films_are_served()
    ensures accepted { AcceptedFilmsAreServed }
    ensures refused { RefusedFilmsAreNotServed }
{}

/// A law: where the workers ran, the gate was opened as the arguments say, and each part of it got
/// back every connection that it gave. With status 0 each part gave connections until it had no
/// more.
pub fn law_every_connection_is_returned()
    ensures each_back { EachConnectionIsReturned }
    ensures none_out { NoConnectionIsLeftOut }
{}

/// A law: with every status except 6 each receipt of a report has its entry in the journal of
/// `Ended`: the one at its place, of the seat of the report's worker, with its answer.
pub fn law_reports_match_journal()
    ensures { ReportsMatchJournal }
{}

/// A law: where the workers ran, each connection that a part of the gate gave was served over the
/// films of the library, as its own report in `Ended` says. What its seat made and had seen is in
/// the journal. Throughout the connection each play was sent between its client's two curves with
/// the least excess; a play was refused only for a slot without room or for a full journal; and no
/// slot was booked above its capacity. The workers ran where the status is 0 or 5, and where it is
/// 7 and as many parts as workers were split from the gate.
pub fn law_every_connection_is_correct()
    ensures { EveryConnectionIsCorrect }
{}

/// A law: a trace or film that a library holds has one plan and one text of it, and isn't also
/// refused. So the output is a function of the input, and status 3 comes only where there is no
/// plan.
pub fn law_plan_is_unique()
    ensures once { (held : List File) (viewer : ClientParams) (text text' : List ℕ)
        (plan plan' : Option (List Segment)) → IsPlanned held viewer text plan →
        IsPlanned held viewer text' plan' → (text ≡ text') × (plan ≡ plan') }
    ensures not_refused { (held : List File) (viewer : ClientParams) (text : List ℕ)
        (plan : Option (List Segment)) (fault : InputError) → IsPlanned held viewer text plan →
        IsPlanRefused held viewer fault → ⊥ }
{}

/// A law: a certificate of a trace or film that a library holds has one verdict, a status and a
/// line, and neither of the two is refused.
pub fn law_verdict_is_unique()
    ensures once { (held : List File) (viewer : ClientParams) (cert : List ℕ) (status status' : ℕ)
        (text text' : List ℕ) → IsChecked held viewer cert status text →
        IsChecked held viewer cert status' text' → (status ≡ status') × (text ≡ text') }
    ensures not_refused { (held : List File) (viewer : ClientParams) (cert : List ℕ) (status : ℕ)
        (text name : List ℕ) (fault : InputError) → IsChecked held viewer cert status text →
        IsInputRefused (check_of viewer cert) held name fault → ⊥ }
{}

/// A law: a script's day comes to a moment after each of its lines. What the clients are sent from
/// there up to any later slot is what is booked in those slots, and no more than their capacity.
pub fn law_day_sends_what_is_booked()
    ensures { SentIsBookedAfterEachLine }
{}

/// A law: a script that a library holds, with the films and traces that it names, has one day: one
/// text and one journal. What a run of the script writes and leaves is that.
pub fn law_day_is_unique()
    ensures once { DayIsUnique }
    ensures ran { RunPrintsItsDay }
{}
