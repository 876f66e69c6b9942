//! Laws of the machine and of its histories.

ghost use Rattle.std.specs.Prelude.{◌≡◌, ◌+◌, ◌<◌, ◌≤◌, ◌++◌, [], ◌∷◌, ℕ, List, All, Some, ◌==◌};
ghost use Rattle.std.specs.Prelude.{filter, count_by, false, length, map, max, slice_index_or};
ghost use Rattle.std.specs.Prelude.{take, true};
ghost use Rattle.plan_cert.specs.declared.Segment.{Segment};
ghost use Rattle.slot_calendar.specs.Plays.{asked_at, released_at};
ghost use Rattle.slot_calendar.specs.declared.profiles.CapStep.{CapStep};
ghost use Rattle.slot_calendar.specs.Profiles.{capacity_at};
ghost use Rattle.admission.specs.declared.entries.Command.{Command};
ghost use Rattle.admission.specs.declared.entries.Answer.{Answer};
ghost use Rattle.admission.specs.declared.entries.Entry.{Entry};
ghost use Rattle.admission.specs.Books.{places_taken};
ghost use Rattle.admission.specs.Machine.{State, AdmittedPlay, CanHalt, IsStep, admitted_play};
ghost use Rattle.admission.specs.Machine.{halted_play, play_numbered};
ghost use Rattle.admission.specs.Histories.{IsAdmission, IsHalt, IsLegal, IsStillOpen, IsUnhalted};
ghost use Rattle.admission.specs.Histories.{booked_after, is_admission, is_halt, latest_asked};
ghost use Rattle.admission.specs.Histories.{open_count, state_after};
ghost use Rattle.admission.specs.Makers.{AreHaltsOwn, IsOpenAmong, PlacedEntry, entries_by};

/// A history that is legal is legal up to each place.
pub fn law_prefix_of_legal_history_is_legal()
    ensures { (steps : List CapStep) (entries : List Entry) (n : ℕ) → IsLegal steps entries →
        IsLegal steps (take n entries) }
{}

/// The link is never overbooked: after each prefix of a legal history, no slot is booked above its
/// capacity.
pub fn law_never_overbooked()
    ensures { (steps : List CapStep) (entries : List Entry) (n t : ℕ) → IsLegal steps entries →
        booked_after (take n entries) t ≤ capacity_at steps t }
{}

/// A play can be halted exactly where it was admitted and no entry halts it.
pub fn law_play_can_be_halted_iff_open()
    ensures open { (steps : List CapStep) (entries : List Entry) (number keep : ℕ) →
        IsLegal steps entries → IsStillOpen entries number keep →
        CanHalt (state_after entries) number keep }
    ensures admitted { (steps : List CapStep) (entries : List Entry) (number keep : ℕ) →
        IsLegal steps entries → CanHalt (state_after entries) number keep →
        IsStillOpen entries number keep }
{}

/// The plays of the state after a legal history follow from its entries: a play's number is the
/// place of the entry that admitted it; the play is open with all its bytes until an entry halts
/// it, and closed with the bytes that it keeps from then on. A halt stands after its play's entry.
pub fn law_plays_follow_from_entries()
    ensures admitted { (steps : List CapStep) (entries : List Entry) (number : ℕ) (h : AdmittedPlay)
        →
        IsLegal steps entries → play_numbered number (state_after entries).held ≡ Some h →
        IsAdmission entries number h.play.start h.play.segments }
    ensures whole { (steps : List CapStep) (entries : List Entry) (number start : ℕ)
        (segments : List Segment) → IsLegal steps entries →
        IsAdmission entries number start segments →
        IsUnhalted entries number →
        play_numbered number (state_after entries).held ≡ Some (admitted_play number start segments) }
    ensures cut { (steps : List CapStep) (entries : List Entry) (number start keep i : ℕ)
        (segments : List Segment) → IsLegal steps entries →
        IsAdmission entries number start segments →
        IsHalt entries i number keep → play_numbered number (state_after entries).held
        ≡ Some (halted_play keep (admitted_play number start segments)) }
    ensures earlier { (steps : List CapStep) (entries : List Entry) (number keep i : ℕ) →
        IsLegal steps entries → IsHalt entries i number keep → number < i }
{}

/// In a legal history no play is halted twice; where no play is open, each admission has its halt.
pub fn law_each_play_is_halted_once()
    ensures once { (steps : List CapStep) (entries : List Entry) (number keep kept i j : ℕ) →
        IsLegal steps entries → IsHalt entries i number keep → IsHalt entries j number kept →
        i ≡ j }
    ensures closed { (steps : List CapStep) (entries : List Entry) (number start : ℕ)
        (segments : List Segment) → IsLegal steps entries → open_count entries ≡ 0 →
        IsAdmission entries number start segments → IsUnhalted entries number → ⊥ }
{}

/// The machine gives one answer and one next state to a command in a state.
pub fn law_step_is_deterministic()
    ensures answer { (steps : List CapStep) (state next then : State) (place : ℕ)
        (command : Command) (one other : Answer) → IsStep steps state place command one next →
        IsStep steps state place command other then → one ≡ other }
    ensures next { (steps : List CapStep) (state next then : State) (place : ℕ)
        (command : Command) (one other : Answer) → IsStep steps state place command one next →
        IsStep steps state place command other then → next ≡ then }
{}

/// A list of makers and commands has one legal history.
pub fn law_history_is_deterministic()
    ensures { (steps : List CapStep) (one other : List Entry) → IsLegal steps one →
        IsLegal steps other →
        map (λ (e : Entry). e.maker) one ≡ map (λ (e : Entry). e.maker) other →
        map (λ (e : Entry). e.command) one ≡ map (λ (e : Entry). e.command) other → one ≡ other }
{}

/// After a legal history as many plays are open as were admitted and not halted, and now is the
/// latest slot in which a play was asked for, or 0.
pub fn law_counts_follow_from_entries()
    ensures open { (steps : List CapStep) (entries : List Entry) → IsLegal steps entries →
        open_count entries + count_by (λ (e : Entry). is_halt e.command) entries
        ≡ count_by (λ (e : Entry). is_admission e.answer) entries }
    ensures now { (steps : List CapStep) (entries : List Entry) → IsLegal steps entries →
        (state_after entries).now ≡ latest_asked entries }
{}

/// A maker's entries are those of the journal that it made, in order, each with the place at which
/// it stands.
pub fn law_maker_entries_keep_journal_order()
    ensures entries { (maker : ℕ) (entries : List Entry) →
        map (λ (p : PlacedEntry). p.entry) (entries_by maker entries)
        ≡ filter (λ (e : Entry). e.maker == maker) entries }
    ensures places { (maker : ℕ) (entries : List Entry) →
        All (λ (p : PlacedEntry). (p.place < length entries)
        × ((none : Entry) → slice_index_or entries p.place none ≡ p.entry))
        (entries_by maker entries) }
{}

/// A play that is open among its maker's own entries can be halted, in a legal history in which
/// each play is halted by its own maker.
pub fn law_own_open_play_can_be_halted()
    ensures { (steps : List CapStep) (entries : List Entry) (maker number keep : ℕ) →
        IsLegal steps entries → AreHaltsOwn entries →
        IsOpenAmong (entries_by maker entries) number keep →
        CanHalt (state_after entries) number keep }
{}

/// What an entry more does to what is booked: an admission adds in each slot what its plan asks
/// for, a halt takes away what its play sends after the bytes that it keeps, and no other entry
/// changes it.
pub fn law_entry_changes_booked_bytes()
    ensures admitted { (entries : List Entry) (maker slot start t : ℕ) (segments : List Segment) →
        booked_after (entries ++ record {
          maker = maker;
          command = Command.Play slot segments;
          answer = Answer.Admitted start;
        } ∷ [])
        t ≡ booked_after entries t + asked_at segments start t }
    ensures halted { (steps : List CapStep) (entries : List Entry)
        (maker number keep start t : ℕ) (segments : List Segment) → IsLegal steps entries →
        IsAdmission entries number start segments →
        CanHalt (state_after entries) number keep → booked_after (entries ++ record {
          maker = maker;
          command = Command.Halt number keep;
          answer = Answer.Halted;
        } ∷ []) t
        + released_at segments start keep t ≡ booked_after entries t }
    ensures others { (entries : List Entry) (entry : Entry) (t : ℕ) →
        is_admission entry.answer ≡ false → is_halt entry.command ≡ false →
        booked_after (entries ++ entry ∷ []) t ≡ booked_after entries t }
{}

/// A play that is admitted begins in the slot after the latest one in which a play was asked for,
/// up to its own entry.
pub fn law_admitted_play_starts_next_slot()
    ensures { (steps : List CapStep) (entries : List Entry) (number start : ℕ)
        (segments : List Segment) → IsLegal steps entries →
        IsAdmission entries number start segments →
        start ≡ latest_asked (take (number + 1) entries) + 1 }
{}

/// What the answer of a look reports: now, which is the latest slot in which a play was asked for
/// before it; the slot of the look, or now where that is later; and what the entries before it book
/// there.
pub fn law_look_reports_booked_bytes()
    ensures now { (steps : List CapStep) (entries : List Entry) (place slot now at booked : ℕ)
        (none : Entry) → IsLegal steps entries → place < length entries →
        (slice_index_or entries place none).command ≡ Command.Look slot →
        (slice_index_or entries place none).answer ≡ Answer.Looked now at booked →
        now ≡ latest_asked (take place entries) }
    ensures at { (steps : List CapStep) (entries : List Entry) (place slot now at booked : ℕ)
        (none : Entry) → IsLegal steps entries → place < length entries →
        (slice_index_or entries place none).command ≡ Command.Look slot →
        (slice_index_or entries place none).answer ≡ Answer.Looked now at booked →
        at ≡ max now slot }
    ensures booked { (steps : List CapStep) (entries : List Entry)
        (place slot now at booked : ℕ) (none : Entry) → IsLegal steps entries →
        place < length entries →
        (slice_index_or entries place none).command ≡ Command.Look slot →
        (slice_index_or entries place none).answer ≡ Answer.Looked now at booked →
        booked ≡ booked_after (take place entries) at }
{}

/// What a refused play's entry reports: the first slot without room, the bytes that the entries
/// before it book there, and the bytes that its plan sends there, if it begins in the slot after the
/// latest one in which a play was asked for, up to its own entry. Together they are above the
/// capacity. Each slot before it has room for the plan.
pub fn law_refusal_reports_first_slot_without_room()
    ensures booked { (steps : List CapStep) (entries : List Entry)
        (place slot over booked asked : ℕ) (segments : List Segment) (none : Entry) →
        IsLegal steps entries → place < length entries →
        (slice_index_or entries place none).command ≡ Command.Play slot segments →
        (slice_index_or entries place none).answer ≡ Answer.Overflow over booked asked →
        booked ≡ booked_after (take place entries) over }
    ensures asked { (steps : List CapStep) (entries : List Entry)
        (place slot over booked asked : ℕ) (segments : List Segment) (none : Entry) →
        IsLegal steps entries → place < length entries →
        (slice_index_or entries place none).command ≡ Command.Play slot segments →
        (slice_index_or entries place none).answer ≡ Answer.Overflow over booked asked →
        asked ≡ asked_at segments (latest_asked (take (place + 1) entries) + 1) over }
    ensures over { (steps : List CapStep) (entries : List Entry)
        (place slot over booked asked : ℕ) (segments : List Segment) (none : Entry) →
        IsLegal steps entries → place < length entries →
        (slice_index_or entries place none).command ≡ Command.Play slot segments →
        (slice_index_or entries place none).answer ≡ Answer.Overflow over booked asked →
        capacity_at steps over < booked + asked }
    ensures before { (steps : List CapStep) (entries : List Entry)
        (place slot over booked asked t : ℕ) (segments : List Segment) (none : Entry) →
        IsLegal steps entries → place < length entries →
        (slice_index_or entries place none).command ≡ Command.Play slot segments →
        (slice_index_or entries place none).answer ≡ Answer.Overflow over booked asked →
        t < over → booked_after (take place entries) t
        + asked_at segments (latest_asked (take (place + 1) entries) + 1) t
        ≤ capacity_at steps t }
{}

/// A journal keeps a place for the halt of each open play: where no more than the limit are taken,
/// halts alone never pass it, however many more there are.
pub fn law_journal_has_room_for_halts()
    ensures { (steps : List CapStep) (entries more : List Entry) (limit : ℕ) →
        IsLegal steps (entries ++ more) → All (λ (e : Entry). is_halt e.command ≡ true) more →
        places_taken entries ≤ limit → length (entries ++ more) ≤ limit }
{}
