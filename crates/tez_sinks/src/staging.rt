//! What attempts stage, and the events that leave the store as it is.
ghost use Rattle.std.specs.Prelude.{◌≡◌, ◌∷◌, [], ◌++◌, ℕ, Bool, List, Some, None, IsTrue, true, false};
ghost use Rattle.tez_ids.specs.declared.Epoch.{Epoch};
ghost use Rattle.tez_ids.specs.declared.AttemptId.{AttemptId};
ghost use Rattle.tez_ids.specs.declared.VertexId.{VertexId};
ghost use Rattle.tez_lists.specs.Numbers.{In};
ghost use Rattle.tez_record.specs.Bag.{text};
ghost use Rattle.tez_ports.specs.Content.{Named, Store, stages, staged_at};
ghost use Rattle.tez_plan.specs.Faults.{IsValid};
ghost use Rattle.tez_plan.specs.Ranges.{IsInRanges};
ghost use Rattle.tez_conf.specs.declared.values.ConfValues.{ConfValues};
ghost use Rattle.tez_meaning.specs.Jobs.{Job};
ghost use Rattle.tez_events.specs.declared.Entry.TheVariants.{Opened};
ghost use Rattle.tez_events.specs.declared.CoreEvent.{CoreEvent};
ghost use Rattle.tez_history.specs.History.{Past, extend, stage, is_committing, is_found};
ghost use Rattle.tez_history.specs.Derived.{is_processing};
ghost use Rattle.tez_history.specs.Steps.{enabled, entries_of, done_entries};
ghost use Rattle.tez_history.specs.Follows.{IsMade};
ghost use Rattle.tez_laws.specs.Laws.{answered, AnswersKeep};
ghost use Rattle.tez_pool_view.specs.View.{IsWholeAtCommit};
ghost use Rattle.tez_progress.specs.Laws.{is_stands};
ghost use Rattle.tez_contents.specs.Contents.{made, met_bad};
ghost use Rattle.tez_contents.specs.Laws.{HasNone, is_kept};
ghost use Rattle.tez_sinks.specs.Sinks.{sink_of, published_view, is_over, is_taken_up, StoreIsRight, WinnersAreGood, IsOfNoSink};
ghost use Rattle.tez_sinks.specs.Well.{IsWell};

/// A history in which no new master found a configuration or took over a winner is well before the
/// commit. Each enabled event keeps it so, a failure that spends its task among them, and so does a
/// report of an attempt that processes, and what the store answers of a sink; none of them adds what only
/// a new master finds.
pub fn masters_stay_well()
    ensures begins { (job : Job) (c : ConfValues) (past : Past) → IsValid job.plan → IsInRanges job.plan
        → IsMade job.plan c past → IsWholeAtCommit job.plan past → HasNone is_stands past → HasNone is_kept past
        → is_committing past ≡ false → IsWell job c past }
    ensures event { (job : Job) (c : ConfValues) (past : Past) (e : CoreEvent) → IsWell job c past
        → enabled job.plan c past e ≡ true → IsWell job c (extend past (entries_of job.plan c past e)) }
    ensures report { (job : Job) (c : ConfValues) (past : Past) (a : AttemptId) (bytes : List (ℕ × ℕ))
        → IsWell job c past → IsTrue (is_processing (stage a past))
        → IsWell job c (extend past (done_entries a bytes)) }
    ensures asked { (job : Job) (c : ConfValues) → AnswersKeep job.plan c (IsWell job c) }
    ensures event_takes_none { (job : Job) (c : ConfValues) (past : Past) (e : CoreEvent) → HasNone is_kept past
        → HasNone is_kept (extend past (entries_of job.plan c past e)) }
    ensures report_takes_none { (past : Past) (a : AttemptId) (bytes : List (ℕ × ℕ)) → HasNone is_kept past
        → HasNone is_kept (extend past (done_entries a bytes)) }
    ensures answer_takes_none { (past : Past) (v : VertexId) (there : Bool) → HasNone is_kept past
        → HasNone is_kept (answered past v there) }
    ensures event_finds_no_end { (job : Job) (c : ConfValues) (past : Past) (e : CoreEvent) → HasNone is_over past
        → HasNone is_over (extend past (entries_of job.plan c past e)) }
    ensures report_finds_no_end { (past : Past) (a : AttemptId) (bytes : List (ℕ × ℕ)) → HasNone is_over past
        → HasNone is_over (extend past (done_entries a bytes)) }
    ensures answer_finds_no_end { (past : Past) (v : VertexId) (there : Bool) → HasNone is_over past
        → HasNone is_over (answered past v there) }
{}

/// A commit is taken up only with all winners, so a history that takes over none takes up none.
pub fn first_masters_take_up_no_commit()
    ensures none { (job : Job) (c : ConfValues) (past : Past) → IsWell job c past → HasNone is_kept past
        → HasNone is_taken_up past }
    ensures own { (past : Past) → HasNone is_taken_up past → is_found past ≡ false }
{}

/// When a master opens, no winner and no readied sink is known, so the store is right whatever is put
/// aside in it, if it has the publications so far.
pub fn stores_begin()
    ensures store { (job : Job) (past : Past) (e : Epoch) (before : Named) (store : Store)
        → store.publications ≡ before ++ published_view job past → StoreIsRight job (Opened e ∷ past) before store }
    ensures first { (job : Job) (e : Epoch) (store : Store)
        → StoreIsRight job (Opened e ∷ []) store.publications store }
    ensures good { (job : Job) (past : Past) (e : Epoch) → WinnersAreGood job (Opened e ∷ past) }
{}

/// An event that readies, publishes and purges nothing leaves a store right as it stands, and the
/// winners good.
pub fn events_leave_the_store()
    ensures store { (job : Job) (c : ConfValues) (past : Past) (e : CoreEvent) (before : Named) (store : Store)
        → IsMade job.plan c past → enabled job.plan c past e ≡ true → IsOfNoSink e → StoreIsRight job past before store
        → StoreIsRight job (extend past (entries_of job.plan c past e)) before store }
    ensures good { (job : Job) (c : ConfValues) (past : Past) (e : CoreEvent) → IsMade job.plan c past
        → enabled job.plan c past e ≡ true → WinnersAreGood job past
        → WinnersAreGood job (extend past (entries_of job.plan c past e)) }
{}

/// An attempt that processes may be staged at any time, with any bytes. After its report the store is
/// right if the text of what it made was staged, in a call that it noted, and where its vertex has no
/// sink as it stands. The winners stay good if it met no bad record.
pub fn reports_are_staged()
    ensures before { (job : Job) (c : ConfValues) (past : Past) (a : AttemptId) (bytes : List ℕ) (before : Named) (store : Store) → IsMade job.plan c past → IsTrue (is_processing (stage a past)) → StoreIsRight job past before store → StoreIsRight job past before (stages a bytes store) }
    ensures staged { (job : Job) (c : ConfValues) (past : Past) (a : AttemptId) (bytes : List (ℕ
        × ℕ)) (before : Named) (store : Store) → IsMade job.plan c past → IsTrue (is_processing (stage a past))
        → StoreIsRight job past before store
        → StoreIsRight job (extend past (done_entries a bytes)) before (stages a (text (made job a past)) store) }
    ensures was_staged { (job : Job) (c : ConfValues) (past : Past) (a : AttemptId) (bytes : List (ℕ
        × ℕ)) (before : Named) (store : Store) → IsMade job.plan c past → IsTrue (is_processing (stage a past))
        → staged_at a store.staged ≡ Some (text (made job a past)) → In (a, text (made job a past)) store.stage_calls
        → StoreIsRight job past before store → StoreIsRight job (extend past (done_entries a bytes)) before store }
    ensures no_sink { (job : Job) (c : ConfValues) (past : Past) (a : AttemptId) (bytes : List (ℕ
        × ℕ)) (before : Named) (store : Store) → IsMade job.plan c past → IsTrue (is_processing (stage a past))
        → sink_of job.plan a.task.vertex.0 ≡ None → StoreIsRight job past before store
        → StoreIsRight job (extend past (done_entries a bytes)) before store }
    ensures good { (job : Job) (c : ConfValues) (past : Past) (a : AttemptId) (bytes : List (ℕ × ℕ))
        → IsMade job.plan c past → IsTrue (is_processing (stage a past)) → met_bad job a past ≡ false
        → WinnersAreGood job past → WinnersAreGood job (extend past (done_entries a bytes)) }
{}

/// What the store answers of a sink that it is asked of leaves it right as it stands, and the winners good.
pub fn answers_leave_the_store()
    ensures store { (job : Job) (past : Past) (v : VertexId) (there : Bool) (before : Named) (store : Store)
        → StoreIsRight job past before store → StoreIsRight job (answered past v there) before store }
    ensures good { (job : Job) (past : Past) (v : VertexId) (there : Bool) → WinnersAreGood job past
        → WinnersAreGood job (answered past v there) }
{}
