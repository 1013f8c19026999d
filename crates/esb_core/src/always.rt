//! Laws over lists of events. Each function's contract is the law, and its body does nothing: a caller learns the law by the call.
ghost use Rattle.std.specs.Prelude.{◌≡◌, ◌+◌, ◌<◌, ◌≤◌, ◌↔◌, ◌⊎◌, ◌&&◌, ◌||◌, ◌++◌, ◌∷◌, [], ℕ, Bool, true, false, not, nat_eq, nat_lt, count_by, fold, length, take, List, None, Ok, Err, Some, IsSome};
ghost use Rattle.std.specs.List.{list_any};
ghost use Rattle.esb_wire.specs.declared.value.Packet.{Packet};
ghost use Rattle.esb_flags.specs.declared.command.Command.{Command};
ghost use Rattle.esb_flags.specs.declared.command.Command.TheVariants as commands;
ghost use Rattle.esb_flags.specs.declared.options.Options.{Options};
ghost use Rattle.esb_flags.specs.Command.{asked};
ghost use Rattle.esb_ask.specs.declared.question.Question.{Question};
ghost use Rattle.esb_ask.specs.declared.answer.Answer.{Answer};
ghost use Rattle.esb_ask.specs.declared.outcome.Failures.{Failures};
ghost use Rattle.esb_ask.specs.declared.outcome.Outcome.{Outcome};
ghost use Rattle.esb_ask.specs.declared.message.Message.{Message};
ghost use Rattle.esb_ask.specs.declared.outcome.OutFile.{OutFile};
ghost use Rattle.esb_ask.specs.declared.outcome.Outcome.TheVariants as outcomes;
ghost use Rattle.esb_ask.specs.declared.product.Product.{Product};
ghost use Rattle.esb_ask.specs.declared.task.Task.{Task};
ghost use Rattle.esb_ask.specs.Table.{answer_to, fits};
ghost use Rattle.esb_ask.specs.Tasks.{product_fits, same_task};
ghost use Rattle.esb_core.specs.declared.event.Event.{Event};
ghost use Rattle.esb_core.specs.declared.event.Event.TheVariants as events_of;
ghost use Rattle.esb_core.specs.declared.event.Claimed.TheVariants as claimed;
ghost use Rattle.esb_core.specs.declared.event.Job.{Job};
ghost use Rattle.esb_core.specs.declared.event.Role.{Role};
ghost use Rattle.esb_core.specs.Allowed.{allowed, is_closing, job_told, may_arrive, may_fail, names_job};
ghost use Rattle.esb_core.specs.History.{active_build, all_owed, build, builds, closed, context, contexts, is_legal, kept_pair, met_in, moves_in, next, or_later, outcome, owed, replay, gathered, failed, StandsFor, table, takes, tasks, waiting};
ghost use Rattle.esb_core.specs.Laws.{accepted, answers, begins, closes, contexts_at, ends_input, fails, is_about, is_join, is_own, is_request, is_settled_build, owes_at, refused, results_of, results_once, settles, tells, verdict, verdict_by, waits, IsActiveBuild, IsAnsweredBy, IsBegunBy, IsCanceledBy, IsOver, IsSettledBy, IsWithinLimits, ShowsHistory};
ghost use Rattle.esb_core.specs.Moves.{key_of, refusal, unknown};
ghost use Rattle.esb_core.specs.Sizes.{with_task};
ghost use Rattle.esb_core.specs.State.{State};
ghost use Rattle.esb_core.specs.Steps.{entry_tasks};
ghost use Rattle.esb_core.specs.Work.{claims_link, claims_task, claims_write, holds_link, holds_task, holds_write, names, open_job, HoldsTask};

/// A build that has begun keeps its number, its key and its options, and each was begun by an event: a `build` request whose
/// context doesn't stay, or a `rebuild` of a context without an active build.
pub fn builds_stay()
    ensures one_more { (before : List Event) (event : Event) → builds (before ++ event ∷ []) ≡ builds before ++ begins before event }
    ensures stay { (events more : List Event) (n : ℕ) → n < length (builds events) → build (events ++ more) n ≡ build events n }
    ensures grow { (events more : List Event) → length (builds events) ≤ length (builds (events ++ more)) }
    ensures begun { (events : List Event) (n : ℕ) → n < length (builds events) → IsBegunBy events n }
{}

/// A context is there from the request that makes it until it is disposed, or until the one build is closed that it was made for.
/// One that is disposed while a settled build of it isn't closed goes with that close, and no request knows it from then on. Its
/// active build is the one that isn't closed, and there is no other.
pub fn contexts_are_known()
    ensures one_more { (before : List Event) (event : Event) → contexts (before ++ event ∷ []) ≡ contexts_at before event }
    ensures refused { (before : List Event) (packet : Packet) (text : List ℕ) → packet.request ≡ true → verdict before packet ≡ refused text
        → contexts (before ++ events_of.Arrive packet ∷ []) ≡ contexts before }
    ensures disposed { (before : List Event) (packet : Packet) (key : ℕ) → packet.request ≡ true → verdict before packet ≡ accepted (commands.Dispose key)
        → is_settled_build before (active_build before key) ≡ false → context (before ++ events_of.Arrive packet ∷ []) key ≡ None }
    ensures unknown { (before : List Event) (packet : Packet) (key : ℕ) → packet.request ≡ true → verdict before packet ≡ accepted (commands.Dispose key)
        → (unknown (met_in (moves_in (before ++ events_of.Arrive packet ∷ [])) key)).0 ≡ true }
    ensures active { (events : List Event) (key n : ℕ) → is_legal events ≡ true → (active_build events key ≡ Some n) ↔ IsActiveBuild events key n }
    ensures inside { (events : List Event) (key n : ℕ) → is_legal events ≡ true → active_build events key ≡ Some n → IsSome (context events key) }
{}

/// A build's outcome is what the earliest event that settles it gives, and stays: a worker's, or a `cancel` or `dispose` of its
/// context, which comes after its begin, or the one message `Build is too large` where an answer or a task would make it larger
/// than a build may be. Only a build that has begun has one.
pub fn outcomes_stay()
    ensures one_more { (before : List Event) (event : Event) (n : ℕ) → outcome (before ++ event ∷ []) n ≡ or_later (outcome before n) (settles before n event) }
    ensures stay { (events more : List Event) (n : ℕ) (o : Outcome) → outcome events n ≡ Some o → outcome (events ++ more) n ≡ Some o }
    ensures earliest { (events : List Event) (n : ℕ) (o : Outcome) → (outcome events n ≡ Some o) ↔ IsSettledBy events n o }
    ensures canceled { (events : List Event) (n : ℕ) → is_legal events ≡ true → (outcome events n ≡ Some outcomes.Canceled) ↔ IsCanceledBy events n }
    ensures begun { (events : List Event) (n : ℕ) (o : Outcome) → is_legal events ≡ true → outcome events n ≡ Some o → n < length (builds events) }
{}

/// A build is closed by the event that settles it, or else by the one that says that its files are put. That one says which of
/// them were not.
pub fn builds_close()
    ensures one_more { (before : List Event) (event : Event) (n : ℕ) → closed (before ++ event ∷ []) n ≡ (closed before n || closes before n event) }
    ensures failed { (before : List Event) (event : Event) (n : ℕ) → failed (before ++ event ∷ []) n ≡ fails n (failed before n) event }
    ensures settled { (events : List Event) (n : ℕ) → is_legal events ≡ true → outcome events n ≡ None → closed events n ≡ false }
{}

/// The table of a settled build never changes.
pub fn settled_tables_stay()
    ensures { (events more : List Event) (n : ℕ) (o : Outcome) → outcome events n ≡ Some o → table (events ++ more) n ≡ table events n }
{}

/// The answer that is kept to a question is the earliest that came before the build was settled, and stays. One that would make
/// the build too large isn't kept. A table grows at its end, and has each question once.
pub fn answers_stay()
    ensures one_more { (before : List Event) (event : Event) (n : ℕ) → table (before ++ event ∷ []) n ≡ fold kept_pair (table before n) (answers before n event) }
    ensures stay { (events more : List Event) (n : ℕ) (question : Question) (answer : Answer)
        → answer_to (table events n) question ≡ Some answer → answer_to (table (events ++ more) n) question ≡ Some answer }
    ensures earliest { (events : List Event) (n : ℕ) (question : Question) (answer : Answer)
        → (answer_to (table events n) question ≡ Some answer) ↔ IsAnsweredBy events n question answer }
    ensures grow { (events more : List Event) (n : ℕ) → take (length (table events n)) (table (events ++ more) n) ≡ table events n }
    ensures once { (events : List Event) (n : ℕ) (question : Question) → count_by (is_about question) (table events n) ≤ 1 }
{}

/// Each request waits for a build or has a reply of its own. Those that wait for a build have one reply each, in the order in
/// which they came, once the build is closed, and none before: its result, or that it is closed for a request that waited for the
/// close alone. What is owed grows at its end, and nothing is taken off that was not owed.
pub fn replies_are_one()
    ensures one_more { (before : List Event) (event : Event) → all_owed (before ++ event ∷ []) ≡ all_owed before ++ owes_at before event }
    ensures one_more_waits { (before : List Event) (event : Event) (n : ℕ) → waiting (before ++ event ∷ []) n ≡ waiting before n ++ waits before n event }
    ensures results { (events : List Event) (n : ℕ) → is_legal events ≡ true → results_of events n ≡ results_once n (waiting events n) (closed events n) }
    ensures accounted { (events : List Event) (ids : ℕ → Bool)
        → count_by (is_request ids) events ≡ count_by (is_join ids) (moves_in events) + count_by (is_own ids) (all_owed events) }
    ensures grow { (events more : List Event) → take (length (all_owed events)) (all_owed (events ++ more)) ≡ all_owed events }
    ensures taken { (events : List Event) → is_legal events ≡ true → takes events ≤ length (all_owed events) }
{}

/// A session has no more contexts, builds and waiting requests than its limits, and a build no more answers, bytes of files and
/// files.
pub fn limits_hold()
    ensures { (events : List Event) → is_legal events ≡ true → IsWithinLimits events }
{}

/// What is seen of a machine is what the list answers that it stands for.
pub fn machines_show_their_history()
    ensures { (state : State) (events : List Event) → StandsFor state events → ShowsHistory state events }
{}

/// What a machine tells of its next event is what the list answers.
pub fn told_is_the_history()
    ensures { (events : List Event) (event : Event) → is_legal events ≡ true → next events event ≡ tells events event }
{}

/// Which events may come after a list, and when it is over. A role claims its first open job. A worker delivers what it was given
/// and has not given back; it ends a build with its link, and with any work of it where memory was refused. It says that the files
/// of a build are put whose writing it was given, but for some of them, in their order.
pub fn events_that_may_come()
    ensures arrive { (events : List Event) (packet : Packet) → is_legal events ≡ true
        → allowed (replay events) (events_of.Arrive packet) ≡ (not (list_any ends_input events) && may_arrive packet) }
    ensures end_of_input { (events : List Event) → is_legal events ≡ true → allowed (replay events) events_of.EndOfInput ≡ not (list_any ends_input events) }
    ensures claim { (events : List Event) (role : Role) (job : Job) → is_legal events ≡ true
        → allowed (replay events) (events_of.Claim role job) ≡ names_job (open_job events role) job }
    ensures record_of { (events : List Event) (worker n : ℕ) (question : Question) (answer : Answer) → is_legal events ≡ true
        → allowed (replay events) (events_of.Record worker n question answer) ≡ (nat_lt n (length (builds events)) && fits question answer) }
    ensures deliver { (events : List Event) (worker n : ℕ) (task : Task) (product : Product) → is_legal events ≡ true
        → allowed (replay events) (events_of.Deliver worker n task product) ≡ (holds_task events worker n task && product_fits task product) }
    ensures files { (events : List Event) (worker n : ℕ) (files : List OutFile) → is_legal events ≡ true
        → allowed (replay events) (events_of.Settle worker n (outcomes.Files files)) ≡ holds_link events worker n }
    ensures errors { (events : List Event) (worker n : ℕ) (messages : List Message) → is_legal events ≡ true
        → allowed (replay events) (events_of.Settle worker n (outcomes.Errors messages)) ≡ holds_link events worker n }
    ensures canceled { (events : List Event) (worker n : ℕ) → is_legal events ≡ true
        → allowed (replay events) (events_of.Settle worker n outcomes.Canceled) ≡ false }
    ensures memory { (events : List Event) (worker n : ℕ) → is_legal events ≡ true
        → (allowed (replay events) (events_of.Settle worker n outcomes.Memory) ≡ true) ↔ ((holds_link events worker n ≡ true) ⊎ HoldsTask events worker n) }
    ensures written { (events : List Event) (worker n : ℕ) (failures : Failures) → is_legal events ≡ true
        → allowed (replay events) (events_of.Written worker n failures) ≡ (holds_write events worker n && may_fail (outcome events n) failures) }
    ensures pop { (events : List Event) → is_legal events ≡ true → allowed (replay events) events_of.Pop ≡ nat_lt 0 (length (owed events)) }
    ensures closing { (events : List Event) → is_legal events ≡ true → (is_closing (replay events) ≡ true) ↔ IsOver events }
{}

/// What a machine tells a role of its next work: its first open job, or that it is over, or else that no job is open. A build has
/// each of its tasks once, and they keep their order: those of its entries, and then those that delivered products named.
pub fn jobs_are_in_order()
    ensures job { (events : List Event) (role : Role) (job : Job) → is_legal events ≡ true
        → (job_told (replay events) role ≡ claimed.Job job) ↔ (open_job events role ≡ Some job) }
    ensures closing { (events : List Event) (role : Role) → is_legal events ≡ true → (job_told (replay events) role ≡ claimed.Closing) ↔ IsOver events }
    ensures idle { (events : List Event) (role : Role) → is_legal events ≡ true
        → (job_told (replay events) role ≡ claimed.Idle) ↔ ((open_job events role ≡ None) × (IsOver events → ⊥)) }
    ensures named { (events : List Event) (n : ℕ) → tasks events n ≡ fold with_task (entry_tasks (length (build events n).options.entries)) (gathered (names n) events) }
    ensures differ { (events : List Event) (n : ℕ) (task : Task) → is_legal events ≡ true → count_by (same_task task) (tasks events n) ≤ 1 }
    ensures grow { (events more : List Event) (n : ℕ) → n < length (builds events) → take (length (tasks events n)) (tasks (events ++ more) n) ≡ tasks events n }
{}

/// Each task of a build is given to one worker at most, and so are its link and the writing of its files.
pub fn work_is_claimed_once()
    ensures task { (events : List Event) (n : ℕ) (task : Task) → is_legal events ≡ true → count_by (claims_task n task) events ≤ 1 }
    ensures link { (events : List Event) (n : ℕ) → is_legal events ≡ true → count_by (claims_link n) events ≤ 1 }
    ensures write { (events : List Event) (n : ℕ) → is_legal events ≡ true → count_by (claims_write n) events ≤ 1 }
{}
