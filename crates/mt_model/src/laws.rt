//! Laws of the definitions: what holds over references holds over the bytes that they stand for, each allowed
//! command keeps a state lawful, and finished jobs are what their phases mean.
ghost use Rattle.std.specs.Prelude.{◌≡◌, ◌≢◌, ◌↔◌, ◌++◌, ℕ, Bool, List, Option, length, map, true};
ghost use Rattle.std.specs.List.{AllByRecursion};
ghost use Rattle.mt_types.specs.Kinds.{OnUploads, kind_of};
ghost use Rattle.mt_types.specs.Limits.{is_index};
ghost use Rattle.mt_types.specs.Values.{fate_with, item_with, job_with};
ghost use Rattle.mt_types.specs.WellMade.{IsDocument, IsWellMadeFate, IsWellMadeLine};
ghost use Rattle.mt_model.specs.Types.{AbortUpload, AccountPath, AddInputs, Archive, Body, Cancel, Close, Command, Commit, CommitUpload, Delete, EndInput, Fate, Field, Finish, InputLine, IsPath, Item, Job, JobDocument, Link, MakeDirectory, NewJob, NewUpload, PhaseKind, Put, PutPart, Raw, Run};
ghost use Rattle.mt_model.specs.Beside.{IsBesideJobs, IsBesideUploads};
ghost use Rattle.mt_model.specs.Bodies.{OfState, resolved_with, rows_with, state_with};
ghost use Rattle.mt_model.specs.CommandStep.{replay, step};
ghost use Rattle.mt_model.specs.Feed.{feed};
ghost use Rattle.mt_model.specs.Finished.{FinishedJobsMean};
ghost use Rattle.mt_model.specs.Honest.{Bytes, Honest, HonestFrom};
ghost use Rattle.mt_model.specs.Keeping.{KeepsLimits, SaysWithin};
ghost use Rattle.mt_model.specs.Later.{EndedGoesOn, TasksStay};
ghost use Rattle.mt_model.specs.Laws.{AllowedIsRead, AllowedOfHeld, IsReadByOne, IsSharedOnce, KeepsLawful, MeaningIsRead, Reading, ReplayIsRead, TakenFrom, len_of};
ghost use Rattle.mt_model.specs.Lawful.{Lawful};
ghost use Rattle.mt_model.specs.Listing.{listing, result_set_size};
ghost use Rattle.mt_model.specs.Resolve.{Committing, resolve};
ghost use Rattle.mt_model.specs.Rows.{Rows};
ghost use Rattle.mt_model.specs.State.{State, first_state};
ghost use Rattle.mt_model.specs.Stays.{ArchivesStay, OutputsHaveBodies, OutputsStay, StaysTaken, TagsAreStrong, TagsGoForGood};
ghost use Rattle.mt_model.specs.Tasks.{input_of, ready, run_of, share, waits_finish};

/// A history over references does what the same history over bytes does, and is refused for the same causes.
pub fn history_is_read()
    ensures replay { ReplayIsRead }
    ensures allowed { AllowedIsRead }
    ensures held { AllowedOfHeld }
{}

/// A history goes on from where its front leads.
pub fn replay_goes_on()
    ensures { (s : State Body) (cs ds : List (Command Body)) → replay s (cs ++ ds) ≡ replay (replay s cs) ds }
{}

/// So do listings.
pub fn listing_is_read()
    ensures listing { (read : Reading) (rows : Rows Body) (d : AccountPath) (marker : List ℕ) (limit : ℕ) → listing (rows_with read rows) d marker limit ≡ rows_with read (listing rows d marker limit) }
    ensures size { (read : Reading) (rows : Rows Body) (d : AccountPath) → result_set_size (rows_with read rows) d ≡ result_set_size rows d }
{}

/// And jobs: their feeds, their shares, their tasks, what each is run with and reads; and what their phases mean over
/// references they mean over bytes.
pub fn job_is_read()
    ensures feed { (read : Reading) (j : Job Body) (phase : ℕ) → feed (job_with read j) phase ≡ map (item_with read) (feed j phase) }
    ensures share { (read : Reading) (items : List (Item Body)) (count reducer : ℕ) → share (map (item_with read) items) count reducer ≡ map (item_with read) (share items count reducer) }
    ensures ready { (read : Reading) (j : Job Body) → ready (job_with read j) ≡ ready j }
    ensures finish { (read : Reading) (j : Job Body) → waits_finish (job_with read j) ≡ waits_finish j }
    ensures run { (read : Reading) (login : List ℕ) (j : Job Body) (phase place : ℕ) → run_of (λ bytes. bytes) login (job_with read j) phase place ≡ run_of read login j phase place }
    ensures input { (read : Reading) (kind : PhaseKind) (items : List (Item Body)) (place : ℕ) → input_of (λ bytes. bytes) kind (map (item_with read) items) place ≡ input_of read kind items place }
    ensures resolve { (read : Reading) (c : Committing) (rows : Rows Body) (x : Fate Body) → resolve c (rows_with read rows) (fate_with read x) ≡ resolved_with read (resolve c rows x) }
    ensures meaning { MeaningIsRead }
{}

/// Each place of a feed is read by exactly one task of its phase.
pub fn places_are_shared_once()
    ensures reduce { IsSharedOnce }
    ensures map { IsReadByOne }
{}

/// States whose bodies read the same are the same.
pub fn states_agree()
    ensures { (f g : Reading) (s : State Body) → OfState (λ b. f b ≡ g b) s → state_with f s ≡ state_with g s }
{}

/// The first state is within the limits of values, and each command that says what is within them keeps it so.
pub fn commands_keep_limits()
    ensures first { let s : State Body = first_state in KeepsLimits s }
    ensures step { (s : State Body) (c : Command Body) → KeepsLimits s → SaysWithin c → KeepsLimits (step s c) }
{}

/// The first state is lawful.
pub fn first_state_is_lawful()
    ensures { let s : State Body = first_state in Lawful s }
{}

/// Each of these commands keeps a state lawful, where it is allowed and there is room for one more command.
pub fn commands_keep_lawful()
    ensures put { (path : AccountPath) (content_type : List ℕ) (body : Body) (durability : Option ℕ) (metadata : List Field) (moment : ℕ)
        → IsPath path → KeepsLawful (Put path content_type body durability metadata moment) }
    ensures make_directory { (path : AccountPath) (moment : ℕ) → IsPath path → KeepsLawful (MakeDirectory path moment) }
    ensures link { (path source : AccountPath) (moment : ℕ) → IsPath path → KeepsLawful (Link path source moment) }
    ensures delete { (path : AccountPath) (moment : ℕ) → KeepsLawful (Delete path moment) }
    ensures new_job { (document : JobDocument) (moment : ℕ) → IsDocument document → KeepsLawful (NewJob document moment) }
    ensures add_inputs { (job : ℕ) (lines : List InputLine) (moment : ℕ) → AllByRecursion IsWellMadeLine lines → KeepsLawful (AddInputs job lines moment) }
    ensures end_input { (job moment : ℕ) → KeepsLawful (EndInput job moment) }
    ensures commit { (job phase place : ℕ) (fate : Fate Body) (moment : ℕ) → IsWellMadeFate fate → KeepsLawful (Commit job phase place fate moment) }
    ensures finish { (job moment : ℕ) → KeepsLawful (Finish job moment) }
    ensures cancel { (job moment : ℕ) → KeepsLawful (Cancel job moment) }
    ensures close { (job : ℕ) (cancelled : Bool) (archive : Archive Body) (moment : ℕ) → KeepsLawful (Close job cancelled archive moment) }
    ensures new_upload { (path : AccountPath) (content_type : List ℕ) (moment : ℕ) → IsPath path → KeepsLawful (NewUpload path content_type moment) }
    ensures put_part { (upload index : ℕ) (body : Body) (moment : ℕ) → is_index index ≡ true → KeepsLawful (PutPart upload index body moment) }
    ensures commit_upload { (upload : ℕ) (parts : List ℕ) (body : Body) (moment : ℕ) → KeepsLawful (CommitUpload upload parts body moment) }
    ensures abort_upload { (upload moment : ℕ) → KeepsLawful (AbortUpload upload moment) }
{}

/// A history whose commands are well made and allowed leads from a lawful state to a lawful state, over references and
/// over bytes.
pub fn histories_are_lawful()
    ensures references { (s : State Body) (h : List (Command Body)) → Lawful s → TakenFrom len_of s h → Lawful (replay s h) }
    ensures bytes { (s : State Bytes) (h : List (Command Bytes)) → Lawful s → TakenFrom length s h → Lawful (replay s h) }
{}

/// A state over references is lawful where it is over the bytes that are read for them.
pub fn lawful_is_read()
    ensures { (read : Reading) (s : State Body) → Lawful s ↔ Lawful (state_with read s) }
{}

/// And it is within the limits of values where it is over bytes.
pub fn limits_are_read()
    ensures { (read : Reading) (s : State Body) → KeepsLimits s ↔ KeepsLimits (state_with read s) }
{}

/// Uploads stand beside rows and jobs: no command on rows or jobs looks at them, or changes them.
pub fn uploads_stand_beside()
    ensures { (size : Body → ℕ) (c : Command Body) → kind_of c ≢ OnUploads → IsBesideUploads size c }
{}

/// And no command on uploads looks at the jobs, or changes them.
pub fn jobs_stand_beside()
    ensures { (size : Body → ℕ) (c : Command Body) → kind_of c ≡ OnUploads → IsBesideJobs size c }
{}

/// An object at the path of an output without a place stays, whatever commands follow; and each output of a committed
/// task that has such a path has its body there. So those of a job keep their bodies for good.
pub fn outputs_stay()
    ensures stays { OutputsStay len_of }
    ensures bodies { OutputsHaveBodies len_of }
    ensures bytes_stay { OutputsStay (λ (bytes : Bytes). length bytes) }
    ensures bytes_bodies { OutputsHaveBodies (λ (bytes : Bytes). length bytes) }
{}

/// An object of the archive of a job stays, whatever commands follow.
pub fn archives_stay()
    ensures references { ArchivesStay len_of }
    ensures bytes { ArchivesStay (λ (bytes : Bytes). length bytes) }
{}

/// Objects of one number have one body, wherever and whenever they stand: an etag is strong.
pub fn tags_are_strong()
    ensures references { TagsAreStrong len_of }
    ensures bytes { TagsAreStrong (λ (bytes : Bytes). length bytes) }
{}

/// A number that left a path comes back there by a link alone: a put that asks for it is taken once.
pub fn tags_go_for_good()
    ensures references { TagsGoForGood len_of }
    ensures bytes { TagsGoForGood (λ (bytes : Bytes). length bytes) }
{}

/// Where something stands, something stands until it is removed: a put that asks for nothing there is taken once.
pub fn stays_taken()
    ensures references { StaysTaken len_of }
    ensures bytes { StaysTaken (λ (bytes : Bytes). length bytes) }
{}

/// A command that is well made and allowed leaves each task of a job what it is, what it is run with and what it reads.
pub fn tasks_stay()
    ensures { TasksStay }
{}

/// A job that runs, whose input has ended and of which no task is ready, waits to be finished.
pub fn ended_goes_on()
    ensures references { EndedGoesOn Body }
    ensures bytes { EndedGoesOn Bytes }
{}

/// What starts children.
pub trait Children {
    ghost use Rattle.std.specs.Prelude.{List, ℕ};
    ghost use Rattle.mt_types.specs.declared.task.Run.{Run};
    ghost use Rattle.mt_types.specs.declared.task.Raw.{Raw};

    /// The raw outcomes that a child may give, run with this, over these bytes.
    ghost gives: { Self → Run → List ℕ → Raw → Type 0 };
}

/// In each honest history each job that is done and was not cancelled has as outputs exactly what its phases mean over
/// its inputs, in the order of the commits: each task committed once, each item read by one task. Its inputs are what
/// was posted, and behind each commit the outputs stand at their names.
pub fn finished_jobs_mean<P: Children>(children: &P)
    ensures { (login : List ℕ) (fate_of : Raw → Fate Bytes) → FinishedJobsMean login (P.gives children.now) fate_of }
{
    let _ = children;
}

/// An honest history leaves a lawful state. Honest histories go on from where an honest one leads, and each front and
/// each rest of one is honest; its commands are well made and allowed, and there is room for each.
pub fn honest_histories<P: Children>(children: &P)
    ensures lawful { (login : List ℕ) (fate_of : Raw → Fate Bytes) (h : List (Command Bytes)) → Honest login (P.gives children.now) fate_of h → Lawful (replay first_state h) }
    ensures grows { (login : List ℕ) (fate_of : Raw → Fate Bytes) (s : State Bytes) (h cs : List (Command Bytes))
        → HonestFrom login (P.gives children.now) fate_of s h → HonestFrom login (P.gives children.now) fate_of (replay s h) cs → HonestFrom login (P.gives children.now) fate_of s (h ++ cs) }
    ensures fronts { (login : List ℕ) (fate_of : Raw → Fate Bytes) (s : State Bytes) (h cs : List (Command Bytes))
        → HonestFrom login (P.gives children.now) fate_of s (h ++ cs) → HonestFrom login (P.gives children.now) fate_of s h }
    ensures taken { (login : List ℕ) (fate_of : Raw → Fate Bytes) (s : State Bytes) (h : List (Command Bytes)) → HonestFrom login (P.gives children.now) fate_of s h → TakenFrom length s h }
    ensures rests { (login : List ℕ) (fate_of : Raw → Fate Bytes) (s : State Bytes) (h cs : List (Command Bytes))
        → HonestFrom login (P.gives children.now) fate_of s (h ++ cs) → HonestFrom login (P.gives children.now) fate_of (replay s h) cs }
{
    let _ = children;
}

/// A history that is honest for some children is so for children that may give more.
pub fn honest_wider<P: Children, Q: Children>(few: &P, more: &Q)
    ensures { (login : List ℕ) (fate_of : Raw → Fate Bytes) → ((run : Run) (input : Bytes) (raw : Raw) → P.gives few.now run input raw → Q.gives more.now run input raw)
        → (s : State Bytes) (h : List (Command Bytes)) → HonestFrom login (P.gives few.now) fate_of s h → HonestFrom login (Q.gives more.now) fate_of s h }
{
    let _ = few;
    let _ = more;
}
