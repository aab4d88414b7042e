//! Worked examples, computed from the definitions. The names and numbers are those that a client sees.
ghost use Rattle.std.specs.Prelude.{◌≡◌, List, [], ◌∷◌, ◌++◌, codes, length, map, reverse, take, true, false, Some, None};
ghost use Rattle.std.specs.Option.{option_map};
ghost use Rattle.mt_model.specs.Types.{AbortUpload, Aborted, AddInputs, AlreadyCommitted, AssetsTooLarge, Cancel, Close, CommitUpload, Committed, Delete, DirectoryDoesNotExist, DirectoryNotEmpty, DirectoryOperation, Emit, EndInput, EntityExists, Finish, InputLine, Job, JobNotFound, JobState, Keep, Link, LinkNotFound, LinkNotObject, MakeDirectory, Map, Named, NewUpload, NotATask, NotComplete, NotFound, Open, ParentNotDirectory, PutPart, Ref, RootDirectory, TaskObjectMissing, TaskPlaceRefused, TooManyInputs, UploadNotFound, UploadPart, UploadState, UploadTooLarge};
ghost use Rattle.mt_types.specs.declared.job.Outcome.TheVariants.{Bad};
ghost use Rattle.mt_model.specs.CommandStep.{allowed};
ghost use Rattle.mt_model.specs.Finished.{IsMeant, is_finished, live_out, outputs_of, recorded};
ghost use Rattle.mt_model.specs.Honest.{Bytes, Honest};
ghost use Rattle.mt_model.specs.Listing.{listing, result_set_size};
ghost use Rattle.mt_model.specs.Meaning.{PhasesMean};
ghost use Rattle.mt_model.specs.Rows.{at, is_directory};
ghost use Rattle.mt_model.specs.State.{job_at};
ghost use Rattle.mt_model.specs.Tasks.{ready, waits_finish};
ghost use Rattle.mt_model.specs.Worked.{after, asked, begun, body_in, cat_gives, closed, commit, complete, counted, counting, emptied, fed, finished, halfway, in_folder, in_stor, job_of, jobs, joined, judged, last_outcome, line, linked, map_job_after, mapped, marked, named_reducers, names_in, needs, nested, number_in, of_object, parted, parted_of, phase, post, put, reads, reduced, said_in, stor, tagged, texts, three, twice_mapped, upload_in, wrote};

/// What refuses a put of an object or of a directory.
pub fn directory_refusals()
    ensures missing_parent { allowed length (after []) (put (stor (codes "x" ∷ codes "y" ∷ [])) []) ≡ Some DirectoryDoesNotExist }
    ensures parent_object { allowed length (after three) (put (stor (codes "a" ∷ codes "b" ∷ [])) []) ≡ Some ParentNotDirectory }
    ensures on_directory { allowed length (after nested) (put (in_stor (codes "d")) []) ≡ Some DirectoryOperation }
    ensures on_object { allowed length (after three) (MakeDirectory (in_stor (codes "a")) 0) ≡ Some EntityExists }
    ensures again { allowed length (after nested) (MakeDirectory (in_stor (codes "d")) 0) ≡ Some EntityExists }
    ensures on_root { allowed length (after []) (put (stor []) []) ≡ Some RootDirectory }
    ensures fits { allowed length (after nested) (put (stor (codes "d" ∷ codes "y" ∷ [])) []) ≡ None }
{}

/// Pages of a directory, in the order of names; the marker itself stands in its page.
pub fn listing_pages()
    ensures size { result_set_size (after three).rows (stor []) ≡ 3 }
    ensures first { names_in (listing (after three).rows (stor []) [] 2) ≡ codes "a" ∷ codes "b" ∷ [] }
    ensures from_b { names_in (listing (after three).rows (stor []) (codes "b") 2) ≡ codes "b" ∷ codes "c" ∷ [] }
    ensures between { names_in (listing (after three).rows (stor []) (codes "aa") 256) ≡ codes "b" ∷ codes "c" ∷ [] }
    ensures children { names_in (listing (after nested).rows (stor []) [] 256) ≡ codes "d" ∷ [] }
    ensures numbers { map (number_in (after three)) (in_stor (codes "a") ∷ in_stor (codes "b") ∷ in_stor (codes "c") ∷ []) ≡ Some 0x1000 ∷ Some 0 ∷ Some 0x2000 ∷ [] }
{}

/// A directory is removed once it is empty.
pub fn delete_directory()
    ensures full { allowed length (after nested) (Delete (in_stor (codes "d")) 0) ≡ Some DirectoryNotEmpty }
    ensures empty { allowed length (after emptied) (Delete (in_stor (codes "d")) 0) ≡ None }
    ensures gone { at (after (emptied ++ Delete (in_stor (codes "d")) 0 ∷ [])).rows (in_stor (codes "d")) ≡ None }
    ensures missing { allowed length (after []) (Delete (in_stor (codes "d")) 0) ≡ Some NotFound }
    ensures root { allowed length (after []) (Delete (stor []) 0) ≡ Some RootDirectory }
{}

/// A link is what its source was.
pub fn snaplink_snapshot()
    ensures body { body_in (after linked) (in_stor (codes "b")) ≡ Some (codes "hello") }
    ensures number { number_in (after linked) (in_stor (codes "b")) ≡ Some 0 }
    ensures no_source { allowed length (after linked) (Link (in_stor (codes "c")) (in_stor (codes "a")) 0) ≡ Some LinkNotFound }
    ensures root_source { allowed length (after linked) (Link (in_stor (codes "c")) (stor []) 0) ≡ Some LinkNotObject }
{}

/// A map job: what is posted twice is two inputs, and what is not there is missing at once.
pub fn map_job()
    ensures inputs { fed (after begun) 0x1000 0 ≡ Some ((in_stor (codes "a"), codes "hello") ∷ (in_stor (codes "a"), codes "hello") ∷ []) }
    ensures missing { option_map (λ j. j.missing) (job_at (after begun).jobs 0x1000) ≡ Some (Named (in_stor (codes "none")) ∷ []) }
    ensures first { option_map ready (job_at (after halfway).jobs 0x1000) ≡ Some (record { job = 0x1000; phase = 0; place = 1 } ∷ []) }
    ensures again { allowed length (after halfway) (commit 0x1000 0 0 (wrote (codes "hello"))) ≡ Some AlreadyCommitted }
    ensures beyond { allowed length (after halfway) (commit 0x1000 0 2 (wrote (codes "hello"))) ≡ Some NotATask }
    ensures waits { map (λ cs. option_map waits_finish (job_at (after cs).jobs 0x1000)) (halfway ∷ complete ∷ finished ∷ []) ≡ Some false ∷ Some true ∷ Some false ∷ [] }
    ensures position { (after finished).count ≡ 7 }
    ensures unended { option_map waits_finish (job_at (after (halfway ++ commit 0x1000 0 1 (wrote []) ∷ [])).jobs 0x1000) ≡ Some false }
    ensures early { allowed length (after halfway) (Finish 0x1000 0) ≡ Some NotComplete }
    ensures no_job { map (allowed length (after begun)) (post 0x2000 [] ∷ EndInput 0x2000 0 ∷ commit 0x2000 0 0 (wrote []) ∷ Finish 0x2000 0 ∷ Cancel 0x2000 0 ∷ [])
        ≡ Some JobNotFound ∷ Some JobNotFound ∷ Some JobNotFound ∷ Some JobNotFound ∷ Some JobNotFound ∷ [] }
    ensures ended { map (allowed length (after complete)) (post 0x1000 [] ∷ EndInput 0x1000 0 ∷ []) ≡ Some JobState ∷ Some JobState ∷ [] }
{}

/// Its outputs, by their names and their bytes.
pub fn map_job_outputs()
    ensures outputs { fed (after finished) 0x1000 1 ≡ Some (
        (in_folder (codes "stor" ∷ codes "a.0.00000003-0000-8000-8000-000000003000" ∷ []), codes "hello")
        ∷ (in_folder (codes "stor" ∷ codes "a.0.00000003-0000-8000-8000-000000005000" ∷ []), codes "hello") ∷ []) }
    ensures object { body_in (after finished) (in_folder (codes "stor" ∷ codes "a.0.00000003-0000-8000-8000-000000005000" ∷ [])) ≡ Some (codes "hello") }
{}

/// Reducers run once each, on nothing too.
pub fn reduce_over_nothing()
    ensures ready { option_map ready (job_at (after counting).jobs 0) ≡ Some (
        record { job = 0; phase = 0; place = 0 } ∷ record { job = 0; phase = 0; place = 1 } ∷ record { job = 0; phase = 0; place = 2 } ∷ []) }
    ensures outputs { fed (after counted) 0 1 ≡ Some (
        (jobs (codes "00000002-0000-8000-8000-000000000000" ∷ codes "stor" ∷ codes "reduce.0.00000003-0000-8000-8000-000000002000" ∷ []), line (codes "0"))
        ∷ (jobs (codes "00000002-0000-8000-8000-000000000000" ∷ codes "stor" ∷ codes "reduce.0.00000003-0000-8000-8000-000000003000" ∷ []), line (codes "0"))
        ∷ (jobs (codes "00000002-0000-8000-8000-000000000000" ∷ codes "stor" ∷ codes "reduce.0.00000003-0000-8000-8000-000000004000" ∷ []), line (codes "0")) ∷ []) }
    ensures waits { option_map waits_finish (job_at (after counted).jobs 0) ≡ Some true }
{}

/// What a reducer reads is in the order of the commits, and its number is counted in that order.
pub fn order_of_commits_decides_shares()
    ensures early { allowed length (after mapped) (commit 0x3000 1 2 (wrote [])) ≡ Some NotATask }
    ensures before_the_last { allowed length (after (take 8 mapped)) (commit 0x3000 1 0 (wrote [])) ≡ Some NotATask }
    ensures ready { option_map ready (job_at (after mapped).jobs 0x3000) ≡ Some (
        record { job = 0x3000; phase = 1; place = 0 } ∷ record { job = 0x3000; phase = 1; place = 1 } ∷ []) }
    ensures even { reads (after mapped) 0x3000 0 ≡ Some (line (codes "3") ++ line (codes "2")) }
    ensures odd { reads (after mapped) 0x3000 1 ≡ Some (line (codes "1")) }
{}

/// Their outputs.
pub fn outputs_of_reducers()
    ensures outputs { fed (after reduced) 0x3000 2 ≡ Some (
        (jobs (codes "00000002-0000-8000-8000-000000003000" ∷ codes "stor" ∷ codes "reduce.1.00000003-0000-8000-8000-000000009000" ∷ []), line (codes "3") ++ line (codes "2"))
        ∷ (jobs (codes "00000002-0000-8000-8000-000000003000" ∷ codes "stor" ∷ codes "reduce.1.00000003-0000-8000-8000-00000000a000" ∷ []), line (codes "1")) ∷ []) }
{}

/// An output at a place: missing parents are made, and its number is the first of the commit.
pub fn records_with_places()
    ensures parent { is_directory (at (after (asked (Emit (Some (stor (codes "p" ∷ codes "q" ∷ []))) None (codes "x") ∷ []))).rows (in_stor (codes "p"))) ≡ true }
    ensures number { number_in (after (asked (Emit (Some (stor (codes "p" ∷ codes "q" ∷ []))) None (codes "x") ∷ []))) (stor (codes "p" ∷ codes "q" ∷ [])) ≡ Some 0x3000 }
    ensures output { fed (after (asked (Emit (Some (stor (codes "p" ∷ codes "q" ∷ []))) None (codes "x") ∷ []))) 0x1000 1 ≡ Some ((stor (codes "p" ∷ codes "q" ∷ []), codes "x") ∷ []) }
    ensures twice { fed (after (asked (Emit (Some (in_stor (codes "p"))) None (codes "x") ∷ Ref (in_stor (codes "p")) ∷ []))) 0x1000 1
        ≡ Some ((in_stor (codes "p"), codes "x") ∷ (in_stor (codes "p"), codes "x") ∷ []) }
{}

/// An object that is kept is no output; the output of standard output is the second object of the commit.
pub fn kept_and_emitted()
    ensures stands { body_in (after (asked (Keep (in_stor (codes "k")) (codes "x") ∷ Emit None None [] ∷ []))) (in_stor (codes "k")) ≡ Some (codes "x") }
    ensures output { fed (after (asked (Keep (in_stor (codes "k")) (codes "x") ∷ Emit None None [] ∷ []))) 0x1000 1
        ≡ Some ((in_folder (codes "stor" ∷ codes "a.0.00000003-0000-8000-8000-000000003001" ∷ []), []) ∷ []) }
{}

/// One refused record refuses the task, and the rows stay.
pub fn refused_records()
    ensures missing { last_outcome (after (asked (Ref (in_stor (codes "none")) ∷ []))) 0x1000 ≡ Some (Bad TaskObjectMissing 0 []) }
    ensures other_job { last_outcome (after (asked (Emit (Some (jobs (codes "00000002-0000-8000-8000-000000002000" ∷ codes "stor" ∷ codes "x" ∷ []))) None [] ∷ []))) 0x1000 ≡ Some (Bad TaskPlaceRefused 0 []) }
    ensures below_object { last_outcome (after (asked (Emit (Some (stor (codes "a" ∷ codes "b" ∷ []))) None [] ∷ []))) 0x1000 ≡ Some (Bad TaskPlaceRefused 0 []) }
    ensures on_root { last_outcome (after (asked (Keep (stor []) [] ∷ []))) 0x1000 ≡ Some (Bad TaskPlaceRefused 0 []) }
    ensures rows { at (after (asked (Keep (in_stor (codes "k")) [] ∷ Ref (in_stor (codes "none")) ∷ []))).rows (in_stor (codes "k")) ≡ None }
    ensures no_output { fed (after (asked (Ref (in_stor (codes "none")) ∷ []))) 0x1000 1 ≡ Some [] }
{}

/// A job that is cancelled takes nothing more.
pub fn cancelled_job()
    ensures done { option_map (λ j. j.done) (job_at (after (begun ++ Cancel 0x1000 0 ∷ [])).jobs 0x1000) ≡ Some (Some 0) }
    ensures cancelled { option_map (λ j. j.cancelled) (job_at (after (begun ++ Cancel 0x1000 0 ∷ [])).jobs 0x1000) ≡ Some true }
    ensures inputs { allowed length (after (begun ++ Cancel 0x1000 0 ∷ [])) (post 0x1000 []) ≡ Some JobState }
    ensures ends { allowed length (after (begun ++ Cancel 0x1000 0 ∷ [])) (EndInput 0x1000 0) ≡ Some JobState }
    ensures again { allowed length (after (begun ++ Cancel 0x1000 0 ∷ [])) (Cancel 0x1000 0) ≡ Some JobState }
    ensures commits { allowed length (after (begun ++ Cancel 0x1000 0 ∷ [])) (commit 0x1000 0 0 (wrote [])) ≡ Some JobState }
    ensures no_task { option_map ready (job_at (after (begun ++ Cancel 0x1000 0 ∷ [])).jobs 0x1000) ≡ Some [] }
{}

/// The history of the map job, finished or closed, is honest where children give what they read. Then the job is what
/// its phases mean; its listing is the two names, and the other order of its outputs is not what its phases mean. A
/// fate that no child gave is not honest, and a job that is cancelled is not finished.
pub fn honest_map_job()
    ensures honest { Honest (codes "l") cat_gives judged closed × Honest (codes "l") cat_gives judged finished }
    ensures meant { IsMeant (codes "l") cat_gives judged closed (map_job_after closed) × IsMeant (codes "l") cat_gives judged finished (map_job_after finished) }
    ensures invented { Honest (codes "l") cat_gives judged (begun ++ commit 0x1000 0 0 (wrote (codes "bye")) ∷ []) → ⊥ }
    ensures done { map is_finished (map map_job_after (complete ∷ finished ∷ closed ∷ (begun ++ Cancel 0x1000 0 ∷ []) ∷ [])) ≡ false ∷ true ∷ true ∷ false ∷ [] }
    ensures listing { live_out (codes "l") (map_job_after closed) ≡
        line (codes "/l/jobs/00000002-0000-8000-8000-000000001000/stor/a.0.00000003-0000-8000-8000-000000003000")
        ++ line (codes "/l/jobs/00000002-0000-8000-8000-000000001000/stor/a.0.00000003-0000-8000-8000-000000005000") }
    ensures other_order { let job : Job Bytes = map_job_after closed in
        PhasesMean job.document.phases job.inputs (recorded job) (reverse (outputs_of job)) → ⊥ }
{}

/// A job that is closed leaves five objects, numbered in the order of their names; its folder has six children.
pub fn closed_job()
    ensures numbers { map (number_in (after closed)) (map (λ n. in_folder (n ∷ [])) (codes "err.txt" ∷ codes "fail.txt" ∷ codes "in.txt" ∷ codes "job.json" ∷ codes "out.txt" ∷ []))
        ≡ Some 0x6000 ∷ Some 0x6001 ∷ Some 0x6002 ∷ Some 0x6003 ∷ Some 0x6004 ∷ [] }
    ensures bodies { map (body_in (after closed)) (map (λ n. in_folder (n ∷ [])) (codes "err.txt" ∷ codes "fail.txt" ∷ codes "in.txt" ∷ codes "job.json" ∷ codes "out.txt" ∷ []))
        ≡ Some (codes "e") ∷ Some (codes "f") ∷ Some (codes "i") ∷ Some (codes "s") ∷ Some (codes "o") ∷ [] }
    ensures types { map (of_object (λ o. o.content_type) (after closed)) (map (λ n. in_folder (n ∷ [])) (codes "err.txt" ∷ codes "fail.txt" ∷ codes "in.txt" ∷ codes "job.json" ∷ codes "out.txt" ∷ []))
        ≡ Some (codes "application/x-json-stream") ∷ Some (codes "text/plain") ∷ Some (codes "text/plain") ∷ Some (codes "application/json") ∷ Some (codes "text/plain") ∷ [] }
    ensures children { result_set_size (after closed).rows (in_folder []) ≡ 6 }
    ensures position { (after closed).count ≡ 7 }
    ensures early { allowed length (after halfway) (Close 0x1000 false texts 0) ≡ Some NotComplete }
    ensures stopped { allowed length (after halfway) (Close 0x1000 true texts 0) ≡ None }
    ensures again { allowed length (after closed) (Close 0x1000 true texts 0) ≡ Some JobState }
{}

/// Parts are numbered as they come and listed by their indexes; a commit lists each in its place, or none.
pub fn upload_of_parts()
    ensures parts { upload_in (after parted) 0 ≡ Some (
      Open,
      record { index = 0; number = 0x2000; body = codes "he" } ∷ record { index = 1; number = 0x1000; body = codes "llo" } ∷ [],
    ) }
    ensures order { allowed length (after parted) (CommitUpload 0 (0x1000 ∷ 0x2000 ∷ []) (codes "llohe") 0) ≡ Some UploadPart }
    ensures again { map (λ parts. allowed length (after (parted ++ PutPart 0 0 (codes "HE") 0 ∷ [])) (CommitUpload 0 parts [] 0)) ((0x2000 ∷ 0x1000 ∷ []) ∷ (0x3000 ∷ 0x1000 ∷ []) ∷ [])
        ≡ Some UploadPart ∷ None ∷ [] }
    ensures front { allowed length (after parted) (CommitUpload 0 (0x2000 ∷ []) (codes "he") 0) ≡ None }
    ensures other { map (allowed length (after parted)) (PutPart 0x1000 0 [] 0 ∷ CommitUpload 0x1000 [] [] 0 ∷ AbortUpload 0x1000 0 ∷ []) ≡ Some UploadNotFound ∷ Some UploadNotFound ∷ Some UploadNotFound ∷ [] }
    ensures at_directory { allowed length (after (parted ++ MakeDirectory (in_stor (codes "u")) 0 ∷ [])) (CommitUpload 0 [] [] 0) ≡ Some DirectoryOperation }
    ensures no_path { map (allowed length (after [])) (NewUpload (jobs (codes "x" ∷ [])) [] 0 ∷ NewUpload (stor []) [] 0 ∷ []) ≡ Some RootDirectory ∷ Some RootDirectory ∷ [] }
{}

/// The object of an upload has its path and its content type; an upload that is committed or aborted takes no more.
pub fn ends_of_uploads()
    ensures number { number_in (after joined) (in_stor (codes "u")) ≡ Some 0x3000 }
    ensures body { body_in (after joined) (in_stor (codes "u")) ≡ Some (codes "hello") }
    ensures content_type { of_object (λ o. o.content_type) (after joined) (in_stor (codes "u")) ≡ Some (codes "text/plain") }
    ensures committed { upload_in (after joined) 0 ≡ Some (Committed, []) }
    ensures closed { map (allowed length (after joined)) (PutPart 0 0 [] 0 ∷ CommitUpload 0 [] [] 0 ∷ AbortUpload 0 0 ∷ []) ≡ Some UploadState ∷ Some UploadState ∷ Some UploadState ∷ [] }
    ensures empty { allowed length (after parted) (CommitUpload 0 [] [] 0) ≡ None }
    ensures nothing { body_in (after (parted ++ CommitUpload 0 [] [] 0 ∷ [])) (in_stor (codes "u")) ≡ Some [] }
    ensures aborted { upload_in (after (parted ++ AbortUpload 0 0 ∷ [])) 0 ≡ Some (Aborted, []) }
    ensures taken { map (allowed length (after (parted ++ AbortUpload 0 0 ∷ []))) (PutPart 0 0 [] 0 ∷ CommitUpload 0 [] [] 0 ∷ []) ≡ Some UploadState ∷ Some UploadState ∷ [] }
    ensures free { at (after (parted ++ AbortUpload 0 0 ∷ [])).rows (in_stor (codes "u")) ≡ None }
{}

/// Bounds: 1,000,000 inputs and missing lines of a job, of which three stand; 16,777,216 bytes of the assets of one
/// phase; 1,073,741,824 bytes of the parts that a commit lists, of which three are those of the second part.
pub fn bounds_of_an_account()
    ensures inputs { (lines : List InputLine) → length lines ≡ 999997 → allowed length (after begun) (AddInputs 0x1000 lines 0) ≡ None }
    ensures too_many { (lines : List InputLine) → length lines ≡ 999998 → allowed length (after begun) (AddInputs 0x1000 lines 0) ≡ Some TooManyInputs }
    ensures assets { (b : Bytes) → length b ≡ 16777216 → allowed length (after (put (in_stor (codes "a")) b ∷ [])) (job_of (needs (codes "a" ∷ []) Map [] ∷ needs (codes "a" ∷ []) Map [] ∷ [])) ≡ None }
    ensures large_assets { (b : Bytes) → length b ≡ 8388609 → allowed length (after (put (in_stor (codes "a")) b ∷ [])) (job_of (needs (codes "a" ∷ codes "a" ∷ []) Map [] ∷ [])) ≡ Some AssetsTooLarge }
    ensures no_asset { allowed length (after []) (job_of (needs (codes "a" ∷ []) Map [] ∷ [])) ≡ Some NotFound }
    ensures parts { (b : Bytes) → length b ≡ 1073741821 → allowed length (after (parted_of b)) (CommitUpload 0 (0x2000 ∷ 0x1000 ∷ []) [] 0) ≡ None }
    ensures large_parts { (b : Bytes) → length b ≡ 1073741822 → allowed length (after (parted_of b)) (CommitUpload 0 (0x2000 ∷ 0x1000 ∷ []) [] 0) ≡ Some UploadTooLarge }
{}

/// A name that ends in an identifier of an output is no place for a task, nor is what lies below one; other
/// identifiers are names as any.
pub fn identifiers_at_places()
    ensures of_job { fed (after (asked (Emit (Some (in_folder (codes "stor" ∷ codes "x.00000002-0000-8000-8000-000000001000" ∷ []))) None (codes "x") ∷ []))) 0x1000 1
        ≡ Some ((in_folder (codes "stor" ∷ codes "x.00000002-0000-8000-8000-000000001000" ∷ []), codes "x") ∷ []) }
    ensures of_output { last_outcome (after (asked (Keep (in_folder (codes "stor" ∷ codes "x.00000003-0000-8000-8000-000000001000" ∷ [])) [] ∷ []))) 0x1000 ≡ Some (Bad TaskPlaceRefused 0 []) }
    ensures below_output { last_outcome (after (asked (Keep (in_folder (codes "stor" ∷ codes "x.00000003-0000-8000-8000-000000001000" ∷ codes "y" ∷ [])) [] ∷ []))) 0x1000 ≡ Some (Bad TaskPlaceRefused 0 []) }
    ensures beside_stor { last_outcome (after (asked (Keep (in_folder (codes "x" ∷ [])) [] ∷ []))) 0x1000 ≡ Some (Bad TaskPlaceRefused 0 []) }
{}

/// A link has the durability and the metadata of its source, and its own moment.
pub fn marks_of_links()
    ensures source { said_in (after marked) (in_stor (codes "a")) ≡ Some (Some 3, tagged ∷ [], 5) }
    ensures link { said_in (after marked) (in_stor (codes "b")) ≡ Some (Some 3, tagged ∷ [], 7) }
{}

/// The root of an input goes through two map phases.
pub fn root_of_two_phases()
    ensures outputs { fed (after twice_mapped) 0x1000 2 ≡ Some ((in_folder (codes "stor" ∷ codes "a.1.00000003-0000-8000-8000-000000004000" ∷ []), codes "x") ∷ []) }
{}

/// The reducers that records name are counted round; an output without one goes by its place.
pub fn reducers_counted_round()
    ensures even { reads (after named_reducers) 0x1000 0 ≡ Some (codes "r") }
    ensures odd { reads (after named_reducers) 0x1000 1 ≡ Some (codes "pq") }
{}

/// A task makes no object over a directory, and of two records at one place the later one stands.
pub fn places_of_tasks()
    ensures directory { last_outcome (after (asked (Keep (stor (codes "d" ∷ codes "x" ∷ [])) [] ∷ Emit (Some (in_stor (codes "d"))) None [] ∷ []))) 0x1000 ≡ Some (Bad TaskPlaceRefused 0 []) }
    ensures later { body_in (after (asked (Keep (in_stor (codes "k")) (codes "1") ∷ Emit (Some (in_stor (codes "k"))) None (codes "2") ∷ []))) (in_stor (codes "k")) ≡ Some (codes "2") }
    ensures output { fed (after (asked (Keep (in_stor (codes "k")) (codes "1") ∷ Emit (Some (in_stor (codes "k"))) None (codes "2") ∷ []))) 0x1000 1 ≡ Some ((in_stor (codes "k"), codes "2") ∷ []) }
{}
