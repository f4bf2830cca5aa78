//! Laws of workers, as contracts of functions that do nothing.
ghost use Rattle.net_worker.specs.Ascending.{MergedAscends};
ghost use Rattle.net_worker.specs.Merge.{MergedLogsRun};
ghost use Rattle.net_worker.specs.Rests.{IdleRests};
ghost use Rattle.net_worker.specs.Local.{WorkersAgree};
ghost use Rattle.net_worker.specs.Sights.{SeesFires};
ghost use Rattle.net_worker.specs.Mays.{WorkerMay};
ghost use Rattle.net_worker.specs.Keeps.{MadeKeeps};
ghost use Rattle.net_worker.specs.Fires.{MadeFires};
ghost use Rattle.net_worker.specs.Handed.{MadeHolds};
ghost use Rattle.net_worker.specs.Looks.{MadeLooks};
ghost use Rattle.net_worker.specs.Locally.{LocalFires, LocalLooks};
ghost use Rattle.net_worker.specs.Steps.{OneEntryMore, OneTakeMore, OneCreditMore, MoreHandedOut};
ghost use Rattle.net_worker.specs.Merged.{MergedMerges, RestIsShared, WorkersGather};

/// Whatever threads made the logs of workers: in the order of their stamps they are one run.
pub fn merged_logs_run()
    ensures { MergedLogsRun }
{}

/// Workers that are locally right, and between which all links are sound, agree with the opening state.
pub fn workers_agree()
    ensures { WorkersAgree }
{}

/// The merged log is a merge of the logs.
pub fn merged_merges()
    ensures { MergedMerges }
{}

/// The merged log has the firings of all entries in ascending order of their stamps and then of their workers, and there is
/// one list of the entries in that order.
pub fn merged_ascends()
    ensures { MergedAscends }
{}

/// Inner units that rest in a worker rest in each state that is alike.
pub fn rest_is_shared()
    ensures { RestIsShared }
{}

/// Workers that are locally right, and between which all links are sound, gather to one run of the merged log.
pub fn workers_gather()
    ensures { WorkersGather }
{}

/// An entry more.
pub fn one_entry_more()
    ensures { OneEntryMore }
{}

/// The takes of one entry more.
pub fn one_take_more()
    ensures { OneTakeMore }
{}

/// A credit more.
pub fn one_credit_more()
    ensures { OneCreditMore }
{}

/// More tokens handed out.
pub fn more_handed_out()
    ensures { MoreHandedOut }
{}

/// One firing.
pub fn local_fires()
    ensures { LocalFires }
{}

/// One token more that is handed out.
pub fn local_looks()
    ensures { LocalLooks }
{}

/// A firing in the state that a worker holds is the firing in its state after its log.
pub fn sees_fires()
    ensures { SeesFires }
{}

/// A worker to which a token is handed, and laid into its state, is still one that was made of its tables.
pub fn made_looks()
    ensures { MadeLooks }
{}

/// What a worker sees in the state and the ends that it holds, it may do.
pub fn worker_may()
    ensures { WorkerMay }
{}

/// A worker that made a firing is still one that was made of its tables.
pub fn made_fires()
    ensures { MadeFires }
{}

/// A worker whose ends only took in messages, sent what they owed or were asked is still one that was made of its tables.
pub fn made_keeps()
    ensures { MadeKeeps }
{}

/// A worker holds what its own units keep, and the tokens of the channels to them.
pub fn made_holds()
    ensures { MadeHolds }
{}

/// After an idle sweep no firing of the worker's inner units is enabled in the state that it holds.
pub fn idle_rests()
    ensures { IdleRests }
{}
