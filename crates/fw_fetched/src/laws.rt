//! The laws of fetching, as functions that do nothing: the clause of each is the law.
ghost use Rattle.fw_fetched.specs.LawsOfFetching.{JoinedHasTheState, JoinedLogIsAllLogs, FetchedRestoresTheChain, FetchedRestoresWhatIsRead, RecoveryReadsWhatIsFetched};

/// Where of some events those inside the front of each checkpoint of a chain have what it says, those inside the last front have the
/// state of the checkpoint that is joined of these.
pub fn joined_has_the_state()
    ensures { JoinedHasTheState }
{}

/// The log of an edge has of the joined log what it has of the logs of the chain.
pub fn joined_log_is_all_logs()
    ensures { JoinedLogIsAllLogs }
{}

/// What is restored from the one record that is joined of a chain is restored from the records of the chain.
pub fn fetched_restores_the_chain()
    ensures { FetchedRestoresTheChain }
{}

/// What is restored from the whole record that fetching gives of a checkpoint is restored from the records that are read of the
/// checkpoints on which it stands and of itself, one after the other, where the store tells its records.
pub fn fetched_restores_what_is_read()
    ensures { FetchedRestoresWhatIsRead }
{}

/// Where an engine stands for a state, and the choice of a recovery cuts a node that is restored by checkpoints exactly to an
/// acknowledged one, the entries of the node that it asks for are just those whose records fetching this one joins, in order.
pub fn recovery_reads_what_is_fetched()
    ensures { RecoveryReadsWhatIsFetched }
{}
