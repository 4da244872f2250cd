//! What nodes of the kinds that look at their earlier events send.
ghost use Rattle.fw_examples.specs.KindsSend.{DistinctSendsTheFirst, JoinSendsEachPair, LedgerSendsRunningTotals, RegroupSendsAtEpochs, SequenceSendsNumbers, SumSendsAtTheEnd, TotalSendsUpToNow};

/// Of equal recs at an epoch the first is sent on.
pub fn distinct_sends_the_first()
    ensures { DistinctSendsTheFirst }
{}

/// A rec is joined with each rec of its key at its epoch on the other edge.
pub fn join_sends_each_pair()
    ensures { JoinSendsEachPair }
{}

/// A sum is of the values at its epoch, modulo 2^64, and is sent at the notification.
pub fn sum_sends_at_the_end()
    ensures { SumSendsAtTheEnd }
{}

/// A total is of the values up to its epoch, for the keys at its epoch.
pub fn total_sends_up_to_now()
    ensures { TotalSendsUpToNow }
{}

/// A sequence sends the recs of an epoch in order, at the next numbers.
pub fn sequence_sends_numbers()
    ensures { SequenceSendsNumbers }
{}

/// A ledger sends the running total of the key of each rec.
pub fn ledger_sends_running_totals()
    ensures { LedgerSendsRunningTotals }
{}

/// Regrouping sends the recs of so many numbers at one epoch.
pub fn regroup_sends_at_epochs()
    ensures { RegroupSendsAtEpochs }
{}
