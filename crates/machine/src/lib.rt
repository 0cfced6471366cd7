// The plain machine and the claim about whole lists of calls; see specs/.
#![tactic(auto)]

ghost use Rattle.machine.specs.Runs.{EachListFollows, FreshAnswers, EachListRuns, EachFreshBegins};
ghost use Rattle.machine.specs.Readings.{EndsAsRead, DepthKept, SameBytes, PastTheEnd, OldDriver};
ghost use Rattle.machine.specs.ReadsBack.{EachPollReadsBack};

// What is proved of every list of calls, a theorem a clause. A theorem counts where a contract names it, so this one does; there is
// nothing to run.
pub fn claim()
    // every outcome is the machine's, and so are state and memory at the end
    ensures each_list_follows { EachListFollows }
    ensures fresh_answers { FreshAnswers }

    // what is read of the end, and of a poll after it
    ensures ends_as_read { EndsAsRead }
    ensures depth_kept { DepthKept }
    ensures same_bytes { SameBytes }
    ensures past_the_end { PastTheEnd }
    ensures old_driver { OldDriver }

    // what was captured comes back
    ensures each_poll_reads_back { EachPollReadsBack }

    // none of these speaks of nothing
    ensures each_list_runs { EachListRuns }
    ensures each_fresh_begins { EachFreshBegins }
{}
