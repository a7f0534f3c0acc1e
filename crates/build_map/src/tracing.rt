// How far the nodes of a row go: the build's own first walk tells it.
ghost use Rattle.std.specs.Prelude.{◌≡◌, ◌≤◌, length};
ghost use Rattle.prelude.specs.Limits.{max_nodes};
ghost use Rattle.resolver.specs.Switches.{Switches};
ghost use Rattle.build_visits.specs.Visits.{visits};
ghost use Rattle.build_map.specs.Steps.{program_of, row_of};
ghost use Rattle.build_map.specs.Map.{traced, whole_reach, stopped_reach};

use crate::Reach;
use crate::rows::LastRow;
use build_plan::meet_row;
use prelude::Refusal;

fn whole(n: u64) -> Reach
    ensures { result ≡ whole_reach n }
{
    Reach {
        verdict: Ok(()),
        nodes: n,
        fault: None,
    }
}

// A node that is refused has an entry too: it is the last of those that are met.
fn stopped(why: Refusal, met: u64) -> Reach
    requires { 1 ≤ met }
    ensures { result ≡ stopped_reach (Err why) met }
{
    Reach {
        verdict: Err(why),
        nodes: met,
        fault: Some(met - 1),
    }
}

impl LastRow<'_> {
    // How far the nodes of a row can be placed one after another. `closed` says whether bank 0 is.
    pub(crate) fn trace(self, closed: bool) -> Reach
        requires kinds_len_bound { length self.kinds.now ≤ max_nodes }
        requires switches { Switches self.banks.len self.kinds.now self.operands.now }
        ensures { result ≡ traced closed (visits (program_of self.entry) (row_of self.entry)) }
    {
        let met = meet_row(
            self.banks,
            self.kinds,
            self.operands,
            self.first,
            self.numbers,
            self.states,
            closed,
        );
        match met.verdict {
            Ok(()) => whole(met.nodes),
            Err(why) => stopped(why, met.nodes),
        }
    }
}
