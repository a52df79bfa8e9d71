//! A section of the exchange that a worker has for a group.
ghost use Rattle.std.specs.Prelude.{◌≡◌, IfOk};
ghost use Rattle.group_turns.specs.Section.{AreListed, Meets};

use crate::letters::list_letters;
use crate::network_run::NetworkGroup;
use crate::run_fault::RunFault;
use crate::shared::Shared;
use network_runs::NetworkRun;
use vlink::Time;

/// In a section of a worker, what the group did goes to the journal, and its letters go to the other groups and are listed; then its own
/// letters come to it. Now and then, or if its next event waits for it, GVT is set in between, so that the group goes on by a GVT in which
/// its own floor and letters count. Returns GVT, in ns, if it was set.
pub fn meet_at<J: NetworkRun>(
    shared: &mut Shared<J>,
    group: &mut NetworkGroup<J>,
    waits: bool,
    letters_ns: &mut [u64],
) -> Result<Option<Time>, RunFault<J>>
    ensures meets { IfOk result (λ gvt. Meets J.plan J.owners waits gvt shared.old group.old shared.new group.new) }
    ensures listed { AreListed J.owners group.old.held.flow.abroad letters_ns.old letters_ns.new }
{
    list_letters(letters_ns, &shared.inner, group);
    shared.post(group)?;
    let gvt = shared.publish_if_due(waits)?;
    shared.collect(group)?;
    Ok(gvt)
}
