//! The row of a reboot, as far as it is on the node's own clients.

ghost use Rattle.std.specs.Prelude.{◌≡◌, ◌+◌, ℕ, List, [], length, OnOk};
ghost use Rattle.mesh_model.specs.Acts.Rows.{alias_event, reboot_acts};
ghost use Rattle.mesh_model.specs.Clients.Mentions.{Mention};
ghost use Rattle.mesh_model.specs.Commits.Aliases.{last_alias};
ghost use Rattle.mesh_model.specs.Commits.History.{History, restarted};
ghost use Rattle.node_ground.specs.Puts.{Puts};
ghost use Rattle.tt_local.specs.Locals.{LocalsStand};

use mesh_base::Event;
use mesh_model::Act;
use node_ground::{NodeErr, Place, Port};
use tt_local::Locals;

// Tells of the alias of the last commit, which has this number, where there is one.
pub(crate) fn tell_alias<P: Port>(
    port: &mut P,
    locals: &Locals,
    at: Place,
    commit: u64,
) -> Result<(), NodeErr>
    ensures { (mentions : List Mention) (history : History) (since : ℕ) →
        LocalsStand locals.now mentions history since → commit + 1 ≡ length history.commits →
        Puts P.takes P.same P.over port.old
        (alias_event at.me commit (last_alias history.commits)) result port.new }
{
    let Some(earlier) = locals.alias_of(commit)? else {
        return Ok(());
    };
    port.put(Act::Print(Event::Alias {
        node: at.me,
        commit,
        earlier,
    }))?;
    Ok(())
}

/// A reboot: a new first commit, whose alias is told.
pub fn reboot<P: Port>(port: &mut P, locals: &mut Locals, at: Place) -> Result<(), NodeErr>
    ensures puts { (mentions : List Mention) (history : History) (since : ℕ) →
        LocalsStand locals.old mentions history since →
        Puts P.takes P.same P.over port.old (reboot_acts at.me history) result port.new }
    ensures restarted { (mentions : List Mention) (history : History) (since : ℕ) →
        LocalsStand locals.old mentions history since →
        OnOk result (LocalsStand locals.new [] (restarted history) 0) }
{
    let commit = locals.restart()?;
    tell_alias(port, locals, at, commit)?;
    Ok(())
}
