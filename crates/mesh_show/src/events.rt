//! The lines of events, in their order.

ghost use Rattle.std.specs.Prelude.{◌≡◌, ◌++◌, flat_map, OnOk, OnErr};
ghost use Rattle.mesh_model.specs.Text.Events.{event_line};
ghost use Rattle.mesh_show.specs.Shown.{AppendsFirst};

use mesh_base::{Events, Names, NoMemory};

/// Appends the line of each event. Where memory runs out, those before it were appended.
pub fn put_events(out: &mut Vec<u8>, names: &Names, events: &Events) -> Result<(), NoMemory>
    ensures ok { OnOk result (out.new.items
        ≡ out.old.items ++ flat_map (event_line names.now) events.now) }
    ensures err { OnErr result
        (AppendsFirst names.now events.now out.old.items out.new.items) }
{
    let mut done = 0;
    while done < events.len() {
        let Some(event) = events.at(done) else {
            unreachable!()
        };
        batctl_text::line(out, names, event)?;
        done += 1;
    }
    Ok(())
}
