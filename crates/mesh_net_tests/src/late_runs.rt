ghost use Rattle.mesh_net.specs.NetStands.{IsNet};

use mesh_algo::Algo;
use mesh_base::{Events, Millis};
use mesh_iv::Iv;
use mesh_model::LimitName;
use mesh_net::{Net, NetErr};

// Runs a net whose clock isn't past a moment until then.
fn run_until(net: &mut Net<Iv>, t: Millis, log: &mut Events) -> Result<(), NetErr>
    requires { IsNet ⟦<Iv as Algo>⟧.queries ⟦<Iv as Algo>⟧.stands net.old }
    ensures { IsNet ⟦<Iv as Algo>⟧.queries ⟦<Iv as Algo>⟧.stands net.new }
{
    if net.now() > t {
        return Err(NetErr::Dead);
    }
    net.run_to(t, log)
}

#[test]
fn a_run_past_the_clock_is_too_late(rt: HostRuntime) {
    let mut net = Net::new(rt.alloc());
    let mut log = Events::new(rt.alloc());
    let late = run_until(&mut net, 1_099_511_627_777, &mut log);
    assert_eq!(rt; late, Err(NetErr::Limit(LimitName::Clock)));
    assert_eq!(rt; run_until(&mut net, 0, &mut log), Err(NetErr::Dead));
}
