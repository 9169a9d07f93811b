// The net of a setup.
ghost use Rattle.std.specs.Prelude.{◌≡◌};
ghost use Rattle.server.specs.Setup.{net_answer, net_view};

use frame::event::Events;
use frame::fault::FrameFault;
use nets::net::Net;

// Makes the net, or refuses the first event that breaks a rule.
pub(crate) fn build(events: &Events<'_>) -> Result<Net, FrameFault>
    ensures { net_view result ≡ net_answer events.now.place events.now.bytes.now }
{
    let mut net = Net::new();
    for (i, event) in (0..48u8).zip(events.iter()) {
        let place = events.place_of(i);
        net.add(event).map_err(|_| FrameFault::BadSetup(place))?;
    }
    Ok(net)
}
