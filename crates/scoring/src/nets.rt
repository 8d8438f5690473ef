// Nets: whether they are lawful.
ghost use Rattle.std.specs.Prelude.{◌≡◌};
ghost use Rattle.rules.specs.Score.{lawful_net, lawful_nets};

use rules::{Cost, MOST_MODULES, MOST_NETS, Net};

// A net that names some modules, and none that is missing.
fn is_net(modules: usize, net: Net) -> bool
    ensures { result ≡ lawful_net modules net }
{
    if net.count < 1 {
        return false;
    }
    if MOST_MODULES < net.count {
        return false;
    }
    for member in &net.modules[..net.count] {
        if modules <= *member as usize {
            return false;
        }
    }
    true
}

// The nets are no more than there may be, and lawful.
pub fn are_nets(modules: usize, cost: Cost) -> bool
    ensures { result ≡ lawful_nets modules cost.nets cost.net_count }
{
    if MOST_NETS < cost.net_count {
        return false;
    }
    for net in &cost.nets[..cost.net_count] {
        if !is_net(modules, *net) {
            return false;
        }
    }
    true
}
