// Nets from bytes.
ghost use Rattle.std.specs.Prelude.{◌≡◌, ◌≤◌, false, length, MatchOption};
ghost use Rattle.rules.specs.Design.{most_modules};
ghost use Rattle.rules.specs.Score.{SameNet};
ghost use Rattle.costs.specs.Slices.{net_there, first_net, past_net};
ghost use Rattle.costs.specs.Places.{net_with, Split, NetsFrom};

use rules::{MOST_MODULES, MOST_NETS, Net};

// stays: (a) no heap: nets have fixed places, and `Cost` and `Net` of rules have the count beside them.
// The nets in their places, and how many there are.
#[derive(Clone, Copy)]
pub struct Taken {
    pub nets: [Net; MOST_NETS],
    pub count: usize,
}

// The net of these members.
fn net_with(members: &[u8]) -> Net
    requires { length members.now ≤ most_modules }
    ensures { SameNet result (net_with members.now) }
{
    let mut modules = [0; MOST_MODULES];
    modules[..members.len()].copy_from_slice(members);
    Net {
        count: members.len(),
        modules,
    }
}

// The members of the net that bytes begin with and the bytes past it, if a net is there: its members have places, and the bytes do
// not end in it.
fn split_net(bytes: &[u8]) -> Option<(&[u8], &[u8])>
    ensures { MatchOption result (net_there bytes.now ≡ false) (λ p. Split bytes.now p.0.now p.1.now) }
{
    let Some((count, rest)) = bytes.split_first() else {
        return None;
    };
    let count = *count as usize;
    if count > MOST_MODULES {
        return None;
    }
    rest.split_at_checked(count)
}

// The net that bytes begin with and the bytes past it. What is no net is empty, and the last.
fn first_net(bytes: &[u8]) -> (Net, &[u8])
    ensures net { SameNet result.0 (first_net bytes.now) }
    ensures past { result.1.now ≡ past_net bytes.now }
{
    match split_net(bytes) {
        Some((members, past)) => (net_with(members), past),
        None => (net_with(&[]), &[]),
    }
}

// All nets, in their places; one that has no place is counted.
pub fn nets_in(bytes: &[u8]) -> Taken
    ensures { NetsFrom bytes.now result.nets result.count }
{
    let mut nets = [net_with(&[]); MOST_NETS];
    let mut rest = bytes;
    // stays: (d) the number of nets so far is what is answered, and indexes the next place alone.
    for count in 0..MOST_NETS {
        if rest.is_empty() {
            return Taken { nets, count };
        }
        let (net, past) = first_net(rest);
        nets[count] = net;
        rest = past;
    }
    if rest.is_empty() {
        return Taken {
            nets,
            count: MOST_NETS,
        };
    }
    Taken {
        nets,
        count: MOST_NETS + 1,
    }
}
