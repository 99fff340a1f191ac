#![tactic(auto)]

// One event for a client of a lent list of configurations, one for each client: one configuration
// is read and one stored, above the call by value. (The call of a whole day is crate
// `clients_day`.)
ghost use Rattle.std.specs.Prelude.{◌≡◌};
ghost use Rattle.clients_answers.specs.Clients.{received_for, received_clients};

use automaton::Automaton;
use clients_answers::ReceivedFor;
use clients_entry::{absent, answer_of, present};
use configuration::Configuration;
use monitor_answers::Received;

// One event for the client of this number.
pub fn receive(
    a: &Automaton,
    table: &[u32],
    configurations: &mut [Configuration],
    client: u32,
    event: u32,
) -> ReceivedFor
    ensures { let t = table.now in
        (result ≡ received_for a.now t configurations.old client event)
        × (configurations.new ≡ received_clients a.now t configurations.old client event) }
{
    let at = client as usize;
    if configurations.len() <= at {
        return absent(a, table, configurations.len());
    }
    let after = present(a, table, configurations.len(), configurations[at], event);
    configurations[at] = after.configuration;
    answer_of(after)
}
