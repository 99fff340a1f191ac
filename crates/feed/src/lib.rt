#![tactic(auto)]

// One record of the feed over a lent list of configurations, one for each client: the record is
// admitted by value, and its event goes to the call for one event. (The record is looked at first,
// since that needs no automaton; where it is refused, 11, 12 and 20 still come before its rows.)
ghost use Rattle.std.specs.Prelude.{◌≡◌};
ghost use Rattle.feed_answers.specs.Feed.{fed_for, fed_clients};

use automaton::Automaton;
use clients_answers::ReceivedFor;
use configuration::Configuration;
use feed_answers::Fed;
use feed_entry::{let_in, not_let_in};
use feed_record::{Admitted, Expected, admit};

// The record of these bytes, where this serial is expected.
pub fn receive(
    a: &Automaton,
    table: &[u32],
    configurations: &mut [Configuration],
    bytes: &[u8],
    expected: Expected,
) -> Fed
    ensures { let t = table.now in let s = bytes.now in
        (result ≡ fed_for a.now t configurations.old s expected)
        × (configurations.new ≡ fed_clients a.now t configurations.old s expected) }
{
    match admit(bytes, expected) {
        Ok(record) => {
            let answer = clients::receive(a, table, configurations, record.client, record.symbol);
            let_in(record, expected, answer)
        }
        Err(fault) => {
            let row = u8::from(fault.refusal);
            not_let_in(a, table, configurations.len(), expected, row, fault.place)
        }
    }
}
