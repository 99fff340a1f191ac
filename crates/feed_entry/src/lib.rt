#![tactic(auto)]

// A call on one record of the feed as far as it needs no list: the answer to a record that is let
// in, and to one that is not.
ghost use Rattle.std.specs.Prelude.{◌≡◌};
ghost use Rattle.clients_answers.specs.Clients.{refused_for};
ghost use Rattle.feed_record.specs.Records.{admitted_of, turned_away};
ghost use Rattle.feed_answers.specs.Feed.{refused_fed};
ghost use Rattle.feed_entry.specs.Entries.{refuses_call, not_let_in, let_in_of};

use automaton::Automaton;
use clients_answers::ReceivedFor;
use clients_entry::enter_list;
use feed_answers::Fed;
use feed_record::{Admitted, Expected};

// Whether a row refuses a call over a list before the record is looked at: 11, 12 and 20. (Not
// `matches!`: the goals of an or-pattern's arms do not say which number was matched.)
fn refuses_call(row: u8) -> bool
    ensures { result ≡ refuses_call row }
{
    row == 11 || row == 12 || row == 20
}

fn refused(row: u8, place: usize, expected: Expected) -> Fed
    ensures { result ≡ refused_fed expected row place }
{
    let answer = clients_entry::refused(row);
    Fed {
        answer,
        place,
        expected,
        loss: 0,
    }
}

// The answer to a record that is not let in, in a list of so many: rows 11, 12 and 20 come before
// its own. (A number stands for the row, and no `Fault`: the promise is about every number.)
pub fn not_let_in(
    a: &Automaton,
    table: &[u32],
    count: usize,
    expected: Expected,
    row: u8,
    place: usize,
) -> Fed
    ensures { result ≡ not_let_in a.now table.now count (turned_away expected row place) }
{
    let entry = enter_list(a, table, count);
    if entry.refusal != 0 {
        return refused(entry.refusal, 0, expected);
    }
    refused(row, place, expected)
}

// The answer to a record that is let in, by the answer to its event. Where that is a row of the
// list's, the expected serial is kept as it was given.
pub fn let_in(m: Admitted, given: Expected, answer: ReceivedFor) -> Fed
    ensures { result ≡ let_in_of (admitted_of m) given answer }
{
    if refuses_call(answer.refusal) {
        return Fed {
            answer,
            place: 0,
            expected: given,
            loss: 0,
        };
    }
    Fed {
        answer,
        place: 0,
        expected: m.expected,
        loss: m.loss,
    }
}
