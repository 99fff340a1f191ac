#![tactic(auto)]

// What a call on one record of the feed hands back. The answer itself is defined in specs/; the
// crate `feed` has the call.
use clients_answers::ReceivedFor;
use feed_record::Expected;

// The answer to the record's event, with the row that refuses the call; the place of a fault in
// the record's bytes (else 0); the serial that is expected next; and how many records were lost
// before this one. Refused before its event is looked at (rows 11, 12, 20, 1, 2, 10, 21, 22), the
// expected serial is handed back as it was given, and nothing is lost.
#[derive(Clone, Copy)]
pub struct Fed {
    pub answer: ReceivedFor,
    pub place: usize,
    pub expected: Expected,
    pub loss: u16,
}
