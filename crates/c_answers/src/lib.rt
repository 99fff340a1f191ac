#![tactic(auto)]

// How numbers and answers lie in the bytes that a caller lends: what a call hands back beside its
// refusal and the configuration.
ghost use Rattle.std.specs.Prelude.{◌≡◌};
ghost use Rattle.game.specs.Game.{answered};
ghost use Rattle.c_layout.specs.Offsets.{number_size};
ghost use Rattle.c_layout.specs.Layout.{number_bytes, expected_laid};
ghost use Rattle.c_layout.specs.Answers.{status_bytes, event_bytes, day_bytes, received_bytes, received_for_bytes};
ghost use Rattle.c_layout.specs.Answers.{ran_bytes, ran_for_bytes, fed_bytes, verdict_bytes};

use base::copy;
use c_layout::{
    EXPECTED_SIZE, FED_LOSS, FED_PLACE, FED_SIZE, MAX_EMITTED, NUMBER_SIZE, RAN_LENGTH,
    RAN_REFUSED, RAN_SIZE, RECEIVED_COUNT, RECEIVED_EMITTED, RECEIVED_PLACES, RECEIVED_SIZE,
    RECEIVED_WINNING, STATUS_SIZE, VERDICT_SIZE,
};
use c_places::lay_places;
use c_records::lay_expected;
use clients_answers::{RanFor, ReceivedFor};
use configuration_places::InputPlace;
use feed_answers::Fed;
use game::Verdict;
use monitor_answers::{Ran, Received, Status};

// A number in eight bytes, low byte first.
pub fn number_bytes(value: usize) -> [u8; NUMBER_SIZE]
    ensures { result ≡ number_bytes number_size value }
{
    value.to_le_bytes()
}

pub fn status_bytes(s: Status) -> [u8; STATUS_SIZE]
    ensures { result ≡ status_bytes s }
{
    [s.winning as u8]
}

// One event: the places of what is emitted, how many of them are used, whether the configuration
// is winning, and the place in the input of each symbol emitted.
fn event_bytes(
    emitted: [u8; MAX_EMITTED],
    count: u8,
    winning: bool,
    places: [InputPlace; MAX_EMITTED],
) -> [u8; RECEIVED_SIZE]
    ensures { result ≡ event_bytes emitted count winning places }
{
    let mut bytes = [0u8; RECEIVED_SIZE];
    copy(&emitted, 0, MAX_EMITTED, &mut bytes, RECEIVED_EMITTED);
    bytes[RECEIVED_COUNT] = count;
    bytes[RECEIVED_WINNING] = winning as u8;
    lay_places(&places, &mut bytes, RECEIVED_PLACES);
    bytes
}

pub fn received_bytes(r: Received) -> [u8; RECEIVED_SIZE]
    ensures { result ≡ received_bytes r }
{
    event_bytes(r.emitted, r.count, r.winning, r.places)
}

// Lays the answer to an event for a client, and gives its refusal.
pub fn lay_received_for(r: ReceivedFor, answer: &mut [u8; RECEIVED_SIZE]) -> u8
    ensures { (result ≡ r.refusal) × (answer.new ≡ received_for_bytes r) }
{
    *answer = event_bytes(r.emitted, r.count, r.winning, r.places);
    r.refusal
}

// A whole day: how many bytes were written, and how many events were refused.
fn day_bytes(written: usize, refused: usize) -> [u8; RAN_SIZE]
    ensures { result ≡ day_bytes written refused }
{
    let first = number_bytes(written);
    let second = number_bytes(refused);
    let mut bytes = [0u8; RAN_SIZE];
    copy(&first, 0, NUMBER_SIZE, &mut bytes, RAN_LENGTH);
    copy(&second, 0, NUMBER_SIZE, &mut bytes, RAN_REFUSED);
    bytes
}

pub fn ran_bytes(r: Ran) -> [u8; RAN_SIZE]
    ensures { result ≡ ran_bytes r }
{
    day_bytes(r.length, r.refused)
}

// Lays the answer to a day over a list of clients, and gives its refusal.
pub fn lay_ran_for(r: RanFor, answer: &mut [u8; RAN_SIZE]) -> u8
    ensures { (result ≡ r.refusal) × (answer.new ≡ ran_for_bytes r) }
{
    *answer = day_bytes(r.length, r.refused);
    r.refusal
}

// One record of the feed: the answer to its event, then the loss and the place.
fn fed_bytes(r: Fed) -> [u8; FED_SIZE]
    ensures { result ≡ fed_bytes r }
{
    let answer = r.answer;
    let event = event_bytes(answer.emitted, answer.count, answer.winning, answer.places);
    let loss = number_bytes(r.loss as usize);
    let place = number_bytes(r.place);
    let mut bytes = [0u8; FED_SIZE];
    copy(&event, 0, RECEIVED_SIZE, &mut bytes, 0);
    copy(&loss, 0, NUMBER_SIZE, &mut bytes, FED_LOSS);
    copy(&place, 0, NUMBER_SIZE, &mut bytes, FED_PLACE);
    bytes
}

// Lays the answer to a record and the expected serial, and gives the refusal.
pub fn lay_fed(r: Fed, expected: &mut [u8; EXPECTED_SIZE], answer: &mut [u8; FED_SIZE]) -> u8
    ensures { (result ≡ r.answer.refusal) × (expected.new ≡ expected_laid r.expected expected.old)
        × (answer.new ≡ fed_bytes r) }
{
    lay_expected(r.expected, expected);
    *answer = fed_bytes(r);
    r.answer.refusal
}

pub fn verdict_bytes(v: Verdict) -> [u8; VERDICT_SIZE]
    ensures { result ≡ verdict_bytes (answered v) }
{
    [v.may_rest as u8, v.can_rest as u8]
}
