#![tactic(auto)]

// The interface for C and for whatever calls C: each call of the monitor over lent bytes. Each
// function is a thin layer over the call that it names: it takes the record and the configuration
// out of their bytes, calls, and lays the answer into bytes. It returns the number of refusal, 0
// where there is none. `include/jaxhophasi.h` declares the functions for C. A list of clients is
// lent as it lies, one configuration after the other (`repr(C)`), and their number.

ghost use Rattle.std.specs.Prelude.{◌≡◌};
ghost use Rattle.automaton_format.specs.Reading.{parse};
ghost use Rattle.automaton_format.specs.Writing.{write_answer, write_buffer};
ghost use Rattle.product_rule.specs.Product.{product_answer};
ghost use Rattle.solver_answers.specs.Solving.{solution, solved_table, count_answer};
ghost use Rattle.configuration.specs.Configuration.{initial_answer};
ghost use Rattle.monitor_answers.specs.Answers.{status};
ghost use Rattle.game.specs.Game.{verdict};
ghost use Rattle.c_layout.specs.Offsets.{number_size};
ghost use Rattle.c_layout.specs.Layout.{automaton_of, automaton_bytes, configuration_of, number_bytes};
ghost use Rattle.c_layout.specs.Answers.{status_bytes, verdict_bytes};
ghost use Rattle.c_layout.specs.Calls.{initial_bytes, receive_leaves, run_leaves, receive_for_leaves, run_for_leaves, feed_leaves};

use c_answers::{
    lay_fed, lay_ran_for, lay_received_for, number_bytes, ran_bytes, received_bytes, status_bytes,
    verdict_bytes,
};
use c_layout::{
    AUTOMATON_SIZE, CONFIGURATION_SIZE, EXPECTED_SIZE, FED_SIZE, NUMBER_SIZE, RAN_SIZE,
    RECEIVED_SIZE, STATUS_SIZE, VERDICT_SIZE,
};
use c_records::{
    automaton_bytes, automaton_of, configuration_bytes, configuration_of, expected_of,
};
use configuration::Configuration;

// Reads an automaton and checks it. Answered are its record and the place of a fault. Refused, the
// bytes of the record become 0.
#[unsafe(no_mangle)]
pub extern "C" fn jaxhophasi_read(
    bytes: &[u8],
    automaton: &mut [u8; AUTOMATON_SIZE],
    place: &mut [u8; NUMBER_SIZE],
) -> u8
    ensures { let x = parse bytes.now in
        (result ≡ x.refusal) × (automaton.new ≡ automaton_bytes x.automaton)
        × (place.new ≡ number_bytes number_size x.place) }
{
    match automaton_read::read(bytes) {
        Ok(a) => {
            *automaton = automaton_bytes(a);
            *place = number_bytes(0);
            0
        }
        Err(fault) => {
            *automaton = [0; AUTOMATON_SIZE];
            *place = number_bytes(fault.place);
            u8::from(fault.refusal)
        }
    }
}

// Writes a sheet at the front of `out`: how many bytes.
#[unsafe(no_mangle)]
pub extern "C" fn jaxhophasi_write(
    automaton: &[u8; AUTOMATON_SIZE],
    out: &mut [u8],
    length: &mut [u8; NUMBER_SIZE],
) -> u8
    ensures { let a = automaton_of automaton.now in let x = write_answer a out.old in
        (result ≡ x.refusal) × (out.new ≡ write_buffer a out.old)
        × (length.new ≡ number_bytes number_size x.length) }
{
    match automaton_write::write(&automaton_of(automaton), out) {
        Ok(written) => {
            *length = number_bytes(written);
            0
        }
        Err(refusal) => {
            *length = number_bytes(0);
            u8::from(refusal)
        }
    }
}

// The product of two automata (document 02, Card 6: two sheets merged into one). Refused, the
// bytes of the record become 0.
#[unsafe(no_mangle)]
pub extern "C" fn jaxhophasi_product(
    first: &[u8; AUTOMATON_SIZE],
    second: &[u8; AUTOMATON_SIZE],
    automaton: &mut [u8; AUTOMATON_SIZE],
) -> u8
    ensures { let x = product_answer (automaton_of first.now) (automaton_of second.now) in
        (result ≡ x.refusal) × (automaton.new ≡ automaton_bytes x.automaton) }
{
    match product::product(&automaton_of(first), &automaton_of(second)) {
        Ok(merged) => {
            *automaton = automaton_bytes(merged);
            0
        }
        Err(refusal) => {
            *automaton = [0; AUTOMATON_SIZE];
            u8::from(refusal)
        }
    }
}

// How many buffers (document 01's held lists) there are: T. The table takes 2 T places.
#[unsafe(no_mangle)]
pub extern "C" fn jaxhophasi_buffers_count(
    automaton: &[u8; AUTOMATON_SIZE],
    count: &mut [u8; NUMBER_SIZE],
) -> u8
    ensures { let x = count_answer (automaton_of automaton.now) in
        (result ≡ x.refusal) × (count.new ≡ number_bytes number_size x.count) }
{
    match solver_answers::buffers_count(&automaton_of(automaton)) {
        Ok(buffers) => {
            *count = number_bytes(buffers as usize);
            0
        }
        Err(refusal) => {
            *count = number_bytes(0);
            u8::from(refusal)
        }
    }
}

// Solves the sheet into the front of `table`: the rounds that struck a state.
#[unsafe(no_mangle)]
pub extern "C" fn jaxhophasi_solve(
    automaton: &[u8; AUTOMATON_SIZE],
    table: &mut [u32],
    rounds: &mut [u8; NUMBER_SIZE],
) -> u8
    ensures { let a = automaton_of automaton.now in let x = solution a table.old in
        (result ≡ x.refusal) × (table.new ≡ solved_table a table.old)
        × (rounds.new ≡ number_bytes number_size x.rounds) }
{
    match solver::solve(&automaton_of(automaton), table) {
        Ok(struck) => {
            *rounds = number_bytes(struck as usize);
            0
        }
        Err(refusal) => {
            *rounds = number_bytes(0);
            u8::from(refusal)
        }
    }
}

// The initial configuration (document 01's fresh). Refused, the lent bytes stay.
#[unsafe(no_mangle)]
pub extern "C" fn jaxhophasi_initial(
    automaton: &[u8; AUTOMATON_SIZE],
    configuration: &mut [u8; CONFIGURATION_SIZE],
) -> u8
    ensures { let x = initial_answer (automaton_of automaton.now) in
        (result ≡ x.refusal) × (configuration.new ≡ initial_bytes automaton.now configuration.old) }
{
    match configuration::initial(&automaton_of(automaton)) {
        Ok(start) => {
            *configuration = configuration_bytes(start);
            0
        }
        Err(refusal) => u8::from(refusal),
    }
}

// Whether a configuration is winning (document 01's guarded).
#[unsafe(no_mangle)]
pub extern "C" fn jaxhophasi_winning(
    automaton: &[u8; AUTOMATON_SIZE],
    table: &[u32],
    configuration: &[u8; CONFIGURATION_SIZE],
    answer: &mut [u8; STATUS_SIZE],
) -> u8
    ensures { let x = status (automaton_of automaton.now) table.now
        (configuration_of configuration.now) in
        (result ≡ x.refusal) × (answer.new ≡ status_bytes x) }
{
    let status = monitor::winning(
        &automaton_of(automaton),
        table,
        configuration_of(configuration),
    );
    *answer = status_bytes(status);
    status.refusal
}

// One event. The configuration becomes the next one.
#[unsafe(no_mangle)]
pub extern "C" fn jaxhophasi_receive(
    automaton: &[u8; AUTOMATON_SIZE],
    table: &[u32],
    configuration: &mut [u8; CONFIGURATION_SIZE],
    event: u32,
    answer: &mut [u8; RECEIVED_SIZE],
) -> u8
    ensures { let x = receive_leaves automaton.now table.now configuration.old event in
        (result ≡ x.refusal) × (configuration.new ≡ x.configuration) × (answer.new ≡ x.answer) }
{
    let a = automaton_of(automaton);
    let received = monitor::receive(&a, table, configuration_of(configuration), event);
    *configuration = configuration_bytes(received.configuration);
    *answer = received_bytes(received);
    received.refusal
}

// A whole day from a configuration on, which becomes the next one.
#[unsafe(no_mangle)]
pub extern "C" fn jaxhophasi_run(
    automaton: &[u8; AUTOMATON_SIZE],
    table: &[u32],
    configuration: &mut [u8; CONFIGURATION_SIZE],
    events: &[u32],
    out: &mut [u8],
    answer: &mut [u8; RAN_SIZE],
) -> u8
    ensures { let t = table.now in let events = events.now in
        let x = run_leaves automaton.now t configuration.old events out.old in
        (result ≡ x.refusal) × (configuration.new ≡ x.configuration) × (answer.new ≡ x.answer)
        × (out.new ≡ x.output) }
{
    let a = automaton_of(automaton);
    let ran = monitor_day::run(&a, table, configuration_of(configuration), events, out);
    *configuration = configuration_bytes(ran.configuration);
    *answer = ran_bytes(ran);
    ran.refusal
}

// One event for a client of a list. Its configuration in the list becomes the next one.
#[unsafe(no_mangle)]
pub extern "C" fn jaxhophasi_receive_for(
    automaton: &[u8; AUTOMATON_SIZE],
    table: &[u32],
    configurations: &mut [Configuration],
    client: u32,
    event: u32,
    answer: &mut [u8; RECEIVED_SIZE],
) -> u8
    ensures { let x = receive_for_leaves automaton.now table.now configurations.old
        client event in
        (result ≡ x.refusal) × (configurations.new ≡ x.configurations) × (answer.new ≡ x.answer) }
{
    let a = automaton_of(automaton);
    let received = clients::receive(&a, table, configurations, client, event);
    lay_received_for(received, answer)
}

// A whole day over a list of clients, whose configurations become the next ones.
#[unsafe(no_mangle)]
pub extern "C" fn jaxhophasi_run_for(
    automaton: &[u8; AUTOMATON_SIZE],
    table: &[u32],
    configurations: &mut [Configuration],
    events: &[u32],
    out: &mut [u8],
    answer: &mut [u8; RAN_SIZE],
) -> u8
    ensures { let t = table.now in let events = events.now in
        let x = run_for_leaves automaton.now t configurations.old events out.old in
        (result ≡ x.refusal) × (configurations.new ≡ x.configurations) × (out.new ≡ x.output)
        × (answer.new ≡ x.answer) }
{
    let a = automaton_of(automaton);
    let ran = clients_day::run(&a, table, configurations, events, out);
    lay_ran_for(ran, answer)
}

// One record of a feed, by its bytes, as an event of its client in the list. The bytes of the
// expected serial become those of the next one; kept, they stay as they are.
#[unsafe(no_mangle)]
pub extern "C" fn jaxhophasi_feed(
    automaton: &[u8; AUTOMATON_SIZE],
    table: &[u32],
    configurations: &mut [Configuration],
    bytes: &[u8],
    expected: &mut [u8; EXPECTED_SIZE],
    answer: &mut [u8; FED_SIZE],
) -> u8
    ensures { let t = table.now in let cs = configurations.old in
        let x = feed_leaves automaton.now t cs bytes.now expected.old in
        (result ≡ x.refusal) × (configurations.new ≡ x.configurations) × (expected.new ≡ x.expected)
        × (answer.new ≡ x.answer) }
{
    let a = automaton_of(automaton);
    let given = expected_of(*expected);
    let fed = feed::receive(&a, table, configurations, bytes, given);
    lay_fed(fed, expected, answer)
}

// The game's two answers for a small automaton (document 01's second judge), without a table.
#[unsafe(no_mangle)]
pub extern "C" fn jaxhophasi_judge(
    automaton: &[u8; AUTOMATON_SIZE],
    configuration: &[u8; CONFIGURATION_SIZE],
    answer: &mut [u8; VERDICT_SIZE],
) -> u8
    ensures { let x = verdict (automaton_of automaton.now) (configuration_of configuration.now) in
        (result ≡ x.refusal) × (answer.new ≡ verdict_bytes x) }
{
    match game_judge::judge(&automaton_of(automaton), configuration_of(configuration)) {
        Ok(verdict) => {
            *answer = verdict_bytes(verdict);
            0
        }
        Err(refusal) => {
            *answer = [0; VERDICT_SIZE];
            u8::from(refusal)
        }
    }
}
