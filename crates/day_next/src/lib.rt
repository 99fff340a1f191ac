#![tactic(auto)]

// One line of the transcript at a time.
ghost use Rattle.std.specs.Prelude.{◌≡◌, ◌+◌, ◌≤◌, ◌<◌, length};
ghost use Rattle.text.specs.Decimal.{Appended};
ghost use Rattle.text_lines.specs.Lines.{line_room};
ghost use Rattle.day_transcript.specs.Transcript.{first_line, answer_line, after};
ghost use Rattle.day_transcript.specs.Pieces.{belongs, at, Line};

use day_lines::{automaton_line, event_line};
use day_transcript::{Phase, Piece, Progress, Session};
use monitor_answers::Received;
use text_lines::{end_line, fault_line, refusal_line, refused_event_line};

fn answer_line(out: &mut [u8], from: usize, event: u32, answer: Received) -> usize
    requires { (answer.count ≤ 7) × (from + line_room ≤ length out.old) }
    ensures { Appended out.old from (answer_line event answer) out.new result }
{
    if answer.refusal != 0 {
        return refused_event_line(out, from, event, answer.refusal);
    }
    let c = answer.configuration;
    let emitted = answer.emitted;
    let count = usize::from(answer.count);
    event_line(
        out,
        from,
        event,
        &emitted[..count],
        c.state,
        c.held,
        answer.winning,
    )
}

// The session after an event that was answered.
fn after(session: Session, next: usize, answer: Received) -> Session
    requires { session.accepted + session.refused < next }
    ensures { result ≡ after session next answer }
{
    let moved = Session {
        configuration: answer.configuration,
        place: next,
        ..session
    };
    if answer.refusal != 0 {
        return Session {
            refused: session.refused + 1,
            ..moved
        };
    }
    Session {
        accepted: session.accepted + 1,
        ..moved
    }
}

fn first_line(session: Session, table: &[u32], out: &mut [u8], from: usize) -> usize
    requires { from + line_room ≤ length out.old }
    ensures { Appended out.old from (first_line table.now session) out.new result }
{
    let a = &session.automaton;
    let status = monitor::winning(a, table, session.configuration);
    automaton_line(
        out,
        from,
        a.states,
        a.symbols,
        a.capacity,
        a.initial,
        status.winning,
    )
}

// Whether the session is one of an input of so many bytes.
fn belongs(session: Session, length: usize) -> bool
    ensures { result ≡ belongs length session }
{
    session.accepted <= session.place
        && session.refused <= session.place - session.accepted
        && session.place <= length
}

fn piece(phase: Phase, session: Session, length: usize) -> Piece
    ensures { (result.progress ≡ at phase session) × (result.length ≡ length) }
{
    Piece {
        progress: Progress { phase, session },
        length,
    }
}

// A session's first line.
fn opening_line(session: Session, input: &[u8], table: &[u32], out: &mut [u8], from: usize) -> Piece
    requires { from + line_room ≤ length out.old }
    ensures { Line table.now input.now (at Phase.Opening session) out.old from
        out.new result.progress result.length }
{
    if !belongs(session, input.len()) {
        return piece(Phase::Ended, session, from);
    }
    let next = first_line(session, table, out, from);
    piece(Phase::Receiving, session, next)
}

// The next event's line, or the last line, or that of a fault in the event's number.
fn receiving_line(
    session: Session,
    input: &[u8],
    table: &[u32],
    out: &mut [u8],
    from: usize,
) -> Piece
    requires { from + line_room ≤ length out.old }
    ensures { Line table.now input.now (at Phase.Receiving session) out.old from
        out.new result.progress result.length }
{
    if !belongs(session, input.len()) {
        return piece(Phase::Ended, session, from);
    }
    let place = session.place;
    if input.len() <= place {
        let next = end_line(out, from, session.accepted, session.refused);
        return piece(Phase::Ended, session, next);
    }
    let taken = match varint_reader::take_at(input, place) {
        Ok(taken) => taken,
        Err(fault) => {
            let next = fault_line(out, from, u8::from(fault.refusal), fault.place);
            return piece(Phase::Ended, session, next);
        }
    };
    let answer = monitor::receive(
        &session.automaton,
        table,
        session.configuration,
        taken.value,
    );
    let next = answer_line(out, from, taken.value, answer);
    piece(Phase::Receiving, after(session, taken.place, answer), next)
}

pub fn line(progress: Progress, input: &[u8], table: &[u32], out: &mut [u8], from: usize) -> Piece
    requires { from + line_room ≤ length out.old }
    ensures { Line table.now input.now progress out.old from
        out.new result.progress result.length }
{
    let Progress { phase, session } = progress;
    match phase {
        Phase::Ended => piece(Phase::Ended, session, from),
        Phase::Refused(row) => {
            let next = refusal_line(out, from, row);
            piece(Phase::Ended, session, next)
        }
        Phase::Faulted(row, place) => {
            let next = fault_line(out, from, row, place);
            piece(Phase::Ended, session, next)
        }
        Phase::Opening => opening_line(session, input, table, out, from),
        Phase::Receiving => receiving_line(session, input, table, out, from),
    }
}
