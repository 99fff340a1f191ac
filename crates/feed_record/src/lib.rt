#![tactic(auto)]

// One record of the feed by itself (document 02, Card 3): its serial, its client and its symbol in
// seven-bit groups, and whether the serial that is expected lets it in. No automaton, table or
// client is looked at.
ghost use Rattle.std.specs.Prelude.{◌≡◌};
ghost use Rattle.feed_record.specs.Serials.{ahead};
ghost use Rattle.feed_record.specs.Records.{read_of, unread, record_in, admitted_of, turned_away, admission};
ghost use Rattle.refusal.specs.Numbers.{by_number_at};

use refusal::{Fault, Refusal};

// The serial that is expected: none before the first record, so that any is let in, or one. (Not
// an Option: the layout for C and the theorems name these two cases.)
#[derive(Clone, Copy, Debug, PartialEq, Eq)]
pub enum Expected {
    Any,
    Serial(u16),
}

// A record's three numbers.
#[derive(Clone, Copy)]
pub struct Record {
    pub serial: u32,
    pub client: u32,
    pub symbol: u32,
}

// A record that is let in: its event, how many records were lost before it, and the serial that is
// expected next.
#[derive(Clone, Copy)]
pub struct Admitted {
    pub expected: Expected,
    pub loss: u16,
    pub client: u32,
    pub symbol: u32,
}

// The largest serial, after which 0 comes.
pub const MAX_SERIAL: u32 = 65535;

// From this distance on a record is late or a repeat.
pub const LATE_FROM: u16 = 32768;

// The three numbers, left to right: each begins where the one before it ends, and the record ends
// with the last. Rows 1, 2 and 10, with the place of what is wrong with its bytes.
pub fn read_record(bytes: &[u8]) -> Result<Record, Fault>
    ensures { by_number_at read_of unread result ≡ record_in bytes.now }
{
    let serial = varint::read(bytes, 0)?;
    let client = varint::read(bytes, serial.place)?;
    let symbol = varint::read(bytes, client.place)?;
    if symbol.place < bytes.len() {
        return Err(Fault {
            refusal: Refusal::BytesLeft,
            place: symbol.place,
        });
    }
    Ok(Record {
        serial: serial.value,
        client: client.value,
        symbol: symbol.value,
    })
}

// The distance forward from the expected serial, round the ring; 0 where none is expected.
fn ahead(expected: Expected, serial: u16) -> u16
    ensures { result ≡ ahead expected serial }
{
    match expected {
        Expected::Any => 0,
        Expected::Serial(x) => serial.wrapping_sub(x),
    }
}

// Rows 1, 2, 10, 21 and 22, in this order; else the record is let in. (21 and 22 are of the
// serial, which begins at 0.)
pub fn admit(bytes: &[u8], expected: Expected) -> Result<Admitted, Fault>
    ensures { by_number_at admitted_of (turned_away expected) result ≡ admission bytes.now expected }
{
    let record = read_record(bytes)?;
    if MAX_SERIAL < record.serial {
        return Err(Fault {
            refusal: Refusal::LargeSerial,
            place: 0,
        });
    }
    let serial = record.serial as u16;
    let loss = ahead(expected, serial);
    if LATE_FROM <= loss {
        return Err(Fault {
            refusal: Refusal::LateSerial,
            place: 0,
        });
    }
    Ok(Admitted {
        expected: Expected::Serial(serial.wrapping_add(1)),
        loss,
        client: record.client,
        symbol: record.symbol,
    })
}
