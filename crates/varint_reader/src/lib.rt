#![tactic(auto)]

// A reader of numbers, in the form that document 01 names: it keeps the day's bytes and its place
// among them. It is thin over `varint::read`; whoever has a slice and a place calls `take_at` for
// each number in turn, or `read_at` for one.
ghost use Rattle.std.specs.Prelude.{◌≡◌};
ghost use Rattle.refusal.specs.Numbers.{by_number_at};
ghost use Rattle.varint.specs.Varint.{read, decoded, fault};

use refusal::Fault;
use varint::Decoded;

#[derive(Clone, Copy)]
pub struct Reader<'a> {
    pub bytes: &'a [u8],
    pub at: usize,
}

impl<'a> Reader<'a> {
    pub fn new(bytes: &'a [u8], at: usize) -> Reader<'a>
        ensures { (result.bytes ≡ bytes.entry) × (result.at ≡ at) }
    {
        Reader { bytes, at }
    }

    // The number at the reader's place.
    pub fn next(self) -> Result<Decoded, Fault>
        ensures { by_number_at decoded fault result ≡ read self.entry.bytes.now self.entry.at }
    {
        varint::read(self.bytes, self.at)
    }

    // A reader of the same bytes that stands at another place.
    pub fn moved(self, at: usize) -> Reader<'a>
        ensures { (result.bytes ≡ self.entry.bytes) × (result.at ≡ at) }
    {
        Reader { at, ..self }
    }
}

// One reader takes the number at a place of some bytes and is moved behind it: the number, and the
// place where the reader stands. (Where the number is refused it stands where the number begins,
// as `varint::read` says.)
pub fn take_at(bytes: &[u8], at: usize) -> Result<Decoded, Fault>
    ensures { by_number_at decoded fault result ≡ read bytes.now at }
{
    let reader = Reader::new(bytes, at);
    let number = reader.next()?;
    let after = reader.moved(number.place);
    Ok(Decoded {
        value: number.value,
        place: after.at,
    })
}

// The number at a place, for whoever reads one number and goes on by other means.
pub fn read_at(bytes: &[u8], at: usize) -> Result<Decoded, Fault>
    ensures { by_number_at decoded fault result ≡ read bytes.now at }
{
    take_at(bytes, at)
}
