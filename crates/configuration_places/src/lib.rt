#![tactic(auto)]

// Two counters that must not be confused: a place in the input and a place in the output. They are
// types of their own, so that code that passes one for the other does not build
// (`tests/places`).
ghost use Rattle.std.specs.Prelude.{◌≡◌};
ghost use Rattle.configuration_places.specs.Places.{waited};

// A place in the input: how many events were accepted before. The first has the place 0, and a
// refused event has none.
#[repr(C)]
#[derive(Clone, Copy, PartialEq, Eq, PartialOrd, Ord)]
pub struct InputPlace(pub u32);

// A place in the output: how many symbols were put out before.
#[repr(C)]
#[derive(Clone, Copy)]
pub struct OutputPlace(pub u32);

// The end of a count: the last number of 32 bits.
pub const COUNT_END: u32 = 4294967295;

impl InputPlace {
    // The wait of an event that was accepted at an earlier place: only a difference of two places
    // in the input is one. (None where the other place is not earlier.)
    pub fn wait(self, earlier: InputPlace) -> u32
        ensures { result ≡ waited self earlier }
    {
        if self <= earlier {
            return 0;
        }
        self.0 - earlier.0
    }
}
