#![tactic(auto)]

// The places in the input of the events at hand when one comes: of what is then emitted, and of
// what is then held. They stand in the order in which their events go out, the newcomer's at an
// index of its own: first where it passes, behind those that are held where it waits.
ghost use Rattle.std.specs.Prelude.{◌≡◌, not, ◌&&◌, ◌+◌, ◌-◌, ◌≤◌, eqb, get_or, take, drop};
ghost use Rattle.configuration_places.specs.Places.{input_place, pad_places};
ghost use Rattle.monitor_places.specs.Lines.{joined_by, own_index, places_after, AfterRequires};

use configuration_places::InputPlace;

// The place at i in this line.
fn in_line(places: [InputPlace; 6], own: usize, newcomer: InputPlace, i: usize) -> InputPlace
    requires { (own ≤ 6) × (i ≤ 6) }
    ensures { result ≡ get_or (joined_by own newcomer places) i (input_place 0) }
{
    if i < own {
        return places[i];
    }
    if i == own {
        return newcomer;
    }
    places[i - 1]
}

// So many in line from a place on, in an array of N: the first ones are those of what is emitted,
// the others of what is held then.
pub fn places_from<const N: usize>(
    places: [InputPlace; 6],
    own: usize,
    newcomer: InputPlace,
    from: usize,
    count: usize,
) -> [InputPlace; N]
    requires { (own ≤ 6) × (count ≤ N) × (from + count ≤ 7) }
    ensures { result ≡ pad_places N (take count (drop from (joined_by own newcomer places))) }
{
    let mut part = [InputPlace(0); N];
    for i in 0..count {
        part[i] = in_line(places, own, newcomer, from + i);
    }
    part
}

// The places of what is held after a release, with how many were held before the event and how
// many are now. (Where these and the released ones are as many as before, the newcomer passed;
// else it is one of them.)
fn places_left(
    places: [InputPlace; 6],
    before: usize,
    newcomer: InputPlace,
    released: usize,
    held: usize,
) -> [InputPlace; 6]
    requires { (before ≤ 6) × (held ≤ before) × (released ≤ 7) }
    ensures { result ≡ places_after places before newcomer released held }
{
    if released + held == before {
        return places_from(places, 0, newcomer, before + 1 - held, held);
    }
    places_from(places, before, newcomer, before + 1 - held, held)
}

// Whether a release moves places: some were held, and some are released.
fn moves(before: usize, released: usize) -> bool
    ensures { result ≡ not (eqb before 0) && not (eqb released 0) }
{
    if before == 0 {
        return false;
    }
    released != 0
}

// The places of what is held after an accepted event: the newcomer's behind the others where it
// waits with all of them, those left after a release, else as before.
pub fn places_after(
    places: [InputPlace; 6],
    before: usize,
    newcomer: InputPlace,
    released: usize,
    held: usize,
) -> [InputPlace; 6]
    requires { AfterRequires places before released held }
    ensures { result ≡ places_after places before newcomer released held }
{
    if before < held {
        let mut longer = places;
        longer[before] = newcomer;
        return longer;
    }
    if moves(before, released) {
        return places_left(places, before, newcomer, released, held);
    }
    places
}
