// Rising places that stand at a distance behind others.

ghost use Rattle.std.specs.Prelude.{◌≡◌, ℕ, ◌+◌, ◌<◌, ◌≤◌, ◌==◌, length, drop, take, filter, nat_lt};
ghost use Rattle.term_postings.specs.Postings.{AreRising};
ghost use Rattle.doc_sets.specs.Asked.{is_among};
ghost use Rattle.doc_sets.specs.Seeking.{begins_with, BeginFrom};

// Whether a place stands less than a distance behind another one.
fn is_before(place: u64, start: u64, distance: u64) -> bool
    ensures { result ≡ nat_lt place (start + distance) }
{
    place < start || place - start < distance
}

// The first of the places from one on that stands a distance or more behind another one.
fn first_behind(places: &[u64], from: usize, start: u64, distance: u64) -> usize
    requires { from ≤ length places.now }
    ensures within { result ≤ length places.now }
    ensures others { (m : ℕ) → start + distance ≤ m → is_among m (drop result places.now) ≡ is_among m (drop from places.now) }
    ensures first { BeginFrom (start + distance) (drop result places.now) }
{
    for at in from..places.len() {
        if !is_before(places[at], start, distance) {
            return at;
        }
    }
    places.len()
}

// Whether the place with a number stands at a distance behind another one.
fn stands_there(places: &[u64], at: usize, start: u64, distance: u64) -> bool
    ensures { result ≡ begins_with (start + distance) (drop at places.now) }
{
    if at < places.len() {
        let place = places[at];
        place >= start && place - start == distance
    } else {
        false
    }
}

// Puts those of some rising numbers, at a distance behind which a place stands, in front of the others, and says how many they are.
fn put_in_front(starts: &mut [u64], places: &[u64], distance: u64) -> usize
    ensures within { result ≤ length starts.old }
    ensures only { AreRising starts.old → AreRising places.now → take result starts.new ≡ filter (λ start. is_among (start + distance) places.now) starts.old }
{
    let mut kept = 0;
    let mut at = 0;
    for number in 0..starts.len() {
        let start = starts[number];
        at = first_behind(places, at, start, distance);
        if stands_there(places, at, start, distance) {
            starts[kept] = start;
            kept += 1;
        }
    }
    kept
}

// Leaves those of some rising numbers, at a distance behind which a place stands.
pub(crate) fn keep_behind(starts: &mut Vec<u64>, places: &[u64], distance: u64)
    ensures { AreRising starts.old.items → AreRising places.now → starts.new.items ≡ filter (λ start. is_among (start + distance) places.now) starts.old.items }
{
    let kept = put_in_front(starts, places, distance);
    starts.truncate(kept);
}
