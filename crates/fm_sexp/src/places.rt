ghost use Rattle.std.specs.Prelude.{◌≡◌, ℕ, ◌+◌, ◌<◌, ◌≤◌, ◌^◌, length};
ghost use Rattle.fm_sexp.specs.Places.{place_after, place_from};

use fm_base::Place;

// The place behind a byte.
fn behind(place: Place, byte: u8) -> Place
    requires line { place.line + 1 < 2 ^ 64 }
    requires column { place.column + 1 < 2 ^ 64 }
    ensures value { result ≡ place_after place byte }
    ensures line { result.line ≤ place.line + 1 }
    ensures column { result.column ≤ place.column + 1 }
{
    if byte == b'\n' {
        Place {
            line: place.line + 1,
            column: 1,
        }
    } else {
        Place {
            line: place.line,
            column: place.column + 1,
        }
    }
}

// The place behind some bytes.
pub(crate) fn advance(start: Place, bytes: &[u8]) -> Place
    requires line { start.line + length bytes.now < 2 ^ 64 }
    requires column { start.column + length bytes.now < 2 ^ 64 }
    ensures value { result ≡ place_from start bytes.now }
    ensures line { result.line ≤ start.line + length bytes.now }
    ensures column { result.column ≤ start.column + length bytes.now }
{
    let mut place = start;
    for byte in bytes {
        place = behind(place, *byte);
    }
    place
}
