ghost use Rattle.std.specs.Prelude.{◌≡◌, ◌↔◌, IfSome, IsSome};
ghost use Rattle.serving_clients.specs.PlaceCounts.{IsPlaceCount};

use std::marker::Model;

/// How many clients a site may answer at once.
pub const MOST_PLACES: u16 = 64;

/// How many clients a site answers at once where nothing else is set.
pub const PLACES: u16 = 4;

/// How many clients a site answers at once, 1 to 64 (this project's own).
#[derive(Clone, Copy)]
pub struct PlaceCount {
    places: u16,
}

impl Model for PlaceCount {
    ghost use Rattle.std.specs.Prelude.{ℕ};
    ghost use Rattle.serving_clients.specs.PlaceCounts.{IsPlaceCount};

    ghost Value = { ℕ };

    ghost view = { λ p. p.places };

    ghost invariant = { λ p. IsPlaceCount p.places };

    ghost inverse = { λ n. record { places = n } };
}

impl PlaceCount {
    /// The count of this number of places. `None` exactly where that is 0, or more than 64.
    pub fn new(places: u16) -> Option<PlaceCount>
        ensures within { IsSome result ↔ IsPlaceCount places }
        ensures value { IfSome result (λ count. count ≡ places) }
    {
        if 0 < places && places <= MOST_PLACES {
            Some(PlaceCount { places })
        } else {
            None
        }
    }

    /// The count where nothing else is set: `PLACES`.
    pub fn usual() -> PlaceCount
        ensures { result ≡ PLACES }
    {
        PlaceCount { places: PLACES }
    }

    /// The number of places, 1 to 64.
    pub fn get(self) -> u16
        ensures value { result ≡ self }
        ensures limit { IsPlaceCount result }
    {
        self.places
    }
}
