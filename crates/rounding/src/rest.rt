// What is left of a value beyond its whole units in the last place.

// The kinds of rest, in rising order: none, under half a unit, half, over half.
#[derive(Clone, Copy)]
pub enum Rest {
    Nothing,
    UnderHalf,
    Half,
    OverHalf,
}
