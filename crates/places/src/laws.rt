// A law of the pair that a quotient asks for, stated on a call so that the check asks for its proof.
ghost use Rattle.places.specs.Asking.{OnePair};

// Whoever has the properties of that pair is that pair.
pub fn one_pair_is_asked()
    ensures { OnePair }
{}
