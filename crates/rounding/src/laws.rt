// The laws of rounding, stated on a call so that the check asks for their proof.
ghost use Rattle.rounding.specs.Laws.{KeepsValues, Neighbours, SameAnswers, RisingAnswers};

// Whatever the format and the lawful rule: a value that the format has is answered as itself; no value of the format lies
// strictly between an answer and its exact value; equal values other than zero have equal encodings and flags; and a lesser
// value never has the greater answer.
pub fn rounding_is_faithful()
    ensures kept { KeepsValues }
    ensures neighbours { Neighbours }
    ensures same { SameAnswers }
    ensures rising { RisingAnswers }
{}
