// Worked examples, computed from the definitions that the contracts use.
ghost use Rattle.replay.specs.Examples.{Examples};

pub fn examples_hold()
    ensures { Examples }
{}
