ghost use Rattle.hybrid_rle.specs.Table.{Examples};

// The worked cases of the definitions: what they compute is a theorem, and there is nothing to run.
pub fn examples_stand()
    ensures { Examples }
{}
