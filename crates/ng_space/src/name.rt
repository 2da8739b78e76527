use std::marker::Brand;

/// Names one heap. It carries facts for contracts alone. What belongs to a heap has its name as a type
/// parameter, so that no call is given parts of two heaps.
pub trait Name {
    ghost use Rattle.ng_space.specs.Names.{Facts};

    ghost facts: { Facts };
}

impl Name for Brand {
    ghost use Rattle.ng_space.specs.Names.{no_facts};

    ghost facts = { no_facts };
}
