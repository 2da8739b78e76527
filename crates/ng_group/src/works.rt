use ng_lists::Rings;
use ng_mapper::Mapper;
use ng_policy::{Bounce, Kept, Rules};
use ng_shelf::{MetaStock, Parents};
use ng_space::{LockSeat, Name};
use std::marker::Model;

/// The parts of a core, without what holds of them between two calls.
#[derive(Drop)]
pub(crate) struct Works<N: Name, M: Mapper, P: Rules> {
    /// The seat that steps on the cells under the lock.
    pub(crate) seat: LockSeat<N>,
    /// For each class, the groups that have free slots, or may have.
    pub(crate) rings: Rings,
    /// The metas without a group.
    pub(crate) stock: MetaStock,
    /// The slots that carry nested groups.
    pub(crate) parents: Parents,
    /// For each class, the slots of its live groups.
    pub(crate) usage: [u64; 48],
    pub(crate) bounce: Bounce,
    /// The runs mapped for groups, counted modulo 2^64.
    pub(crate) counter: u64,
    pub(crate) mapper: M,
    pub(crate) rules: Kept<P>,
}

impl<N: Name, M: Mapper, P: Rules> Model for Works<N, M, P> {
    ghost use Rattle.ng_group.specs.States.{State};

    ghost Value = { State M P };

    ghost view = { λ works. record {
      seat = works.seat;
      rings = works.rings;
      stock = works.stock;
      parents = works.parents;
      usage = works.usage;
      bounces = works.bounce;
      counter = works.counter;
      mapper = works.mapper;
      rules = works.rules;
    } };
}
