// A heap's beginning and end.
ghost use Rattle.std.specs.Prelude.{◌≡◌, IfErr, IfOk, length};
ghost use Rattle.ng_group.specs.Opening.{AreEmpty, IsFreshMapper, IsHandedBack};
ghost use Rattle.ng_space.specs.Callers.{fresh_callers, opened};
ghost use Rattle.ng_space.specs.Closings.{AreAll, IsClosed, IsEven, books_of};

use ng_group::{Core, Tables};
use ng_history::{Book, Host};
use ng_mapper::Mapper;
use ng_policy::{Kept, Rules};
use ng_space::{Blank, Hand, Image, Name, Space};
use std::alloc::Global;

/// A heap, whose cells threads share by reference. Its core and its hands are parts of their own.
#[derive(Drop)]
pub struct Heap<N: Name> {
    pub(crate) space: Space<N>,
}

impl<N: Name> Heap<N> {
    /// Gives a heap its name: its cells, its core, and a hand for each book, numbered from 1 on. Only the list of hands
    /// takes memory. Where the host has too little, the mapper is handed back.
    pub fn open<M: Mapper, P: Rules + Drop>(
        alloc: Global,
        blank: Blank,
        tables: Tables,
        mapper: M,
        rules: Kept<P>,
    ) -> Result<(Heap<N>, Core<N, M, P>, Vec<Hand<N>>), (M, Host)>
        requires table { blank.table ≡ N.facts.table }
        requires start { blank.start ≡ N.facts.start }
        requires tables { AreEmpty N.facts.start.pages tables }
        requires hands { length blank.rooms ≡ N.facts.hands }
        requires mapper { IsFreshMapper N.facts.start (M.span mapper) (M.runs mapper) (M.refused mapper) }
        requires most { (M.refused mapper).most ≡ N.facts.most }
        ensures hands { IfOk result (λ made. made.2.items ≡ fresh_callers 1 blank.rooms) }
        ensures seat { IfOk result (λ made. made.1.seat ≡ opened N.facts.start N.facts.hands) }
        ensures mapper { IfOk result (λ made. made.1.mapper ≡ mapper) }
        ensures rules { IfOk result (λ made. made.1.rules ≡ rules) }
        ensures counter { IfOk result (λ made. made.1.counter ≡ 0) }
        ensures handed_back { IfErr result (λ error. error.0 ≡ mapper) }
    {
        match Space::open(alloc, blank) {
            Ok((space, seat, hands)) => {
                let core = Core::open(&space, seat, tables, mapper, rules);
                Ok((Heap { space }, core, hands))
            }
            Err(Host) => Err((mapper, Host)),
        }
    }

    /// The heap's cells.
    pub fn space(&self) -> &Space<N> {
        &self.space
    }

    /// Ends the heap: the last words, which with what the lock's seat and the hands knew meet the rule; the hands' books
    /// in their order; and the mapper. It takes no memory.
    pub fn close<M: Mapper, P: Rules + Drop>(
        self,
        core: Core<N, M, P>,
        hands: Vec<Hand<N>>,
    ) -> (Image, Vec<Book>, M)
        requires all { AreAll N.facts.hands hands.items }
        requires parcels { IsEven hands.items }
        ensures closed { IsClosed N.facts.start result.0.words core.seat hands.items }
        ensures pages { result.0.pages ≡ N.facts.start.pages }
        ensures books { result.1.items ≡ books_of hands.items }
        ensures mapper { result.2 ≡ core.mapper }
        ensures left { IsHandedBack N.facts core.seat (M.span core.mapper) (M.runs core.mapper) (M.refused core.mapper) }
    {
        let (seat, mapper) = core.close();
        let (image, books) = self.space.close(seat, hands);
        (image, books, mapper)
    }
}
