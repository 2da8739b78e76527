// A heap with one hand and its core, over musl's rules, as each test begins with.
ghost use Rattle.std.specs.Prelude.{◌≡◌, ◌∷◌, [], IfOk, length};
ghost use Rattle.ng_group.specs.Tests.{AreParts};
ghost use Rattle.ng_policy.specs.Ask.{AskInRange, IsCount};
ghost use Rattle.ng_space.specs.Callers.{fresh_callers};

use ng_group::{Core, Tables};
use ng_mapper::FirstFit;
use ng_policy::{Ask, Kept, Rules, Spare, musl_count, musl_keep};
use ng_space::{Blank, Hand, Host, Name, Space, Start};
use ng_terms::LARGE;
use std::alloc::Global;

const PAGES: u32 = 4096;

// The memory of a heap with one hand, which has room for so many entries, and of its core, and a mapper that refuses
// these calls.
pub(crate) fn parts(
    alloc: Global,
    room: u64,
    refuse: Vec<u64>,
) -> Result<(Blank, Tables, FirstFit), Host>
    ensures parts { IfOk result (λ made. AreParts made.0 made.1 made.2) }
    ensures rooms { IfOk result (λ made. made.0.rooms ≡ room ∷ []) }
{
    let start = Start {
        pages: u64::from(PAGES),
        lower: 0x1000,
        upper: 0x100_0000,
        secret: 0x0123_4567_89ab_cdef,
        refusals: 0,
        cap: LARGE - 1,
    };
    let blank = Blank::new(alloc, start, &[room])?;
    let tables = Tables::new(alloc, PAGES)?;
    let mapper = FirstFit::new(alloc, PAGES, refuse)?;
    Ok((blank, tables, mapper))
}

// A core over the heap, and the heap's hands.
pub(crate) fn begin<N: Name, P: Rules + Drop>(
    alloc: Global,
    blank: Blank,
    tables: Tables,
    mapper: FirstFit,
    rules: P,
) -> Result<(Space<N>, Core<N, FirstFit, P>, Vec<Hand<N>>), Host>
    requires table { blank.table ≡ N.facts.table }
    requires start { blank.start ≡ N.facts.start }
    requires hands { length blank.rooms ≡ N.facts.hands }
    requires most { N.facts.most ≡ 0 }
    requires parts { AreParts blank tables mapper }
    requires good { P.good rules }
    ensures { IfOk result (λ made. made.2.items ≡ fresh_callers 1 blank.rooms) }
{
    let (space, lock, hands) = Space::<N>::open(alloc, blank)?;
    let core = Core::open(&space, lock, tables, mapper, Kept::new(rules));
    Ok((space, core, hands))
}

// The choices of musl.
pub(crate) fn count(ask: Ask) -> u32
    requires { AskInRange ask }
    ensures { IsCount ask.class result }
{
    musl_count(ask)
}

pub(crate) fn keep(spare: Spare) -> bool {
    musl_keep(spare)
}
