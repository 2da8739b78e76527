// A heap with one hand, its core, and slots of it.
ghost use Rattle.std.specs.Prelude.{◌≡◌, ◌≤◌, ◌∷◌, [], IfOk, IfSome, OnSome, length};
ghost use Rattle.ng_group.specs.Hands.{IsApart};
ghost use Rattle.ng_group.specs.Tests.{AreParts};
ghost use Rattle.ng_policy.specs.Ask.{AskInRange, IsCount};
ghost use Rattle.ng_space.specs.Callers.{fresh_callers};
ghost use Rattle.ng_space.specs.Tokens.{HasSlot, Token};

use ng_group::{Core, Tables};
use ng_mapper::FirstFit;
use ng_policy::{Ask, Kept, Rules, Spare, musl_count, musl_keep};
use ng_space::{Blank, Hand, Name, Slot, Space, Start};
use ng_terms::{Host, LARGE};
use std::alloc::Global;

const PAGES: u32 = 4096;

/// The class of all slots, and the bytes that each is asked for.
const CLASS: u32 = 1;

const BYTES: u64 = 20;

/// The memory of a heap with one hand, whose book has room for one entry, and of its core, and a mapper that refuses only
/// where no hole fits.
pub fn parts(alloc: Global) -> Result<(Blank, Tables, FirstFit), Host>
    ensures parts { IfOk result (λ made. AreParts made.0 made.1 made.2) }
    ensures rooms { IfOk result (λ made. made.0.rooms ≡ 1 ∷ []) }
{
    let start = Start {
        pages: u64::from(PAGES),
        lower: 0x1000,
        upper: 0x100_0000,
        secret: 0x0123_4567_89ab_cdef,
        refusals: 0,
        cap: LARGE - 1,
    };
    let blank = Blank::new(alloc, start, &[1])?;
    let tables = Tables::new(alloc, PAGES)?;
    let mapper = FirstFit::new(alloc, PAGES, Vec::new(alloc))?;
    Ok((blank, tables, mapper))
}

/// A core over the heap, and the heap's hands.
pub fn begin<N: Name, P: Rules + Drop>(
    alloc: Global,
    blank: Blank,
    tables: Tables,
    mapper: FirstFit,
    rules: P,
) -> Result<(Space<N>, Core<N, FirstFit, P>, Vec<Hand<N>>), Host>
    requires table { blank.table ≡ N.facts.table }
    requires start { blank.start ≡ N.facts.start }
    requires hands { length blank.rooms ≡ N.facts.hands }
    requires most { N.facts.most ≡ 0 }
    requires parts { AreParts blank tables mapper }
    requires good { P.good rules }
    ensures { IfOk result (λ made. made.2.items ≡ fresh_callers 1 blank.rooms) }
{
    let (space, lock, hands) = Space::<N>::open(alloc, blank)?;
    let core = Core::open(&space, lock, tables, mapper, Kept::new(rules));
    Ok((space, core, hands))
}

/// The choices of musl.
pub fn count(ask: Ask) -> u32
    requires { AskInRange ask }
    ensures { IsCount ask.class result }
{
    musl_count(ask)
}

pub fn keep(spare: Spare) -> bool {
    musl_keep(spare)
}

/// A slot for the hand. `None`: a map call was refused, and the hand has entered it.
pub fn get<N: Name, P: Rules>(
    space: &Space<N>,
    core: &mut Core<N, FirstFit, P>,
    hand: &mut Hand<N>,
) -> Option<Slot<N>>
    requires spare { 1 ≤ hand.old.spare }
    ensures slot { IfSome result (HasSlot hand.new) }
    ensures apart { IfSome result (λ slot. (token : Token) → HasSlot hand.old token → IsApart token slot) }
    ensures others { (token : Token) → HasSlot hand.old token → HasSlot hand.new token }
    ensures spare { OnSome result (hand.new.spare ≡ hand.old.spare) }
{
    match core.alloc_slot(space, hand, CLASS, BYTES) {
        Ok(slot) => Some(slot),
        Err(excuse) => {
            space.enter_no_memory(hand, BYTES, excuse);
            None
        }
    }
}
