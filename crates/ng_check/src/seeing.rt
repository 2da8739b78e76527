// What was read for a check, for its refusal. Each value is None where a cell that it needs wasn't
// read.
ghost use Rattle.std.specs.Prelude.{◌≡◌, ◌+◌, ◌*◌, ◌<◌, ◌^◌, IfSome};
ghost use Rattle.ng_meta.specs.Flags.{IsInRange};
ghost use Rattle.ng_check.specs.Answers.{seen_of};
ghost use Rattle.ng_check.specs.Queries as query;

use crate::ending::bounds_of;
use crate::fault::Seen;
use crate::reader::Reader;
use ng_header::{NominalFault, reserved_of};
use ng_meta::{AVAIL, FLAGS, FREED, Fields, GROUP_HEAD, MEM, PAGE_BYTES, area_of, fields_of};
use ng_space::Name;

pub(crate) fn see<N: Name>(reader: &Reader<N>) -> Seen
    ensures { result ≡ seen_of reader.now }
{
    Seen {
        header: header(reader).unwrap_or(0),
        wide: wide(reader).unwrap_or(0),
        meta: named(reader).unwrap_or(0),
        mem: mem(reader).unwrap_or(0),
        flags: flags(reader).unwrap_or(0),
        avail: avail(reader).unwrap_or(0),
        freed: freed(reader).unwrap_or(0),
        check: check_word(reader).unwrap_or(0),
        word: word(reader).unwrap_or(0),
        fifth: fifth(reader).unwrap_or(0),
        mark: mark(reader).unwrap_or(0),
        last: last(reader).unwrap_or(0),
    }
}

#[tactic(auto, unfolding(crate::specs::Queries::header))]
fn header<N: Name>(reader: &Reader<N>) -> Option<u32>
    ensures { result ≡ query.header reader.now }
{
    reader.cell(reader.addr().saturating_sub(4))
}

#[tactic(auto, unfolding(crate::specs::Queries::wide))]
fn wide<N: Name>(reader: &Reader<N>) -> Option<u32>
    ensures { result ≡ query.wide reader.now }
{
    reader.cell(reader.addr().saturating_sub(8))
}

#[tactic(auto, unfolding(crate::specs::Queries::index))]
fn index<N: Name>(reader: &Reader<N>) -> Option<u32>
    ensures value { result ≡ query.index reader.now }
    ensures few { IfSome result (λ i. i < 32) }
{
    let cell = header(reader)?;
    Some(cell / 256 % 32)
}

#[tactic(auto, unfolding(crate::specs::Queries::field))]
fn field<N: Name>(reader: &Reader<N>) -> Option<u32>
    ensures value { result ≡ query.field reader.now }
    ensures few { IfSome result (λ f. f < 8) }
{
    let cell = header(reader)?;
    Some(cell / 8192 % 8)
}

#[tactic(auto, unfolding(crate::specs::Queries::offset))]
fn offset<N: Name>(reader: &Reader<N>) -> Option<u64>
    ensures value { result ≡ query.offset reader.now }
    ensures small { IfSome result (λ o. o < 2 ^ 32) }
{
    let cell = header(reader)?;
    if cell % 256 == 0 {
        return Some(u64::from(cell / 65536));
    }
    let wide = wide(reader)?;
    Some(u64::from(wide))
}

#[tactic(auto, unfolding(crate::specs::Queries::base))]
fn base<N: Name>(reader: &Reader<N>) -> Option<u64>
    ensures value { result ≡ query.base reader.now }
    ensures low { IfSome result (λ b. b + 16 < 2 ^ 64) }
{
    let offset = offset(reader)?;
    let first = reader.addr().saturating_sub(16 * offset);
    Some(first.saturating_sub(GROUP_HEAD))
}

#[tactic(auto, unfolding(crate::specs::Queries::named))]
fn named<N: Name>(reader: &Reader<N>) -> Option<u64>
    ensures { result ≡ query.named reader.now }
{
    let base = base(reader)?;
    reader.number(base)
}

#[tactic(auto, unfolding(crate::specs::Queries::meta))]
fn meta<N: Name>(reader: &Reader<N>) -> Option<u64>
    ensures value { result ≡ query.meta reader.now }
    ensures low { IfSome result (λ m. m < 4096 * 16384) }
{
    let named = named(reader)?;
    if named < PAGE_BYTES * u64::from(reader.pages()) {
        Some(named)
    } else {
        None
    }
}

#[tactic(auto, unfolding(crate::specs::Queries::mem))]
fn mem<N: Name>(reader: &Reader<N>) -> Option<u64>
    ensures { result ≡ query.mem reader.now }
{
    let meta = meta(reader)?;
    reader.number(meta + MEM)
}

#[tactic(auto, unfolding(crate::specs::Queries::avail))]
fn avail<N: Name>(reader: &Reader<N>) -> Option<u32>
    ensures { result ≡ query.avail reader.now }
{
    let meta = meta(reader)?;
    reader.cell(meta + AVAIL)
}

#[tactic(auto, unfolding(crate::specs::Queries::freed))]
fn freed<N: Name>(reader: &Reader<N>) -> Option<u32>
    ensures { result ≡ query.freed reader.now }
{
    let meta = meta(reader)?;
    reader.cell(meta + FREED)
}

#[tactic(auto, unfolding(crate::specs::Queries::flags))]
fn flags<N: Name>(reader: &Reader<N>) -> Option<u64>
    ensures { result ≡ query.flags reader.now }
{
    let meta = meta(reader)?;
    reader.number(meta + FLAGS)
}

#[tactic(auto, unfolding(crate::specs::Queries::fields))]
fn fields<N: Name>(reader: &Reader<N>) -> Option<Fields>
    ensures value { result ≡ query.fields reader.now }
    ensures range { IfSome result IsInRange }
{
    let flags = flags(reader)?;
    Some(fields_of((flags % (1 << 32)) as u32, (flags >> 32) as u32))
}

#[tactic(auto, unfolding(crate::specs::Queries::check_word))]
fn check_word<N: Name>(reader: &Reader<N>) -> Option<u64>
    ensures { result ≡ query.check_word reader.now }
{
    let meta = meta(reader)?;
    reader.number(area_of(meta))
}

fn end<N: Name>(reader: &Reader<N>) -> Option<u64>
    ensures value { result ≡ query.end reader.now }
    ensures low { IfSome result (λ e. e < 4096 * 16384) }
{
    let base = base(reader)?;
    let fields = fields(reader)?;
    let index = index(reader)?;
    let bounds = bounds_of(base, index, fields, reader.pages())?;
    Some(bounds.end)
}

#[tactic(auto, unfolding(crate::specs::Queries::word))]
fn word<N: Name>(reader: &Reader<N>) -> Option<u32>
    ensures { result ≡ query.word reader.now }
{
    let end = end(reader)?;
    reader.cell(end.saturating_sub(4))
}

#[tactic(auto, unfolding(crate::specs::Queries::fifth))]
fn fifth<N: Name>(reader: &Reader<N>) -> Option<u8>
    ensures { result ≡ query.fifth reader.now }
{
    let end = end(reader)?;
    reader.byte(end.saturating_sub(5))
}

#[tactic(auto, unfolding(crate::specs::Queries::last))]
fn last<N: Name>(reader: &Reader<N>) -> Option<u8>
    ensures { result ≡ query.last reader.now }
{
    let end = end(reader)?;
    reader.byte(end)
}

#[tactic(auto, unfolding(crate::specs::Queries::reserved, crate::specs::Queries::reserved_with))]
fn reserved<N: Name>(reader: &Reader<N>) -> Option<Result<u64, NominalFault>>
    ensures { result ≡ query.reserved reader.now }
{
    let field = field(reader)?;
    let end = end(reader)?;
    let gap = end.saturating_sub(reader.addr());
    if field != 5 {
        return Some(reserved_of(field, 0, 0, gap));
    }
    let word = word(reader)?;
    let fifth = fifth(reader)?;
    Some(reserved_of(field, word, fifth, gap))
}

#[tactic(auto, unfolding(crate::specs::Queries::mark))]
fn mark<N: Name>(reader: &Reader<N>) -> Option<u8>
    ensures { result ≡ query.mark reader.now }
{
    let end = end(reader)?;
    match reserved(reader)? {
        Ok(0) => None,
        Ok(reserved) => reader.byte(end.saturating_sub(reserved)),
        Err(_) => None,
    }
}
