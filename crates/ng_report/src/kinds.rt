//! What a reply counts as.
ghost use Rattle.std.specs.Prelude.{◌≡◌};
ghost use Rattle.ng_terms.specs.Reports.{is_call, is_skipped, is_absent};
ghost use Rattle.ng_report.specs.Kinds.{gives, takes, resizes, lacks_memory, is_oversized, has_bad_align};

use ng_terms::{Made, Reply};

/// Whether a heap was called.
pub fn is_call(reply: &Reply) -> bool
    ensures { result ≡ is_call reply.now }
{
    !matches!(reply, Reply::Skipped | Reply::Absent)
}

/// Whether a block was given at an address of its own.
pub fn gives(reply: &Reply) -> bool
    ensures { result ≡ gives reply.now }
{
    match *reply {
        Reply::Given { .. } => true,
        Reply::Moved { old, at } => old != at,
        Reply::Fresh {
            made: Made::Given { .. },
            ..
        } => true,
        _ => false,
    }
}

/// Whether a block was taken back.
pub fn takes(reply: &Reply) -> bool
    ensures { result ≡ takes reply.now }
{
    match *reply {
        Reply::Freed { .. } => true,
        Reply::Moved { old, at } => old != at,
        _ => false,
    }
}

/// Whether a block has another size in its place.
pub fn resizes(reply: &Reply) -> bool
    ensures { result ≡ resizes reply.now }
{
    match *reply {
        Reply::Moved { old, at } => old == at,
        _ => false,
    }
}

/// Whether the mapper refused.
pub fn lacks_memory(reply: &Reply) -> bool
    ensures { result ≡ lacks_memory reply.now }
{
    match *reply {
        Reply::NoMemory { .. } => true,
        Reply::Fresh {
            made: Made::NoMemory { .. },
            ..
        } => true,
        _ => false,
    }
}

/// Whether the size was beyond every heap.
pub fn is_oversized(reply: &Reply) -> bool
    ensures { result ≡ is_oversized reply.now }
{
    match *reply {
        Reply::TooLarge { .. } => true,
        Reply::Fresh {
            made: Made::TooLarge,
            ..
        } => true,
        _ => false,
    }
}

/// Whether the alignment was refused.
pub fn has_bad_align(reply: &Reply) -> bool
    ensures { result ≡ has_bad_align reply.now }
{
    match *reply {
        Reply::BadAlign => true,
        Reply::Fresh {
            made: Made::BadAlign,
            ..
        } => true,
        _ => false,
    }
}

/// Whether no block of the name could come.
pub fn is_skipped(reply: &Reply) -> bool
    ensures { result ≡ is_skipped reply.now }
{
    match *reply {
        Reply::Skipped => true,
        Reply::Fresh { skipped, .. } => skipped,
        _ => false,
    }
}

/// Whether the source had no block.
pub fn is_absent(reply: &Reply) -> bool
    ensures { result ≡ is_absent reply.now }
{
    match *reply {
        Reply::Absent => true,
        Reply::Fresh { skipped, .. } => !skipped,
        _ => false,
    }
}
