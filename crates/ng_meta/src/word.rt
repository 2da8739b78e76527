ghost use Rattle.std.specs.Prelude.{◌+◌, ◌<◌, ◌≡◌, ◌↔◌, IsTrue};
ghost use Rattle.ng_meta.specs.Cells.{high_half, joined, low_half};

/// The avail word of a live group: the tag, which is one more than the class, above the mask.
pub fn avail_word(class: u32, mask: u32) -> u64
    requires { class < 64 }
    ensures value { result ≡ joined mask (class + 1) }
    ensures tag { high_half result ≡ class + 1 }
    ensures mask { low_half result ≡ mask }
{
    u64::from(class + 1) << 32 | u64::from(mask)
}

/// The tag of an avail word, 0 where no group lives.
pub fn tag_of(word: u64) -> u32
    ensures { result ≡ high_half word }
{
    (word >> 32) as u32
}

/// The mask of an avail word.
pub fn mask_of(word: u64) -> u32
    ensures { result ≡ low_half word }
{
    (word & 0xffff_ffff) as u32
}

/// Whether two cells, the low one first, are the secret.
pub fn is_secret(low: u32, high: u32, secret: u64) -> bool
    ensures { IsTrue result ↔ (joined low high ≡ secret) }
{
    u64::from(high) << 32 | u64::from(low) == secret
}
