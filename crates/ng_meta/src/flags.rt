ghost use Rattle.std.specs.Prelude.{◌≡◌};
ghost use Rattle.ng_meta.specs.Cells.{joined};
ghost use Rattle.ng_meta.specs.Flags.{IsInRange, fields_in, flags_with};

/// What the flags of a meta say of its group. They are 64 bits in two cells.
#[derive(Clone, Copy, Debug, PartialEq, Eq)]
pub struct Fields {
    /// The index of the last slot, below 32.
    pub last: u32,
    /// Whether the group may be freed.
    pub freeable: bool,
    /// The size class, below 64.
    pub class: u32,
    /// The pages of the group's run, below 2^52; 0 for a nested group.
    pub maplen: u64,
}

/// The fields of the two cells of flags, whatever is in these.
pub fn fields_of(low: u32, high: u32) -> Fields
    ensures fields { result ≡ fields_in (joined low high) }
    ensures in_range { IsInRange result }
    ensures inverse { flags_with result ≡ joined low high }
{
    Fields {
        last: low & 31,
        freeable: low >> 5 & 1 == 1,
        class: low >> 6 & 63,
        maplen: u64::from(low >> 12) | u64::from(high) << 20,
    }
}

/// The two cells of flags with these fields, the low one first.
pub fn cells_of(fields: Fields) -> (u32, u32)
    requires { IsInRange fields }
    ensures cells { joined result.0 result.1 ≡ flags_with fields }
    ensures inverse { fields_in (joined result.0 result.1) ≡ fields }
{
    let freeable = u32::from(fields.freeable);
    let maplen = (fields.maplen & 0xf_ffff) as u32;
    let low = fields.last | freeable << 5 | fields.class << 6 | maplen << 12;
    (low, (fields.maplen >> 20) as u32)
}
