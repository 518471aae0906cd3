// Fields of bits in bytes, most significant bit first, for every packed form.
ghost use Rattle.std.specs.Prelude.{◌≡◌, ◌+◌, ◌*◌, ◌^◌, ◌≤◌, ◌<◌, length, get_or};
ghost use Rattle.laws.specs.Packed.{byte_count, field_at};
ghost use Rattle.laws.specs.inner.Put.{put_at};

// How many bytes hold so many bits.
pub fn bytes_for(bits: usize) -> usize
    requires { bits ≤ 1000 }
    ensures { result ≡ byte_count bits }
{
    bits.div_ceil(8)
}

// A byte as a number, with the range that the arithmetic below needs.
fn number(x: u8) -> usize
    ensures { (result ≡ x) × (result < 256) }
{
    usize::from(x)
}

// A number with k zero bits after it.
fn shifted(x: usize, k: usize) -> usize
    requires { (x < 65536) × (k ≤ 16) }
    ensures { result ≡ x * 2 ^ k }
{
    x << k
}

// Byte k of some bytes, 0 after their end.
fn byte(bytes: &[u8], k: usize) -> usize
    ensures { (result ≡ get_or bytes.now k 0) × (result < 256) }
{
    bytes.get(k).map_or(0, |x| usize::from(*x))
}

// The number in the field of `width` bits, at most 8, from place `at` on.
pub fn read_field(bytes: &[u8], at: usize, width: usize) -> usize
    requires { (width ≤ 8) × (at ≤ 1000) × (at + width ≤ 8 * length bytes.now) }
    ensures { (result ≡ field_at bytes.now at width) × (result < 2 ^ width) }
{
    let k = at / 8;
    let word = byte(bytes, k) * 256 + byte(bytes, k + 1);
    let below = 16 - at % 8 - width;
    (word >> below) % shifted(1, width)
}

// A field of `width` bits, 1 to 8, put at place `at`; the bits before it stay, zero bits fill its last byte.
pub fn put_field(out: &mut [u8], at: usize, width: usize, x: usize)
    requires { (1 ≤ width) × (width ≤ 8) × (x < 2 ^ width) × (at ≤ 1000) × (at + width ≤ 8 * length out.old) }
    ensures { out.new ≡ put_at out.old at width x }
{
    let k = at / 8;
    let before = at % 8;
    let kept = number(out[k]) >> (8 - before);
    let used = before + width;
    let joined = shifted(kept, width) + x;
    let word = shifted(joined, 16 - used);
    out[k] = (word / 256) as u8;
    if 8 < used {
        out[k + 1] = (word % 256) as u8;
    }
}
