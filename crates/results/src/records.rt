// The fired record: one bit for each rule, rule 1 first, padded to bytes; and the count of its one bits.
ghost use Rattle.std.specs.Prelude.{◌≡◌, cond, false, ◌++◌, ◌≤◌, ◌<◌, length, drop, get_or};
ghost use Rattle.laws.specs.Packed.{byte_count, byte_at, pack};
ghost use Rattle.laws.specs.Limits.{rule_limit};
ghost use Rattle.results.specs.Record.{ones_in};

// Bit i of the record: the flag of rule i + 1, and 0 in the padding.
fn bit_at(fired: &[bool], i: usize) -> u8
    ensures { result ≡ cond (get_or fired.now i false) 1 0 }
{
    fired.get(i).map_or(0, |flag| u8::from(*flag))
}

// Byte k of the record.
fn byte_at(fired: &[bool], k: usize) -> u8
    requires { (length fired.now ≤ rule_limit) × (k < byte_count (length fired.now)) }
    ensures { result ≡ byte_at fired.now k }
{
    let mut x: u8 = 0;
    for j in 0..8 {
        x = x * 2 + bit_at(fired, 8 * k + j);
    }
    x
}

// How many bytes the record has.
pub fn record_size(count: usize) -> usize
    requires { count ≤ rule_limit }
    ensures { result ≡ byte_count count }
{
    count.div_ceil(8)
}

// Writes the record to the front of the output.
pub fn record_of(fired: &[bool], out: &mut [u8])
    requires { (length fired.now ≤ rule_limit) × (byte_count (length fired.now) ≤ length out.old) }
    ensures { out.new ≡ pack fired.now ++ drop (byte_count (length fired.now)) out.old }
{
    for k in 0..record_size(fired.len()) {
        out[k] = byte_at(fired, k);
    }
}

// How many rules fired: the one bits of the record, byte by byte.
pub fn count_fired(bytes: &[u8]) -> usize
    requires { length bytes.now ≤ byte_count rule_limit }
    ensures { result ≡ ones_in bytes.now }
{
    bytes.iter().map(|byte| byte.count_ones() as usize).sum()
}
