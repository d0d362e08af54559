//! Bytes that are copied into a caller's buffer.
ghost use Rattle.std.specs.Prelude.{◌≡◌, ◌++◌, ◌+◌, ◌≤◌, drop, length, take};
ghost use Rattle.flurry_c_base.specs.Buffers.{with_bytes};

/// Copies `bytes` to the beginning of `buffer`, as many as there is room for.
pub fn copy_out(bytes: &[u8], buffer: &mut [u8])
    ensures { buffer.new ≡ with_bytes buffer.old bytes.now }
{
    let count = bytes.len().min(buffer.len());
    buffer[..count].copy_from_slice(&bytes[..count]);
}

/// Copies `bytes` into `buffer`, which has room for them from the index `at` on. Returns the index behind them.
pub fn copy_at(bytes: &[u8], buffer: &mut [u8], at: usize) -> usize
    requires { at + length bytes.now ≤ length buffer.old }
    ensures end { result ≡ at + length bytes.now }
    ensures front { take result buffer.new ≡ take at buffer.old ++ bytes.now }
    ensures behind { drop result buffer.new ≡ drop result buffer.old }
    ensures len { length buffer.new ≡ length buffer.old }
{
    let end = at + bytes.len();
    buffer[at..end].copy_from_slice(bytes);
    end
}

/// Copies `key` and then `value` into `buffer`, which has room for them from the index `at` on. Returns the index behind them.
pub fn copy_pair(key: &[u8], value: &[u8], buffer: &mut [u8], at: usize) -> usize
    requires { at + (length key.now + length value.now) ≤ length buffer.old }
    ensures end { result ≡ at + (length key.now + length value.now) }
    ensures front { take result buffer.new ≡ take at buffer.old ++ (key.now ++ value.now) }
    ensures behind { drop result buffer.new ≡ drop result buffer.old }
    ensures len { length buffer.new ≡ length buffer.old }
{
    let end = copy_at(key, buffer, at);
    copy_at(value, buffer, end)
}
