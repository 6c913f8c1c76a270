// Bytes of files.
ghost use Rattle.std.specs.Prelude.{◌≡◌, ◌+◌, ◌-◌, ◌≤◌, ℕ, ◌<◌, ◌++◌, length, take, drop, replicate, slice_index};

/// Copies the bytes, and zeros behind them.
fn pad_into(bytes: &[u8], out: &mut [u8])
    requires { length bytes.now ≤ length out.old }
    ensures { out.new ≡ bytes.now ++ replicate (length out.old - length bytes.now) 0 }
{
    let n = bytes.len();
    out[..n].copy_from_slice(bytes);
    out[n..].fill(0);
}

/// Copies the bytes of a file from `from` on, and zeros past its end.
fn copy_from(file: &[u8], from: u64, out: &mut [u8])
    ensures { (k : ℕ) → k < length out.old → slice_index out.new k
        ≡ slice_index file.now (from + k) }
{
    let size = file.len() as u64;
    let begin = from.min(size) as usize;
    let have = (file.len() - begin).min(out.len());
    pad_into(&file[begin..begin + have], out);
}

/// Overwrites the bytes of a file from `from` on.
pub(crate) fn put(file: &mut Vec<u8>, from: usize, bytes: &[u8])
    requires { from + length bytes.now ≤ length file.old.items }
    ensures { file.new.items
        ≡ take from file.old.items ++ bytes.now ++ drop (from + length bytes.now) file.old.items }
{
    let end = from + bytes.len();
    let all = file.as_mut_slice();
    all[from..end].copy_from_slice(bytes);
}

/// Copies `n` bytes of a file from `from` on to the place `done`, and zeros past its end.
pub(crate) fn copy_part(file: &[u8], from: u64, out: &mut [u8], done: usize, n: usize)
    requires { done + n ≤ length out.old }
    ensures before { (k : ℕ) → k < done → slice_index out.new k ≡ slice_index out.old k }
    ensures part { (k : ℕ) → k < n → slice_index out.new (done + k)
        ≡ slice_index file.now (from + k) }
{
    let end = done + n;
    copy_from(file, from, &mut out[done..end]);
}
