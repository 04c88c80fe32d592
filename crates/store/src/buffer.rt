// What a get writes.
ghost use Rattle.std.specs.Prelude.{◌≡◌, ◌<◌, length, IfOk, Some, OnErr};
ghost use Rattle.names.specs.Refusals.{answer};
ghost use Rattle.store.specs.Says.{get_number, get_buffer};

use names::Refusal;

// Copies a record to the buffer's start, and answers its length; refused (43), and nothing written, if the buffer is shorter.
pub fn copy_out(bytes: &[u8], buffer: &mut [u8]) -> Result<usize, Refusal>
    ensures outcome { answer result ≡ get_number (Some bytes.now) (length buffer.old) }
    ensures told { IfOk result (λ n. n ≡ length bytes.now) }
    ensures filled { buffer.new ≡ get_buffer (Some bytes.now) buffer.old }
    ensures short { OnErr result (length buffer.old < length bytes.now) }
{
    let n = bytes.len();
    if buffer.len() < n {
        return Err(Refusal::BufferTooShort);
    }
    buffer[..n].copy_from_slice(bytes);
    Ok(n)
}
