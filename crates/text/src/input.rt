ghost use Rattle.std.specs.Prelude.{◌≡◌, IfOk, IfSome, take};

use super::reader::calls::MOST_BYTES;
use std::alloc::Global;
use std::io;
use std::io::Read;

// All that a reader gives, or of more the first 60,001 bytes, which are too many for a trace. What stands on the heap is
// the caller's: nothing else of this crate allocates.
pub fn read_text<R: Read + Drop>(heap: Global, from: R) -> io::Result<Vec<u8>>
    ensures { IfOk result (λ v. IfSome (R.remaining from) (λ bytes. v.items ≡ take 60001 bytes)) }
{
    let mut text = Vec::new(heap);
    let mut limited = from.take(MOST_BYTES as u64 + 1);
    let _ = limited.read_to_end(&mut text)?;
    Ok(text)
}
