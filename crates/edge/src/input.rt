// What a reader gives, as bytes in an array, no more of them than are wanted. Nothing is allocated.
ghost use Rattle.std.specs.Prelude.{◌≡◌, ◌<◌, ◌≤◌, length, take, IfOk, IfSome, None};
ghost use Rattle.arrayvec.specs.ArrayVec.{array_vec_len};

use arrayvec::ArrayVec;
use std::io;
use std::io::Read;

/// The first bytes, as many as there is room for.
pub fn up_to<R: Read + Drop, const ROOM: usize>(reader: R) -> io::Result<ArrayVec<u8, ROOM>>
    ensures { IfOk result (λ v. IfSome (R.remaining reader) (λ xs. v.items ≡ take ROOM xs)) }
{
    let mut bytes = ArrayVec::new();
    let mut limited = reader.take(ROOM as u64);
    io::copy(&mut limited, &mut bytes)?;
    Ok(bytes)
}

/// All bytes; none where there are more than the 65,536 that a book may have.
pub fn book<R: Read + Drop>(reader: R) -> io::Result<Option<ArrayVec<u8, 65537>>>
    ensures low { IfOk result (λ input. IfSome input (λ v. array_vec_len v ≤ 65536)) }
    ensures all { IfOk result (λ input. IfSome input (λ v. IfSome (R.remaining reader) (λ xs. v.items ≡ xs))) }
    ensures more { IfOk result (λ input. input ≡ None → IfSome (R.remaining reader) (λ xs. 65536 < length xs)) }
{
    // One byte more than a book may have shows that there are more.
    let bytes = up_to(reader)?;
    let more = 65536 < bytes.len();
    if more {
        return Ok(None);
    }
    Ok(Some(bytes))
}
