// An image made another: in the other version, from and to "UQP", or mended.

#![tactic(auto)]

ghost use Rattle.std.specs.Prelude.{◌≡◌, length};
ghost use Rattle.converting.specs.Converted.{widened, narrowed};
ghost use Rattle.mending.specs.Bytes.{mend_written, list_written};
ghost use Rattle.converting.specs.Desks.{imported, exported};
ghost use Rattle.calls.specs.Conversions.{widen_given, narrow_given, import_given, export_given};
ghost use Rattle.calls.specs.Mend.{mend_given};

use calls::packing::{packed_answer, packed_result};

// An image of version 1 as one of version 2, into the buffer's first 14 + 13N bytes.
pub fn widen(image: &[u8], buffer: &mut [u8]) -> u64
    ensures answers { result ≡ widen_given image.now (length buffer.old) }
    ensures bytes { buffer.new ≡ widened image.now buffer.old }
{
    let wide = converting::widen(image, buffer);
    packed_answer(wide)
}

// An image of version 2 as one of version 1, where head and every index fit, into the buffer's first 10 + 9N bytes.
pub fn narrow(image: &[u8], buffer: &mut [u8]) -> u64
    ensures answers { result ≡ narrow_given image.now (length buffer.old) }
    ensures bytes { buffer.new ≡ narrowed image.now buffer.old }
{
    let slim = converting::narrow(image, buffer);
    packed_answer(slim)
}

// An image with one head index per desk as one of version 1, its head the largest, into the buffer's first 10 + 9N bytes.
pub fn import_desks(image: &[u8], buffer: &mut [u8]) -> u64
    ensures answers { result ≡ import_given image.now (length buffer.old) }
    ensures bytes { buffer.new ≡ imported image.now buffer.old }
{
    let one = converting::import_desks(image, buffer);
    packed_answer(one)
}

// An image of version 1 as one for so many desks, its head written for each, into the buffer's first 7 + 4T + 9N bytes.
pub fn export_desks(image: &[u8], threads: u8, buffer: &mut [u8]) -> u64
    ensures answers { result ≡ export_given image.now threads (length buffer.old) }
    ensures bytes { buffer.new ≡ exported image.now threads buffer.old }
{
    let each = converting::export_desks(image, threads, buffer);
    packed_answer(each)
}

// The image, mended, into the buffer's front; node and reason of each changed node, in node order, into the list's. The value is how many were changed.
pub fn mend(image: &[u8], buffer: &mut [u8], list: &mut [u8]) -> u64
    ensures answers { result ≡ mend_given image.now (length buffer.old) (length list.old) }
    ensures written { buffer.new ≡ mend_written image.now buffer.old list.old }
    ensures listed { list.new ≡ list_written image.now buffer.old list.old }
{
    let changed = mending::mend_image(image, buffer, list);
    packed_result(changed.map(|n| n as u64))
}
