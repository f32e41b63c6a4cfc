// An image in the other version, and from and to "UQP".
ghost use Rattle.std.specs.Prelude.{◌≡◌, length};
ghost use Rattle.converting.specs.Converted.{widened, narrowed};
ghost use Rattle.converting.specs.Desks.{imported, exported};
ghost use Rattle.calls.specs.Conversions.{widen_given, narrow_given, import_given, export_given};

// An image of version 1 as one of version 2, into the buffer's first 14 + 13N bytes.
pub fn uq_widen(image: &[u8], buffer: &mut [u8]) -> u64
    ensures answers { result ≡ widen_given image.now (length buffer.old) }
    ensures bytes { buffer.new ≡ widened image.now buffer.old }
{
    imagecalls::widen(image, buffer)
}

// An image of version 2 as one of version 1, where head and every index fit, into the buffer's first 10 + 9N bytes.
pub fn uq_narrow(image: &[u8], buffer: &mut [u8]) -> u64
    ensures answers { result ≡ narrow_given image.now (length buffer.old) }
    ensures bytes { buffer.new ≡ narrowed image.now buffer.old }
{
    imagecalls::narrow(image, buffer)
}

// An image with one head index per desk as one of version 1, its head the largest, into the buffer's first 10 + 9N bytes.
pub fn uq_import(image: &[u8], buffer: &mut [u8]) -> u64
    ensures answers { result ≡ import_given image.now (length buffer.old) }
    ensures bytes { buffer.new ≡ imported image.now buffer.old }
{
    imagecalls::import_desks(image, buffer)
}

// An image of version 1 as one for so many desks, its head written for each, into the buffer's first 7 + 4T + 9N bytes.
pub fn uq_export(image: &[u8], threads: u8, buffer: &mut [u8]) -> u64
    ensures answers { result ≡ export_given image.now threads (length buffer.old) }
    ensures bytes { buffer.new ≡ exported image.now threads buffer.old }
{
    imagecalls::export_desks(image, threads, buffer)
}
