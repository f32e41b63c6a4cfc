// A damaged image mended.
ghost use Rattle.std.specs.Prelude.{◌≡◌, length};
ghost use Rattle.mending.specs.Bytes.{mend_written, list_written};
ghost use Rattle.calls.specs.Mend.{mend_given};

// The image, mended, into the buffer's front; node and reason of each changed node, in node order, into the list's. The value is how many were changed.
#[unsafe(no_mangle)]
pub extern "C" fn uq_mend(image: &[u8], buffer: &mut [u8], list: &mut [u8]) -> u64
    ensures answers { result ≡ mend_given image.now (length buffer.old) (length list.old) }
    ensures written { buffer.new ≡ mend_written image.now buffer.old list.old }
    ensures listed { list.new ≡ list_written image.now buffer.old list.old }
{
    library::mend::uq_mend(image, buffer, list)
}
