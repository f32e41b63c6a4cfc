// The machine as a record's bytes: its start, one event, its persisted image, and where its nodes are.
ghost use Rattle.std.specs.Prelude.{◌≡◌, length};
ghost use Rattle.calls.specs.Calls.{started, start_written, happened, event_written, saved_bytes, save_written, places_counted, places_written, event_given};

// `bytes` are a record's. Here the start of an image with T threads is written into them.
#[unsafe(no_mangle)]
pub extern "C" fn uq_start(image: &[u8], threads: u8, bytes: &mut [u8]) -> u64
    ensures answers { result ≡ started image.now threads (length bytes.old) }
    ensures written { bytes.new ≡ start_written image.now threads bytes.old }
{
    library::records::uq_start(image, threads, bytes)
}

// One event on a record's bytes, in place. The value is what an operation answered with it.
#[unsafe(no_mangle)]
pub extern "C" fn uq_event(bytes: &mut [u8], kind: u8, number: u8, item: u32) -> u64
    ensures answers { result ≡ happened bytes.old (event_given kind number item) }
    ensures written { bytes.new ≡ event_written bytes.old (event_given kind number item) }
{
    library::records::uq_event(bytes, kind, number, item)
}

// The persisted image of a record, in its form, into the front of the buffer.
#[unsafe(no_mangle)]
pub extern "C" fn uq_save(bytes: &[u8], buffer: &mut [u8]) -> u64
    ensures answers { result ≡ saved_bytes bytes.now (length buffer.old) }
    ensures written { buffer.new ≡ save_written bytes.now buffer.old }
{
    library::records::uq_save(bytes, buffer)
}

// How many nodes of a record are in each of the six places, into the buffer's first six bytes.
#[unsafe(no_mangle)]
pub extern "C" fn uq_places(bytes: &[u8], buffer: &mut [u8]) -> u64
    ensures answers { result ≡ places_counted bytes.now (length buffer.old) }
    ensures written { buffer.new ≡ places_written bytes.now buffer.old }
{
    library::records::uq_places(bytes, buffer)
}
