// A buffer that the caller keeps gets a text.
ghost use Rattle.std.specs.Prelude.{◌≡◌, length};
ghost use Rattle.analysis_c.specs.Buffers.{buffer_filled};

/// Copies as much of the text as fits to the front of the buffer, and answers how many bytes the text has.
pub fn fill(buffer: &mut [u8], text: &[u8]) -> usize
    ensures bytes { buffer.new ≡ buffer_filled buffer.old text.now }
    ensures len { result ≡ length text.now }
{
    let count = text.len().min(buffer.len());
    buffer[..count].copy_from_slice(&text[..count]);
    text.len()
}
