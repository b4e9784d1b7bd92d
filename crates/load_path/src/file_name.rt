ghost use Rattle.std.specs.Prelude.{◌≡◌};
ghost use Rattle.load_path.specs.FileNames.{is_name_byte, are_segments, is_file_name};

use base::limits::MAX_FILE_NAME_BYTES;

fn is_name_byte(byte: u8) -> bool
    ensures { result ≡ is_name_byte byte }
{
    (b' '..=b'~').contains(&byte) && byte != b'/'
}

fn are_segments(bytes: &[u8]) -> bool
    ensures { result ≡ are_segments bytes.now }
{
    // A name is read as if a slash stood before it.
    let mut before = b'/';
    for byte in bytes {
        let byte = *byte;
        let fits = if before == b'/' {
            is_name_byte(byte) && byte != b'.'
        } else {
            is_name_byte(byte) || byte == b'/'
        };
        if !fits {
            return false;
        }
        before = byte;
    }
    before != b'/'
}

/// Whether these bytes are a file name: 1 to 400 bytes, segments joined by `/`, each of one or more bytes
/// from the space to `~` other than `/`, none beginning with `.`.
pub fn is_file_name(bytes: &[u8]) -> bool
    ensures { result ≡ is_file_name bytes.now }
{
    bytes.len() <= MAX_FILE_NAME_BYTES && are_segments(bytes)
}
