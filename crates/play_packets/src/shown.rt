//! Bytes as they are answered.

use play_words::Answers;

/// Answers bytes, or their count where they are more than so many.
pub fn write_bytes(out: &mut Answers, bytes: &[u8], most: usize) {
    if bytes.len() > most {
        out.counted(bytes.len(), " bytes");
    } else {
        out.text("> ");
        out.hex(bytes);
        out.end();
    }
}
