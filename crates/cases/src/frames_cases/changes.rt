//! Every change of one character of a line.
use super::records::mark;
use frames::widths::LONGEST;
use std::io;

// The mark of the line with the byte b at a place; `?` past the line's end, and for a line longer
// than any frame's.
fn changed_mark(tree: u8, line: &[u8], place: usize, b: u8) -> u8 {
    let mut buf = [0; LONGEST];
    let Some(changed) = buf.get_mut(..line.len()) else {
        return b'?';
    };
    changed.copy_from_slice(line);
    let Some(byte) = changed.get_mut(place) else {
        return b'?';
    };
    *byte = b;
    mark(frames::read_frame(tree, changed))
}

/// A mark for each byte from 0 to 255 at the place.
pub(crate) fn print_marks(rt: &impl Print, tree: u8, line: &[u8], place: usize) -> io::Result<()> {
    rt.write_all(b" ")?;
    for b in 0..=u8::MAX {
        rt.write_all(&[changed_mark(tree, line, place, b)])?;
    }
    Ok(())
}
