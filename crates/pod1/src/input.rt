//! The program's words, and a text: standard input, or a file that a word names.
ghost use Rattle.std.specs.Prelude.{◌+◌, ◌≤◌, ◌≡◌, length, IfSome};
ghost use Rattle.pod1.specs.Input.{bytes_in};

use std::env::{Env, FillError};
use std::fs::File;
use std::io::Read;
use std::rt::Files;

// More of a text than decides what is said of it: 360,328 bytes decide its ending
// (`ReportPromise.bounded`).
const TEXT_BYTES: usize = 364544;

// As much as any word of a command line: Linux takes none longer.
const WORD_BYTES: usize = 131072;

/// Room for a word, its size named here alone.
pub(crate) fn word_buffer() -> [u8; WORD_BYTES]
    ensures { 131072 ≡ length result }
{
    [0; WORD_BYTES]
}

/// Room for that much of a text, its size named here alone.
pub(crate) fn text_buffer() -> [u8; TEXT_BYTES]
    ensures { 364544 ≡ length result }
{
    [0; TEXT_BYTES]
}

// Whether there is a word at a place, even one that is longer than the buffer.
fn is_word(rt: &impl Env, place: usize) -> bool {
    let mut start = [0; 1];
    !matches!(rt.arg(place, &mut start), Err(FillError::NotPresent))
}

/// How many words the program was started with, its own name among them.
pub(crate) fn word_count(rt: &impl Env) -> usize {
    (0..usize::MAX)
        .take_while(|place| is_word(rt, *place))
        .count()
}

/// The bytes of the program's word at a place, its own name being at place 0, at the buffer's
/// start; none for a word that is missing or longer than the buffer. A missing word is refused as
/// an empty one is, by the same row, so no `Option` tells them apart. It may be no UTF-8, which
/// `std::env::args` does not take.
pub(crate) fn word_at<'a>(rt: &impl Env, place: usize, buf: &'a mut [u8]) -> &'a [u8]
    ensures { length result.now ≤ length buf.old }
{
    match rt.arg(place, buf) {
        Ok(n) => &buf[..n],
        Err(_) => b"",
    }
}

/// Reads until the buffer is full or the input ends: the bytes read, or none where a read fails.
/// An input that ends before the buffer is full is no error here, as it is to `read_exact`.
pub(crate) fn fill<R: Read>(input: &mut R, buf: &mut [u8]) -> Option<usize>
    ensures { bytes_in result ≤ length buf.new }
{
    let mut n = 0;
    while n < buf.len() {
        let more = input.read(&mut buf[n..]).ok()?;
        if more == 0 {
            return Some(n);
        }
        n += more;
    }
    Some(n)
}

/// The bytes of the file that the program's word at a place names, its own name being at place 0,
/// at the buffer's start, as many as it has room for. A name that is missing, too long or not
/// UTF-8 names no file.
pub(crate) fn read_named<'a>(
    rt: &(impl Env + Files),
    place: usize,
    buf: &'a mut [u8],
) -> Option<&'a [u8]>
    ensures { IfSome result (λ text. length text.now ≤ length buf.old) }
{
    let mut name = word_buffer();
    let path = str::from_utf8(word_at(rt, place, &mut name)).ok()?;
    let mut file = File::open(rt, path).ok()?;
    let n = fill(&mut file, buf)?;
    Some(&buf[..n])
}
