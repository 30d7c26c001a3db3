//! Standard input, and the parts of a text. No contract can say which bytes are read.
ghost use Rattle.std.specs.Prelude.{◌<◌, length, IfSome};

use std::io;
use std::io::Read;

/// All of standard input.
pub(crate) fn read_all(rt: &(impl Input + AllocGlobal)) -> io::Result<Vec<u8>> {
    let mut text = Vec::new(rt.alloc());
    rt.reader().read_to_end(&mut text)?;
    Ok(text)
}

/// Calls a function with each line, without its line feed; a last line may lack it. The first error
/// ends that.
pub(crate) fn for_each_line<F: FnMut(&[u8]) -> io::Result<()>>(
    text: &[u8],
    mut obey: F,
) -> io::Result<()>
    requires { F.IsAlwaysCallable obey }
{
    for line in text.split_inclusive(|b| *b == b'\n') {
        obey(line.strip_suffix(b"\n").unwrap_or(line))?;
    }
    Ok(())
}

// The first line without its line feed, and what is behind that; none where there is no line feed.
fn split_line(text: &[u8]) -> Option<(&[u8], &[u8])>
    ensures { IfSome result (λ parts. length parts.1.now < length text.now) }
{
    let end = text.iter().position(|b| *b == b'\n')?;
    Some((&text[..end], &text[end + 1..]))
}

/// Calls a function with each case: its head, which is a line, and the bytes after that, as many as
/// the head asks for. The first error ends that, as does a case that is cut short.
pub(crate) fn for_each_case<
    'a,
    L: Fn(&[u8]) -> usize,
    F: FnMut(&'a [u8], &'a [u8]) -> io::Result<()>,
>(text: &'a [u8], length_of: L, mut print: F) -> io::Result<()>
    requires { (L.IsAlwaysCallable length_of) × (F.IsAlwaysCallable print) }
{
    let mut rest = text;
    while let Some((head, after)) = split_line(rest) {
        let Some((lent, others)) = after.split_at_checked(length_of(head)) else {
            return Ok(());
        };
        print(head, lent)?;
        rest = others;
    }
    Ok(())
}
