//! The front of a buffer, and standard output. No contract can say which bytes are written.
ghost use Rattle.std.specs.Prelude.{◌≡◌, take};

use frames::Refusal;

/// The first n bytes of a buffer: all of them where there are no more.
pub(crate) fn front(buf: &[u8], n: usize) -> &[u8]
    ensures { result.now ≡ take n buf.now }
{
    buf.get(..n).unwrap_or(buf)
}

/// What was written into a buffer; nothing where it was too short. A write that fails ends what is
/// printed of it, and nothing else.
pub(crate) fn print_written(rt: &impl Print, buf: &[u8], written: Result<usize, Refusal>) {
    if let Ok(n) = written {
        let _ = rt.write_all(front(buf, n));
    }
}

/// A line of up to 160 bytes, as the closure writes it; nothing where the buffer is too short for
/// it.
pub(crate) fn print_line<F: FnOnce(&mut [u8]) -> Result<usize, Refusal>>(rt: &impl Print, write: F)
    requires { F.IsAlwaysCallable write }
{
    let mut line = [0; 160];
    let written = write(&mut line);
    print_written(rt, &line, written);
}
