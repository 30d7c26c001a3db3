//! Why accounts were not fed together.
use frames::Refusal;
use text_spec::Stop;

/// The call's row; a header's, from 1; or a line's of the text, from 1.
#[derive(Clone, Copy)]
pub(crate) enum Stopped {
    Call(Refusal),
    Header { refusal: Refusal, header: u64 },
    Line(Stop),
}
