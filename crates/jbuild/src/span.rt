//! Where the bytes of a file stand among those of all files.

ghost use Rattle.std.specs.Prelude.{◌≡◌, ◌+◌, ◌≤◌, length};
ghost use Rattle.jbuild.specs.Spans.{bytes_of_span};

/// Where the bytes of a file stand among those of all files: from here on, so many.
#[derive(Clone, Copy)]
pub(crate) struct Span {
    pub(crate) from: usize,
    pub(crate) length: usize,
}

/// The bytes that stand there.
pub(crate) fn bytes_of_span(bytes: &[u8], span: Span) -> &[u8]
    requires { span.from + span.length ≤ length bytes.now }
    ensures { result.now ≡ bytes_of_span bytes.now span }
{
    &bytes[span.from..][..span.length]
}
