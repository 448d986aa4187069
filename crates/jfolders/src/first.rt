//! The first bytes of a source.

ghost use Rattle.std.specs.Prelude.{◌≡◌, option_map, take};

use flashbase::{DeviceFault, Source};

/// A source that ends after so many bytes of another one, or where that does.
#[derive(Drop)]
pub struct FirstBytes<S: Source> {
    source: S,
    left: u64,
}

impl<S: Source> FirstBytes<S> {
    pub fn new(source: S, left: u64) -> Self
        ensures rest { ⟦<FirstBytes<S> as Source>⟧.rest result
            ≡ option_map (take left) (S.rest source) }
        ensures failures { ⟦<FirstBytes<S> as Source>⟧.failures result ≡ S.failures source }
    {
        FirstBytes { source, left }
    }

    /// The other one, after what was read.
    pub fn into_source(self) -> S
        ensures { S.failures result ≡ ⟦<FirstBytes<S> as Source>⟧.failures self }
    {
        self.source
    }
}

impl<S: Source> Source for FirstBytes<S> {
    ghost rest = { λ s. option_map (take s.left) (S.rest s.source) };

    ghost failures = { λ s. S.failures s.source };

    fn fill(&mut self, buf: &mut [u8]) -> Result<usize, DeviceFault> {
        if self.left == 0 {
            return Ok(0);
        }
        let most = self.left.min(buf.len() as u64) as usize;
        let n = self.source.fill(&mut buf[..most])?;
        self.left -= n as u64;
        Ok(n)
    }
}
