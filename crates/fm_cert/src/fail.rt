ghost use Rattle.std.specs.Prelude.{◌≡◌};
ghost use Rattle.fm_cert.specs.declared.fail.CertFail.TheVariants as fail;

use std::alloc::AllocError;

/// The number of the first line of a text that is outside the grammar, from 1. A text that ends too early is outside at
/// the line after its last line feed.
#[derive(Clone, Copy, Debug, PartialEq, Eq)]
pub struct CertText {
    pub line: u64,
}

/// Why a text isn't read: its first line outside the grammar, or want of memory.
#[derive(Clone, Copy, Debug, PartialEq, Eq)]
pub enum CertFail {
    Text(CertText),
    Memory,
}

impl From<AllocError> for CertFail {
    ghost use Rattle.std.specs.Prelude.{◌≡◌};
    ghost use Rattle.fm_cert.specs.declared.fail.CertFail.TheVariants as fail;

    ghost from_gives = { λ _ e. e ≡ fail.Memory };

    fn from(_error: AllocError) -> CertFail {
        CertFail::Memory
    }
}

// This line is outside.
pub(crate) fn outside(line: u64) -> CertFail
    ensures { result ≡ fail.Text (record { line = line }) }
{
    CertFail::Text(CertText { line })
}
