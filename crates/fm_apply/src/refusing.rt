ghost use Rattle.std.specs.Prelude.{◌≡◌};
ghost use Rattle.fm_base.specs.declared.refusal.Fail.TheVariants as fail;
ghost use Rattle.fm_apply.specs.Applied.{refused};

use fm_base::{Fail, Place, Reason, Refusal};

/// A refusal for a reason, at a place.
pub fn refuse(reason: Reason, at: Place) -> Fail
    ensures { result ≡ fail.Refused (refused reason at) }
{
    Fail::Refused(Refusal { reason, at })
}
