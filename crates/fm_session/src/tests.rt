use crate::budget::Budget;
use crate::replies::{error_line, reason, success};
use fm_base::{Place, Reason, Refusal};
use fm_cert::Claim;
use std::alloc::Global;
use std::test::Fail;

const BUDGET: Budget = Budget {
    instances: 100_000,
    decisions: 0,
};

fn reason_for(alloc: Global, standing: Option<Claim>) -> Result<Vec<u8>, Fail> {
    Ok(reason(alloc, BUDGET, &standing)?)
}

// Spent and budget are told where `unknown` stands.
#[test]
fn reasons(rt: HostRuntime) -> Result<(), Fail> {
    let unknown = Claim::Unknown {
        instances: 0,
        decisions: 0,
    };
    let line = reason_for(rt.alloc(), Some(unknown))?;
    assert_eq!(rt;
        line.as_slice(),
        b"(:reason-unknown (budget (instances 0 100000) (decisions 0 0)))\n".as_slice()
    );
    let line = reason_for(rt.alloc(), Some(Claim::Unsat))?;
    assert_eq!(rt; line.as_slice(), b"unsupported\n".as_slice());
    Ok(())
}

#[test]
fn lines(rt: HostRuntime) -> Result<(), Fail> {
    let at = Place {
        line: 2,
        column: 13,
    };
    let reason = Reason::NotYet;
    let line = error_line(rt.alloc(), Refusal { reason, at })?;
    assert_eq!(rt;
        line.as_slice(),
        b"(error \"20 at 2:13: not yet\")\n".as_slice()
    );
    let line = success(rt.alloc(), false)?;
    assert_eq!(rt; line.as_slice(), b"".as_slice());
    Ok(())
}
