ghost use Rattle.std.specs.Prelude.{◌≡◌, ◌≤◌, ◌-◌, length, take, [], IfNone, IfSome};
ghost use Rattle.fm_inst.specs.Prefixes.{MovesOn, beyond};

// Goes on past all tuples that begin with the first `depth` numbers of `env`: how many numbers begin those that are left.
pub(crate) fn advance(sizes: &[u64], env: &mut [u64], depth: usize) -> Option<usize>
    requires within { depth ≤ length sizes.now }
    requires room { length env.old ≡ length sizes.now }
    ensures none { IfNone result (beyond sizes.now (take depth env.old) ≡ []) }
    ensures some { IfSome result (λ d. MovesOn sizes.now depth env.old d env.new) }
{
    let mut left = depth;
    while left > 0 {
        let last = sizes[left - 1].saturating_sub(1);
        if env[left - 1] < last {
            env[left - 1] += 1;
            return Some(left);
        }
        left -= 1;
    }
    None
}
