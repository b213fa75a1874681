//! Copies bytes, and other items, into the host's memory.

ghost use Rattle.std.specs.Prelude.{◌≡◌};
ghost use Rattle.serf_agent_c.specs.Texts.{copied};

/// Copies items from the front of `from` over the front of `to`, as many as fit.
pub(crate) fn copy_into<T: Copy>(to: &mut [T], from: &[T])
    ensures { to.new ≡ copied from.now to.old }
{
    let count = to.len().min(from.len());
    let (front, _) = to.split_at_mut(count);
    front.copy_from_slice(&from[..count]);
}
