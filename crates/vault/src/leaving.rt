// The members of a group, taken out of their queue.

ghost use Rattle.std.specs.Prelude.{◌≡◌, ◌≤◌, drop, length};

use group_plan::Queue;

/// Takes so many requests out of the front of a queue.
pub(crate) fn leave(queue: &mut Queue, count: usize)
    requires { count ≤ length queue.old }
    ensures { queue.new ≡ drop count queue.old }
{
    let mut left = count;
    'left: while left > 0 {
        let _ = queue.remove_first();
        left -= 1;
    }
}
