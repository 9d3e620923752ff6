//! The calls that fail, each by how many calls from now it is, from 1. Those that are past are 0.

ghost use Rattle.std.specs.Prelude.{◌≡◌, ℕ, ◌+◌, ◌-◌, ◌≤◌, map};
ghost use Rattle.rm_memory.specs.Calls.{lists};

// One call more: each number falls by one, and stays at 0.
fn count_down(calls: &mut [u64])
    ensures { calls.new ≡ map (λ n. n - 1) calls.old }
{
    for call in calls.iter_mut() {
        *call = call.saturating_sub(1);
    }
}

/// Counts a call, and returns whether it is listed.
pub fn count_call(calls: &mut Vec<u64>) -> bool
    ensures due { result ≡ lists calls.old.items 1 }
    ensures nears { (n : ℕ) → 1 ≤ n → lists calls.new.items n ≡ lists calls.old.items (n + 1) }
{
    let due = calls.contains(&1);
    count_down(calls);
    due
}
