// Runs in order, with a gap between any two.
ghost use Rattle.std.specs.Prelude.{◌≡◌, ◌+◌, ◌*◌, ◌-◌, ◌<◌, ◌≤◌, ◌^◌, ℕ, true, false, length, slice_index_or};
ghost use Rattle.std.specs.Vec.{vec_capacity};
ghost use Rattle.tez_runs.specs.Flags.{covers, AreApart, IsApart, IsAdded, StartsUpTo, StartsAfter, EndsAt, EndsElsewhere, StartsAt, StartsElsewhere, IsSpot};

/// The numbers from `start` to before `end`.
#[derive(Clone, Copy)]
pub struct Run {
    pub start: u32,
    pub end: u32,
}

// How many runs start at the number or before it.
fn place(runs: &[Run], i: u32) -> usize
    requires { IsApart runs.now }
    ensures inside { result ≤ length runs.now }
    ensures before { StartsUpTo runs.now result i }
    ensures after { StartsAfter runs.now result i }
{
    runs.partition_point(|run| run.start <= i)
}

/// Whether the number is in one of the runs. Logarithmic.
pub fn holds(runs: &[Run], i: u32) -> bool
    requires { IsApart runs.now }
    ensures { result ≡ covers runs.now i }
{
    let at = place(runs, i);
    at > 0 && i < runs[at - 1].end
}

/// The least number from `i` on that is in none of the runs. Logarithmic.
pub fn free_from(runs: &[Run], i: u32) -> u32
    requires { IsApart runs.now }
    ensures free { covers runs.now result ≡ false }
    ensures low { i ≤ result }
    ensures least { (j : ℕ) → i ≤ j → j < result → covers runs.now j ≡ true }
{
    let at = place(runs, i);
    if at == 0 {
        return i;
    }
    let end = runs[at - 1].end;
    if end > i { end } else { i }
}

// Whether the run before the place ends at the number.
fn ends_at(runs: &[Run], at: usize, i: u32) -> bool
    requires { at ≤ length runs.now }
    ensures yes { result ≡ true → EndsAt runs.now at i }
    ensures no { result ≡ false → EndsElsewhere runs.now at i }
{
    at > 0 && runs[at - 1].end == i
}

// Whether the run at the place starts at the number.
fn starts_at(runs: &[Run], at: usize, i: u32) -> bool
    ensures yes { result ≡ true → StartsAt runs.now at i }
    ensures no { result ≡ false → StartsElsewhere runs.now at i }
{
    at < runs.len() && runs[at].start == i
}

// Where a number is to be added: behind how many runs, whether the last of these ends there, and
// whether the next one starts right behind.
fn spot(runs: &[Run], i: u32) -> (usize, bool, bool)
    requires apart { IsApart runs.now }
    requires room { i + 1 < 2 ^ 32 }
    ensures { IsSpot runs.now i result.0 result.1 result.2 }
{
    let at = place(runs, i);
    (at, ends_at(runs, at, i), starts_at(runs, at, i + 1))
}

/// Adds a number that is in none of the runs, in the room there is.
pub fn add(runs: &mut Vec<Run>, i: u32)
    requires room { (n : ℕ) × AreApart 0 runs.old.items n × (i < n) × (n ≤ 2 * vec_capacity runs.old) × (n < 2 ^ 32) }
    requires fresh { covers runs.old.items i ≡ false }
    ensures added { IsAdded runs.old.items runs.new.items i }
    ensures capacity { vec_capacity runs.old ≤ vec_capacity runs.new }
{
    let (at, left, right) = spot(runs.as_slice(), i);
    if left && right {
        runs[at - 1].end = runs[at].end;
        runs.remove(at);
        return;
    }
    if left {
        runs[at - 1].end = i + 1;
        return;
    }
    if right {
        runs[at].start = i;
        return;
    }
    // There is room for it, so this takes no memory.
    let alone = Run {
        start: i,
        end: i + 1,
    };
    let _ = runs.insert(at, alone);
}
