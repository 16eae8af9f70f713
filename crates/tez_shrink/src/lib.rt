//! The whole-number formulas of shrinking and slow start. No call takes memory; each is constant.
//!
//! A shuffle vertex with `parts` partitions may run with fewer tasks: each then takes a run of
//! `base` partitions that follow one another, the last one what is left. It starts its tasks slowly,
//! none below a least fraction of finished source tasks and all from a greatest fraction on.
#![tactic(auto)]

ghost use Rattle.std.specs.Prelude.{◌≡◌, ◌*◌, ◌^◌, ◌<◌, ◌≤◌, ◌+◌, ℕ};
ghost use Rattle.tez_shrink.specs.Formulas as formulas;

/// The tasks wanted for the bytes to come in: of `s` source tasks `f` have finished, with `b` bytes
/// between them, and a task is to have about `desired` bytes.
pub fn wanted(s: u64, f: u64, b: u128, desired: u64, min_tasks: u32) -> u128
    requires finished { 1 ≤ f }
    requires some { 1 ≤ desired }
    requires fits { s * b < 2 ^ 128 }
    ensures { result ≡ formulas.wanted s f b desired min_tasks }
{
    let expected = u128::from(s) * b / u128::from(f);
    expected
        .div_ceil(u128::from(desired))
        .max(u128::from(min_tasks))
}

/// How many partitions each task takes, where that many tasks are wanted.
pub fn base_of(parts: u32, wanted: u128) -> u32
    requires parts { 1 ≤ parts }
    requires wanted { 1 ≤ wanted }
    ensures { result ≡ formulas.base_of parts wanted }
{
    (u128::from(parts) / wanted).max(1) as u32
}

/// How many tasks that makes; the last one may take fewer partitions.
pub fn tasks_of(parts: u32, base: u32) -> u32
    requires parts { 1 ≤ parts }
    requires base { 1 ≤ base }
    ensures { result ≡ formulas.tasks_of parts base }
{
    parts.div_ceil(base)
}

/// The partitions of a task, from the first number up to the second.
pub fn ranges(parts: u32, base: u32, task: u32) -> (u32, u32)
    requires base { 1 ≤ base }
    requires task { task < formulas.tasks_of parts base }
    ensures first { result.0 ≡ formulas.first_of base task }
    ensures end { result.1 ≡ formulas.end_of parts base task }
    ensures inside { (result.0 < result.1) × (result.1 ≤ parts) }
{
    let first = u64::from(task) * u64::from(base);
    let end = (first + u64::from(base)).min(u64::from(parts));
    (first as u32, end as u32)
}

/// How many of its `r` tasks a shuffle vertex has to schedule, where `f` of `s` source tasks have
/// finished. `min` and `max` are in thousandths.
pub fn slow_start(f: u64, s: u64, r: u32, min: u16, max: u16) -> u32
    requires some { 1 ≤ s }
    requires finished { f ≤ s }
    requires ordered { min ≤ max }
    requires whole { max ≤ 1000 }
    ensures { result ≡ formulas.slow_start f s r min max }
{
    let done = 1000 * u128::from(f);
    let least = u128::from(min) * u128::from(s);
    let most = u128::from(max) * u128::from(s);
    if done < least {
        0
    } else if most <= done {
        r
    } else {
        (u128::from(r) * (done - least)).div_ceil(most - least) as u32
    }
}

/// Each partition is in the range of exactly one task.
pub fn ranges_cover()
    ensures { (parts base p : ℕ) → 0 < base → p < parts → formulas.IsInOneRange parts base p }
{}
