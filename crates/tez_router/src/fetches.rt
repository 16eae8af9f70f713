// The first fetch that can be made.
ghost use Rattle.std.specs.Prelude.{◌≡◌, slice_get, Some};
ghost use Rattle.std.specs.List.{flat_map};
ghost use Rattle.tez_router.specs.Table.{can_fetch, fetches_over, edge_fetches, attempt_fetches, first_complete};

use crate::admitted::{Admitted, Inputs};
use crate::link::Link;
use crate::winners::{WinnerRow, winner_at};
use tez_ids::{AttemptId, EdgeId};
use tez_runs::Runs;

/// An input that an attempt can fetch.
#[derive(Clone, Copy, Debug, PartialEq, Eq)]
pub struct Fetch {
    pub attempt: AttemptId,
    pub edge: EdgeId,
    pub input: u32,
}

fn can_fetch(rows: &[WinnerRow], link: &Link, consumer: u32, fetched: &Runs, input: u32) -> bool
    ensures { result ≡ can_fetch rows.now link.now consumer fetched.now input }
{
    if fetched.is_set(input) {
        return false;
    }
    match link.source_task(consumer, input) {
        Some(task) => winner_at(rows, task).is_some(),
        None => false,
    }
}

fn first_over(rows: &[WinnerRow], link: &Link, attempt: AttemptId, inputs: &Inputs) -> Option<Fetch>
    ensures { result ≡ slice_get (fetches_over rows.now (Some link.now) attempt inputs.now) 0 }
{
    let fetched = inputs.fetched();
    let end = fetched.len();
    let mut from = 0;
    while from < end {
        let input = match fetched.missing_from(from) {
            Some(input) => input,
            None => return None,
        };
        if can_fetch(rows, link, attempt.task.index, fetched, input) {
            return Some(Fetch {
                attempt,
                edge: inputs.edge(),
                input,
            });
        }
        from = input + 1;
    }
    None
}

fn first_by_edge(
    links: &[Link],
    rows: &[WinnerRow],
    attempt: AttemptId,
    inputs: &Inputs,
) -> Option<Fetch>
    ensures { result ≡ slice_get (edge_fetches links.now rows.now attempt inputs.now) 0 }
{
    match links.get(inputs.edge().0 as usize) {
        Some(link) => first_over(rows, link, attempt, inputs),
        None => None,
    }
}

fn first_of_edges(
    links: &[Link],
    rows: &[WinnerRow],
    attempt: AttemptId,
    edges: &[Inputs],
) -> Option<Fetch>
    ensures { result ≡ slice_get (flat_map (edge_fetches links.now rows.now attempt) edges.now) 0 }
{
    for inputs in edges {
        if let Some(fetch) = first_by_edge(links, rows, attempt, inputs) {
            return Some(fetch);
        }
    }
    None
}

/// The first by attempt, edge and input.
pub fn first_fetch(links: &[Link], rows: &[WinnerRow], admitted: &[Admitted]) -> Option<Fetch>
    ensures { result ≡ slice_get (flat_map (attempt_fetches links.now rows.now) admitted.now) 0 }
{
    for x in admitted {
        if let Some(fetch) = first_of_edges(links, rows, x.attempt(), x.edges()) {
            return Some(fetch);
        }
    }
    None
}

/// The first attempt that has fetched all its inputs.
pub fn first_complete(admitted: &[Admitted]) -> Option<AttemptId>
    ensures { result ≡ first_complete admitted.now }
{
    for x in admitted {
        if x.missing() == 0 {
            return Some(x.attempt());
        }
    }
    None
}
