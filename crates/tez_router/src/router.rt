ghost use Rattle.std.specs.Prelude.{◌≡◌, ◌≤◌, ◌<◌, suc, true, None, Some, map, slice_get, IfOk, OnOk, OnErr, IsTrue, length};
ghost use Rattle.std.specs.List.{list_all};
ghost use Rattle.tez_lists.specs.Tables.{set_in};
ghost use Rattle.tez_router.specs.State.{routing_of};
ghost use Rattle.tez_router.specs.Planned.{planned_router};
ghost use Rattle.tez_router.specs.Configure.{after_set_edges, links_for, links_from, CanConfigure, CanConfigureFrom, has_numbers, may_reroute, may_configure};
ghost use Rattle.tez_router.specs.Admission.{FitsRouter};
ghost use Rattle.tez_router.specs.Table.{source_in, output_in, piece_in, after_announce, after_withdraw, after_admit, after_dismiss, after_fetched, fetched_in, missing_in, with_routing, restart_by, after_set_edge, can_restart_by, can_set_edge, notices_in, without, fetches_in, first_complete};

use crate::admission::Admission;
use crate::admitted::Admitted;
use crate::fetches::{Fetch, first_complete, first_fetch};
use crate::link::Link;
use crate::notice::Notice;
use crate::notices::{Loss, notices_of};
use crate::order::{find, put, put_within};
use crate::planned::{planned_links, planned_rows};
use crate::winners::{WinnerRow, winner_at};
use std::alloc::{AllocError, Global};
use std::marker::Model;
use tez_edges::Manager;
use tez_ids::{AttemptId, EdgeId, TaskId, VertexId};
use tez_plan::Plan;
use tez_vman::Config;

/// The edges with their managers, the winners, and what each waiting attempt has fetched.
#[derive(Drop)]
pub struct Router {
    links: Vec<Link>,
    winners: Vec<WinnerRow>,
    admitted: Vec<Admitted>,
}

impl Model for Router {
    ghost use Rattle.tez_router.specs.State.{RouterState};
    ghost use Rattle.tez_router.specs.Kept.{IsKept};

    ghost Value = { RouterState };

    ghost view = { λ r. record { links = r.links.items; winners = r.winners.items; admitted = r.admitted.items } };

    ghost invariant = { λ r. IsKept r.links.items r.admitted.items };
}

fn set_winner(rows: &mut [WinnerRow], task: TaskId, winner: Option<AttemptId>)
    ensures { rows.new ≡ set_in rows.old task.vertex.0 task.index winner }
{
    let v = task.vertex.0 as usize;
    if v < rows.len() {
        rows[v].set(task.index, winner);
    }
}

fn set_manager(links: &mut [Link], edge: EdgeId, manager: Manager)
    ensures { links.new ≡ with_routing links.old edge.0 (routing_of manager) }
{
    let e = edge.0 as usize;
    if e < links.len() {
        links[e].set_manager(manager);
    }
}

fn restart_all(admitted: &mut [Admitted], edge: EdgeId, manager: Manager)
    requires { IsTrue (list_all (can_restart_by edge.0 (routing_of manager)) admitted.old) }
    ensures { admitted.new ≡ map (restart_by edge.0 (routing_of manager)) admitted.old }
{
    for x in admitted.iter_mut() {
        x.restart(edge, manager);
    }
}

fn may_reroute_all(router: &Router, links: &[Link], v: VertexId, config: Config) -> bool
    ensures { result ≡ list_all (may_reroute router.now v.0 config) links.now }
{
    links.iter().all(|link| router.may_reroute(link, v, config))
}

fn has_numbers(config: Config) -> bool
    ensures { result ≡ has_numbers config }
{
    config.tasks >= 1 && config.base >= 1
}

impl Router {
    /// The router of a plan: no task has a winner, no attempt is admitted, and each edge has the
    /// manager of the plan's task counts, a scatter-gather edge with base 1.
    pub fn new(alloc: Global, p: &Plan) -> Result<Self, AllocError>
        ensures { IfOk result (λ r. r ≡ planned_router p.now) }
    {
        Ok(Router {
            links: planned_links(alloc, p)?,
            winners: planned_rows(alloc, p.vertices())?,
            admitted: Vec::new(alloc),
        })
    }

    /// Whether an edge may get this manager: each admitted attempt that reads the edge has fetched
    /// nothing over it, and gets no more inputs than it had, so that the room it has is enough.
    pub fn can_set_edge(&self, e: EdgeId, m: Manager) -> bool
        ensures { result ≡ can_set_edge self.now e.0 (routing_of m) }
    {
        self.admitted.iter().all(|x| x.can_restart(e, m))
    }

    /// Gives an edge another manager. The inputs of the attempts that read it are then those of the
    /// new manager, none of them fetched.
    pub fn set_edge(&mut self, e: EdgeId, m: Manager)
        requires { IsTrue (can_set_edge self.old e.0 (routing_of m)) }
        ensures { self.new ≡ after_set_edge self.old e.0 (routing_of m) }
    {
        set_manager(self.links.as_mut_slice(), e, m);
        restart_all(self.admitted.as_mut_slice(), e, m);
    }

    /// Whether a vertex can have these tasks and this base: no task takes more partitions than there
    /// are, and each edge at the vertex may get its manager. Takes time in the edges, and in the
    /// admitted attempts for each edge at the vertex.
    pub fn can_configure(&self, v: VertexId, config: Config) -> bool
        ensures test { result ≡ may_configure self.now v.0 config }
        ensures can { result ≡ true → CanConfigure self.now v.0 config }
    {
        has_numbers(config) && may_reroute_all(self, self.links.as_slice(), v, config)
    }

    #[tactic(auto, using(crate::proofs::MayConfigure::fits_one, crate::proofs::MayConfigure::numbers))]
    fn may_reroute(&self, link: &Link, v: VertexId, config: Config) -> bool
        ensures { result ≡ may_reroute self.now v.0 config link.now }
    {
        has_numbers(config)
            && link.fits(v, config)
            && (!link.is_at(v) || self.can_set_edge(link.edge(), link.rerouted(v, config)))
    }

    /// A vertex gets its tasks: each edge at it gets a manager of so many tasks, by `set_edge`. Takes
    /// time in the edges, and in the admitted attempts for each edge at the vertex.
    pub fn configure(&mut self, v: VertexId, config: Config)
        requires { CanConfigure self.old v.0 config }
        ensures { self.new ≡ after_set_edges self.old (links_for self.old v.0 config) }
    {
        for e in 0..self.edge_count() {
            self.configure_edge(v, config, EdgeId(e));
        }
    }

    // A plan has at most 256 edges.
    fn edge_count(&self) -> u16
        ensures { result ≡ length self.now.links }
    {
        self.links.len() as u16
    }

    // The same for one edge, those before it being done.
    fn configure_edge(&mut self, v: VertexId, config: Config, e: EdgeId)
        requires there { e.0 < length self.old.links }
        requires can { CanConfigureFrom self.old v.0 config e.0 }
        ensures can { CanConfigureFrom self.new v.0 config (suc e.0) }
        ensures rest { after_set_edges self.new (links_from self.new v.0 config (suc e.0)) ≡ after_set_edges self.old (links_from self.old v.0 config e.0) }
        ensures count { length self.new.links ≡ length self.old.links }
    {
        let link = &self.links[e.0 as usize];
        if link.is_at(v) {
            let manager = link.rerouted(v, config);
            self.set_edge(e, manager);
        }
    }

    /// The attempt is its task's winner, for each consumer that is admitted now or later.
    pub fn announce(&mut self, winner: AttemptId)
        ensures { self.new ≡ after_announce self.old winner }
    {
        set_winner(self.winners.as_mut_slice(), winner.task, Some(winner));
    }

    /// The task has no winner any more.
    pub fn withdraw(&mut self, t: TaskId)
        ensures { self.new ≡ after_withdraw self.old t }
    {
        set_winner(self.winners.as_mut_slice(), t, None);
    }

    /// The attempt waits from now on, and has fetched nothing. Takes the room that its fetches need,
    /// in whatever order they come, but does no work for each input. An attempt of the same task
    /// that was admitted before is dismissed.
    pub fn admit(&mut self, alloc: Global, a: AttemptId) -> Result<(), AllocError>
        ensures admitted { OnOk result (self.new ≡ after_admit self.old a) }
        ensures refused { OnErr result (self.new ≡ self.old) }
    {
        let x = Admitted::new(alloc, self.links.as_slice(), a)?;
        put(&mut self.admitted, x)
    }

    /// All memory that admitting the attempt takes. Changes nothing. Takes time in the edges and in the
    /// admitted attempts.
    pub fn admission(&self, alloc: Global, a: AttemptId) -> Result<Admission, AllocError>
        ensures attempt { IfOk result (λ x. x.blank.attempt ≡ a) }
        ensures fits { IfOk result (λ x. FitsRouter self.now x) }
    {
        let blank = Admitted::new(alloc, self.links.as_slice(), a)?;
        let room = Vec::with_capacity(alloc, self.admitted.len() + 1)?;
        Ok(Admission { blank, room })
    }

    /// The attempt waits from now on, and has fetched nothing. Takes no memory, and time in the
    /// admitted attempts. An attempt of the same task that was admitted before is dismissed.
    pub fn admit_prepared(&mut self, x: Admission)
        requires { FitsRouter self.old x }
        ensures { self.new ≡ after_admit self.old x.blank.attempt }
    {
        put_within(&mut self.admitted, x.room, x.blank);
    }

    /// The attempt waits no more.
    pub fn dismiss(&mut self, a: AttemptId)
        ensures { self.new ≡ after_dismiss self.old a }
    {
        if let Some(at) = find(self.admitted.as_slice(), a) {
            self.admitted.remove(at);
        }
    }

    /// Whose output the input is. None where the task that makes it has no winner, or where there is
    /// no such input.
    pub fn source_of(&self, a: AttemptId, e: EdgeId, input: u32) -> Option<AttemptId>
        ensures { result ≡ source_in self.now a e.0 input }
    {
        match self.links.get(e.0 as usize) {
            Some(link) => match link.source_task(a.task.index, input) {
                Some(task) => winner_at(self.winners.as_slice(), task),
                None => None,
            },
            None => None,
        }
    }

    /// Whose output the input is, and which of them. None where the task that makes it has no winner, or
    /// where there is no such input.
    pub fn piece_of(&self, a: AttemptId, e: EdgeId, input: u32) -> Option<(AttemptId, u32)>
        ensures { result ≡ piece_in self.now a e.0 input }
    {
        match self.source_of(a, e, input) {
            Some(winner) => Some((winner, self.output_of(a, e, input))),
            None => None,
        }
    }

    fn output_of(&self, a: AttemptId, e: EdgeId, input: u32) -> u32
        ensures { result ≡ output_in self.now a e.0 input }
    {
        match self.links.get(e.0 as usize) {
            Some(link) => link.output_of(a.task.index, input),
            None => 0,
        }
    }

    /// The attempt has fetched the input. From whom is not kept. Finding the input is logarithmic in
    /// the admitted attempts, the edges into its vertex and the runs of its inputs.
    pub fn fetched(&mut self, a: AttemptId, e: EdgeId, input: u32, _winner: AttemptId)
        ensures { self.new ≡ after_fetched self.old a e.0 input }
    {
        if let Some(at) = find(self.admitted.as_slice(), a) {
            self.admitted[at].fetch(e, input);
        }
    }

    /// False for an attempt that is not admitted. Logarithmic in the admitted attempts, the edges
    /// into its vertex and the runs of its inputs.
    pub fn is_fetched(&self, a: AttemptId, e: EdgeId, input: u32) -> bool
        ensures { result ≡ fetched_in self.now a e.0 input }
    {
        match find(self.admitted.as_slice(), a) {
            Some(at) => self.admitted[at].has(e, input),
            None => false,
        }
    }

    /// How many inputs the attempt has not fetched. 0 for an attempt that is not admitted. Logarithmic
    /// in the admitted attempts, and takes time in the edges into its vertex.
    pub fn missing(&self, a: AttemptId) -> u64
        ensures { result ≡ missing_in self.now a }
    {
        match find(self.admitted.as_slice(), a) {
            Some(at) => self.admitted[at].missing(),
            None => 0,
        }
    }

    /// One notice for each admitted attempt and input that it has not fetched and that leads back to
    /// the task, in the order of the attempts' tasks, then of edges, then of inputs. There is none
    /// where the task has no winner. Takes time in the admitted attempts that read the task's output,
    /// for each of them logarithmic in its edges, and in its inputs that lead back to the task: over
    /// scatter-gather and broadcast edges these are all admitted attempts of the vertex, over one to
    /// one the attempt of the task's index alone, which is looked up. Besides, each vertex with
    /// admitted attempts takes time in the plan's edges, and logarithmic in the admitted attempts.
    pub fn notices(&self, alloc: Global, t: TaskId) -> Result<Vec<Notice>, AllocError>
        ensures { IfOk result (λ found. found.items ≡ notices_in self.now t) }
    {
        self.notices_except(alloc, t, &[])
    }

    /// The notices that there are once these attempts are dismissed. Takes the time of `notices`, and
    /// time in the number of these attempts for each admitted attempt that reads the task's output.
    pub fn notices_except(
        &self,
        alloc: Global,
        t: TaskId,
        ended: &[AttemptId],
    ) -> Result<Vec<Notice>, AllocError>
        ensures { IfOk result (λ found. found.items ≡ notices_in (without self.now ended.now) t) }
    {
        match winner_at(self.winners.as_slice(), t) {
            Some(lost) => notices_of(
                alloc,
                self.links.as_slice(),
                self.admitted.as_slice(),
                Loss { task: t, lost },
                ended,
            ),
            None => Ok(Vec::new(alloc)),
        }
    }

    /// The first fetch that can be made: the input was not fetched, and its source task has a winner.
    /// The first is that of the least task, then of the least edge, then of the least input. Goes over
    /// the admitted attempts from the first one at each call: takes time in the attempts and edges
    /// before it, and in the inputs before it that miss and whose source has no winner, for each edge
    /// and each such input logarithmic in the runs of what was fetched.
    pub fn next_fetch(&self) -> Option<Fetch>
        ensures { result ≡ slice_get (fetches_in self.now) 0 }
    {
        first_fetch(
            self.links.as_slice(),
            self.winners.as_slice(),
            self.admitted.as_slice(),
        )
    }

    /// The first attempt, in the order of tasks, that has fetched all its inputs. Takes time in the
    /// attempts before it and their edges.
    pub fn next_complete(&self) -> Option<AttemptId>
        ensures { result ≡ first_complete self.now.admitted }
    {
        first_complete(self.admitted.as_slice())
    }
}
