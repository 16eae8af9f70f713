ghost use Rattle.std.specs.Prelude.{◌≡◌, ◌↔◌, IsTrue, count_by};
ghost use Rattle.std.specs.List.{list_all};
ghost use Rattle.std.specs.Str.{bytes_eq};
ghost use Rattle.tez_meaning.specs.Jobs.{job_of, HasSources, is_there_once};

use std::marker::Model;
use tez_ids::{Bytes, Name};
use tez_plan::{Plan, VertexSpec};

/// A plan with its source files: of each source name of the plan exactly one.
#[derive(Drop)]
pub struct Job {
    plan: Plan,
    sources: Vec<(Name, Bytes)>,
}

impl Model for Job {
    ghost use Rattle.tez_meaning.specs.Jobs.{Job as JobValue, job_of, HasSources};

    ghost Value = { JobValue };

    ghost view = { λ j. job_of j.plan j.sources.items };

    ghost invariant = { λ j. HasSources j.plan j.sources.items };
}

impl Job {
    /// The job of a plan and its source files. `has_sources` is the test of what it asks for.
    pub fn new(plan: Plan, sources: Vec<(Name, Bytes)>) -> Job
        requires { HasSources plan sources.items }
        ensures { result ≡ job_of plan sources.items }
    {
        Job { plan, sources }
    }

    pub fn plan(&self) -> &Plan
        ensures { result.now ≡ self.now.plan }
    {
        &self.plan
    }

    /// The plan and the source files.
    pub fn into_parts(self) -> (Plan, Vec<(Name, Bytes)>)
        ensures plan { result.0 ≡ self.plan }
        ensures sources { result.1.items ≡ self.sources }
    {
        (self.plan, self.sources)
    }

    /// The source files, each with its name.
    pub fn sources(&self) -> &[(Name, Bytes)]
        ensures value { result.now ≡ self.now.sources }
        ensures once { HasSources self.now.plan result.now }
    {
        self.sources.as_slice()
    }
}

/// Whether each source name of the plan is that of exactly one file. Goes over the files for each
/// vertex.
pub fn has_sources(plan: &Plan, sources: &[(Name, Bytes)]) -> bool
    ensures { IsTrue result ↔ HasSources plan.now sources.now }
{
    all_there_once(plan.vertices(), sources)
}

fn all_there_once(vertices: &[VertexSpec], sources: &[(Name, Bytes)]) -> bool
    ensures { result ≡ list_all (is_there_once sources.now) vertices.now }
{
    vertices.iter().all(|vertex| is_there_once(vertex, sources))
}

fn is_there_once(vertex: &VertexSpec, sources: &[(Name, Bytes)]) -> bool
    ensures { result ≡ is_there_once sources.now vertex.now }
{
    match &vertex.source {
        None => true,
        Some(name) => count_named(sources, name.as_str()) == 1,
    }
}

fn count_named(sources: &[(Name, Bytes)], name: &str) -> usize
    ensures { result ≡ count_by (λ file. bytes_eq file.0 name.now) sources.now }
{
    sources
        .iter()
        .filter(|file| file.0.as_str() == name)
        .count()
}
