ghost use Rattle.std.specs.Prelude.{◌≡◌, ◌<◌, IfOk, IsTrue, [], codes, length};
ghost use Rattle.std.specs.List.{list_all};
ghost use Rattle.serde_json.specs.View.{view};
ghost use Rattle.tez_plan.specs.Ranges.{IsInRanges, vertex_in_range, edge_in_range};
ghost use Rattle.tez_dag_json.specs.Answers.{Reads, ReadsAs};
ghost use Rattle.tez_dag_json.specs.Places.{reading};
ghost use Rattle.tez_dag_json.specs.Kinds.{required, defaulted, list as list_of};
ghost use Rattle.tez_dag_json.specs.Form.{vertices as vertices_of, edge, document as document_of};
ghost use Rattle.tez_dag_json.specs.Documents.{contents};

use crate::conf::conf_at;
use crate::fault::DagFault;
use crate::kinds::At;
use crate::list::list;
use crate::path;
use serde_json::Value;
use std::alloc::Global;
use tez_conf::Conf;
use tez_ids::Name;
use tez_plan::{EdgeSpec, VertexSpec};

/// What a document says.
#[derive(Drop)]
pub(crate) struct Document {
    pub name: Name,
    pub vertices: Vec<VertexSpec>,
    pub edges: Vec<EdgeSpec>,
    pub conf: Conf,
}

/// The vertices, of which there is at least one.
#[tactic(auto, unfolding(crate::specs::Form::vertices))]
fn vertices_at(at: &At<'_>) -> Result<Vec<VertexSpec>, DagFault>
    ensures reads { ReadsAs (λ v. v.items) result (reading (required (codes "vertices") vertices_of) at.now) }
    ensures in_range { IfOk result (λ v. IsTrue (list_all vertex_in_range v.items)) }
    ensures some { IfOk result (λ v. 0 < length v.items) }
{
    let Some(value) = at.value.get("vertices") else {
        return Err(at.shape("vertices"));
    };
    let path = path::key_path(at.alloc, at.path, "vertices")?;
    let here = At {
        alloc: at.alloc,
        path: path.as_str(),
        value,
    };
    let vertices: Vec<VertexSpec> = list(&here)?;
    if vertices.is_empty() {
        return Err(at.shape("vertices"));
    }
    Ok(vertices)
}

/// The edges, none where there is no such key.
fn edges_at(at: &At<'_>) -> Result<Vec<EdgeSpec>, DagFault>
    ensures reads { ReadsAs (λ v. v.items) result (reading (defaulted (codes "edges") [] (list_of edge)) at.now) }
    ensures in_range { IfOk result (λ v. IsTrue (list_all edge_in_range v.items)) }
{
    let Some(value) = at.value.get("edges") else {
        return Ok(Vec::new(at.alloc));
    };
    let path = path::key_path(at.alloc, at.path, "edges")?;
    list(&At {
        alloc: at.alloc,
        path: path.as_str(),
        value,
    })
}

/// What the value of a file says.
#[tactic(auto, unfolding(crate::specs::Form::document))]
pub(crate) fn read_document(alloc: Global, value: &Value) -> Result<Document, DagFault>
    ensures reads { ReadsAs contents result (document_of (view value.now)) }
    ensures in_ranges { IfOk result (λ said. IsInRanges (contents said).0) }
{
    let at = At {
        alloc,
        path: "",
        value,
    };
    at.object()?;
    let name = at.name("name")?;
    let conf = conf_at(&at)?;
    let vertices = vertices_at(&at)?;
    let edges = edges_at(&at)?;
    at.no_others(&["name", "conf", "vertices", "edges"])?;
    Ok(Document {
        name,
        vertices,
        edges,
        conf,
    })
}
