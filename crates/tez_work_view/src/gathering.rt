//! What attempts gather is what the history says that they copied.
ghost use Rattle.std.specs.Prelude.{◌≡◌, true};
ghost use Rattle.std.specs.List.{flat_map};
ghost use Rattle.tez_ids.specs.declared.AttemptId.{AttemptId};
ghost use Rattle.tez_lists.specs.Numbers.{In};
ghost use Rattle.tez_record.specs.Bag.{sort};
ghost use Rattle.tez_conf.specs.declared.values.ConfValues.{ConfValues};
ghost use Rattle.tez_history.specs.Shape.{Edge, edges_to, numbers_below};
ghost use Rattle.tez_history.specs.History.{Past};
ghost use Rattle.tez_history.specs.Derived.{input_count, all_fetched};
ghost use Rattle.tez_history.specs.Follows.{IsMade};
ghost use Rattle.tez_meaning.specs.Jobs.{Job};
ghost use Rattle.tez_contents.specs.Contents.{copied};
ghost use Rattle.tez_work_view.specs.Holdings.{gathered};

/// Once an attempt has fetched all inputs, what it gathered over an edge is what it copied over it,
/// input by input, in whatever order it came: each input was fetched once.
pub fn what_is_gathered_is_copied()
    ensures { (job : Job) (c : ConfValues) (past : Past) (a : AttemptId) (e : Edge) → IsMade job.plan c past → In e (edges_to job.plan a.task.vertex.0) → all_fetched job.plan past a ≡ true → sort (gathered job a e.0 past) ≡ sort (flat_map (λ i. copied job a e.0 i past) (numbers_below (input_count job.plan past e.1 a.task.index))) }
{}
