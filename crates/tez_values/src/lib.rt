//! What heads and steps make of bags of records: definitions, and the laws that hold of them.
#![tactic(auto)]

ghost use Rattle.std.specs.Prelude.{◌≡◌, ℕ, List};
ghost use Rattle.tez_plan.specs.declared.parts.Head.{Head};
ghost use Rattle.tez_plan.specs.declared.parts.Step.{Step};
ghost use Rattle.tez_values.specs.Heads.{HeadInputs, SameInputs};
ghost use Rattle.tez_values.specs.Program.{output, first_bad};

/// What a program makes depends on the bags of its inputs alone, and not on their order, and so does
/// the first bad record that it meets.
pub fn order_does_not_matter()
    ensures bad { (h : Head) (steps : List Step) (i j : HeadInputs) → SameInputs i j → first_bad h steps i ≡ first_bad h steps j }
    ensures made { (h : Head) (steps : List Step) (i j : HeadInputs) → SameInputs i j → output h steps i ≡ output h steps j }
{}
