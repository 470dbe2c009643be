ghost use Rattle.std.specs.Prelude.{ℕ, List};
ghost use Rattle.zk_forms.specs.CheckAnswer.{HasOneMeaning};

/// Of every input of `check`: it is the text of one scenario and one trace in form at the most, in one format, so it can't both
/// hold and fail.
/// It does nothing when it runs.
pub fn has_one_meaning()
    ensures { (input : List ℕ) → HasOneMeaning input }
{}
