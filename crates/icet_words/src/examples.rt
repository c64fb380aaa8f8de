//! What readings are, evaluated by the prover.
ghost use Rattle.std.specs.Prelude.{◌≡◌, [], ◌∷◌, ◌++◌, Some, None, codes, option_map};
ghost use Rattle.icet_words.specs.CommandLine.{reading};
ghost use Rattle.icet_words.specs.Examples.{cap, capped, compositing, number_of, plain, planned, typed};
ghost use Rattle.icet_words.specs.declared.job.Job.TheVariants.{Composite, Replay};
ghost use Rattle.icet_multi.specs.declared.settings.Strategy.TheVariants.{Sequential, Reduce};
ghost use Rattle.icet_multi.specs.declared.settings.Single.TheVariants.{Radixk};
ghost use Rattle.clap.specs.Walk.{Text};
ghost use Rattle.icet_words.specs.Full.{Texts, in_full, name_of, words_in_full};
ghost use Rattle.icet_words.specs.declared.job.Job.{Job};

/// Words that are a command.
pub fn taken()
    ensures alone { typed (codes "composite") ≡ Some (plain Composite) }
    ensures before { typed (codes "--strategy=sequential composite") ≡ Some (planned Sequential 8 (plain Composite)) }
    ensures two { typed (codes "composite --cap=64 --k 2") ≡ Some (planned Reduce 2 (capped 64)) }
    ensures strands { typed (codes "composite --strands=64") ≡ Some (record (plain Composite) { strands = 64 }) }
    ensures schedule { typed (codes "replay --schedule 3,1") ≡ Some (record (plain Replay) { schedule = 3 ∷ 1 ∷ [] }) }
{}

/// Words that are none.
pub fn refused()
    ensures range { typed (codes "composite --cap 65") ≡ None }
    ensures strands { typed (codes "composite --strands 65") ≡ None }
    ensures none { typed (codes "composite --strands 0") ≡ None }
    ensures twice { typed (codes "composite --cap 2 --cap 2") ≡ None }
    ensures help { typed (codes "--help") ≡ None }
    ensures schedule { typed (codes "composite --schedule 1,,2") ≡ None }
    ensures extra { typed (codes "composite extra") ≡ None }
    ensures empty { reading [] ≡ None }
{}

/// The value of an option, whatever its text is: it is read where it is a number of the range, before the job and
/// behind it, and a second one is refused.
pub fn any_text()
    ensures value { (text : Text) → reading (compositing (cap text ∷ [])) ≡ option_map capped (number_of 1 64 text) }
    ensures before { (text : Text) → reading (cap text ∷ codes "composite" ∷ []) ≡ reading (compositing (cap text ∷ [])) }
    ensures twice { (text other : Text) → reading (compositing (cap text ∷ cap other ∷ [])) ≡ None }
{}

/// A job with each option once is read value by value, whatever the texts are.
pub fn in_full()
    ensures { (job : Job) (texts : Texts) → reading (words_in_full (name_of job) texts) ≡ in_full job texts }
{}
