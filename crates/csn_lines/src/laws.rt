//! Laws over the definitions, each the contract of a function that does nothing.

ghost use Rattle.csn_lines.specs.Known.{Known};
ghost use Rattle.csn_lines.specs.Laws.{FormsAreShownTogether, FormsShowOneTree, JobsHaveAnswers, JobsHaveOneAnswer};
ghost use Rattle.csn_lines.specs.Laws.{PlansDoJobs, RulesAndPlansAgree};

/// What the laws of the crates below say of lines and their answers, as lemmas take it.
pub fn known()
    ensures { Known }
{
    csn_bits::laws::spells_one_block();
    csn_bits::laws::fault_or_block();
    csn_desc::laws::blocks_have_one_place();
    csn_desc::laws::following_is_decided();
    csn_grammar::laws::rules_of_texts_are_shaped();
    csn_grammar::laws::blocks_have_one_place();
    csn_grammar::laws::meanings_are_bits();
    csn_resolve::laws::descriptions_are_one();
    csn_resolve::laws::resolved_are_descriptions();
    csn_resolve::laws::resolving_keeps_meanings();
    csn_certify::laws::blocks_have_one_tree();
    csn_encode::laws::one_block();
    csn_encode::laws::misfits_have_no_bits();
    csn_encode::laws::first_misfit_is_one();
    csn_encode::laws::trees_fit_or_miss();
    csn_segment::laws::messages_are_short();
    csn_treetext::laws::texts_are_decided();
    csn_treetext::laws::texts_are_of_one_tree();
    csn_treetext::laws::versions_share_trees();
    csn_movetext::laws::trees_have_texts();
    csn_json::laws::texts_are_decided();
    csn_json::laws::texts_have_one_tree();
    csn_json::laws::trees_are_not_refused();
    csn_json::laws::written_is_shown();
    csn_replay::laws::heads_tell_captures();
}

/// A rule and its certified description are of one language, so a job gives by plans what it gives by its rules.
pub fn plans_do_jobs()
    ensures agree { RulesAndPlansAgree }
    ensures same { PlansDoJobs }
{
    known();
}

/// Each line has one answer, in each job over lines whose rules have plans.
pub fn jobs_have_one_answer()
    ensures some_answer { JobsHaveAnswers }
    ensures one_answer { JobsHaveOneAnswer }
{
    known();
}

/// `json` shows what `show` shows: the same blocks, by the same trees.
pub fn forms_show_one_tree()
    ensures together { FormsAreShownTogether }
    ensures one_tree { FormsShowOneTree }
{
    known();
}
