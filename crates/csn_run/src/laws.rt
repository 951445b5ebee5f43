//! Laws over the definitions, each the contract of a function that does nothing.

ghost use Rattle.csn_run.specs.Known.{Known};
ghost use Rattle.csn_run.specs.Laws.{LinesHaveAnswers, LinesHaveOneAnswer, PiecesDoNotMatter, RunsHaveResults, RunsHaveOneResult};

pub use csn_lines::laws::forms_show_one_tree;

/// What the laws of the crates below say, as the lemmas here take it.
pub(crate) fn known()
    ensures { Known }
{
    csn_grammar::laws::texts_are_decided();
    csn_grammar::laws::one_list_of_rules();
    csn_grammar::laws::rules_of_texts_are_shaped();
    csn_resolve::laws::names_are_answered();
    csn_resolve::laws::refusals_are_one();
    csn_resolve::laws::descriptions_are_one();
    csn_resolve::laws::resolved_are_descriptions();
    csn_certify::laws::first_conflict_is_one();
    csn_certmake::laws::certificates_are_one();
    csn_compat::laws::blocks_are_taken();
    csn_cert::laws::texts_are_of_one_certificate();
    csn_good::laws::good_leaves_one_tree();
    csn_good::laws::first_fault_is_one();
    csn_lines::laws::known();
}

/// Each line has one answer, in each job over lines that words ask for.
pub fn lines_have_one_answer()
    ensures some_answer { LinesHaveAnswers }
    ensures one_answer { LinesHaveOneAnswer }
{
    csn_lines::laws::jobs_have_one_answer();
}

/// The words, the files and the whole input settle what a run writes and how it ends, in whatever pieces the input comes.
pub fn runs_have_one_result()
    ensures some_result { RunsHaveResults }
    ensures one_result { RunsHaveOneResult }
    ensures pieces { PiecesDoNotMatter }
{
    known();
    lines_have_one_answer();
}
