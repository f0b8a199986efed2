// What a subsystem means: its state, what each call answers and does, histories of calls, and the law of independent polling.
#![tactic(auto)]

ghost use Rattle.std.specs.Prelude.{◌≡◌, ◌+◌, length};
ghost use Rattle.model.specs.ReferenceCases.{expected_findings, ReferenceCasesFound};
ghost use Rattle.model.specs.PageWalkExample.{page_count, PageWalkIsMet};

// How many reference cases are found of the definitions: temperature codes, reports, and calls.
pub fn reference_cases() -> usize
    ensures the_definitions_give_what_is_expected { ReferenceCasesFound }
    ensures counts_the_cases { result ≡ length expected_findings.codes + length expected_findings.gains + length expected_findings.told }
{
    7 + 2 + 10
}

// How many pages the page walk of an example has, which meets every premise of the law's third field.
pub fn page_walk_example() -> usize
    ensures the_walk_is_met { PageWalkIsMet }
    ensures counts_the_pages { result ≡ page_count }
{
    meet_page_walk();
    3
}

// The page walk, for the function above.
#[tactic(auto, using(crate::proofs::PageWalkExample::page_walk_is_met))]
fn meet_page_walk()
    ensures the_walk_is_met { PageWalkIsMet }
{}
