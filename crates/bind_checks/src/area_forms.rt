//! The area form: an area test must be a conjunct at the top, with arguments that fit its function.
ghost use Rattle.std.specs.Prelude.{◌≡◌, option_to_list};
ghost use Rattle.std.specs.Option.{option_map};
ghost use Rattle.bind_rules.specs.declared.fault.BindFault.TheVariants as fault;
ghost use Rattle.bind_rules.specs.Forms.{area_form, bad_area};
ghost use Rattle.query_walks.specs.Gathering.{test_of};

use query_walks::{Gather, TestRef, area_test, walk};
use sql_token::Span;
use sql_tree::Query;

// Returns the span of an area test that does not have the area form.
fn bad_area(test: &TestRef<'_>, top: bool) -> Option<Span>
    ensures { option_to_list result ≡ bad_area (test_of test.now) top }
{
    match test {
        TestRef::Area { kind, span, args } => {
            if top && area_test(*kind, args).is_some() {
                None
            } else {
                Some(*span)
            }
        }
        _ => None,
    }
}

// The span of the first area test that does not have the area form.
#[derive(Drop)]
struct FirstBad {
    span: Option<Span>,
}

impl Gather for FirstBad {
    ghost use Rattle.std.specs.Prelude.{true};
    ghost use Rattle.bind_rules.specs.Forms.{bad_area};
    ghost use Rattle.query_walks.specs.Behind.{first_behind};

    ghost kept = { λ _. true };

    ghost after = { λ s f. record { span = first_behind s.span (bad_area f.test f.top) } };

    fn look(&mut self, test: &TestRef<'_>, top: bool) {
        if self.span.is_none() {
            self.span = bad_area(test, top);
        }
    }
}

/// Returns the span of the function's name in the first area test that does not have the area form. Does not allocate.
pub(crate) fn first_bad_area(query: &Query) -> Option<Span>
    ensures { option_map fault.AreaForm result ≡ area_form query.now }
{
    let mut bad = FirstBad { span: None };
    walk(&mut bad, &query.cond);
    bad.span
}
