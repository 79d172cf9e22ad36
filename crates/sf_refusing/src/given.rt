//! Rules in force, with their counts.

ghost use Rattle.std.specs.Prelude.{◌≡◌, ◌<◌, ◌≤◌, ℕ, nat_lt, ◌&&◌, true, false, length, slice_get, Some, IfSome, IfNone};
ghost use Rattle.sf_refusing.specs.declared.given.GivenRule.{GivenRule};
ghost use Rattle.sf_refusing.specs.Rules.{fits};
ghost use Rattle.sf_refusing.specs.Counting.{refuses_now, counted_if};

use crate::rule::{Rule, Subject};

/// A rule, the number of matching requests that passed, and the number that it refused.
#[derive(Debug, Drop)]
pub(crate) struct GivenRule {
    pub rule: Rule,
    pub passed: u64,
    pub refused: u64,
}

impl GivenRule {
    /// A rule that has counted no request.
    pub(crate) fn new(rule: Rule) -> GivenRule
        ensures { result ≡ record { rule = rule; passed = 0; refused = 0 } }
    {
        GivenRule {
            rule,
            passed: 0,
            refused: 0,
        }
    }

    /// Whether the rule refuses this request next.
    fn refuses(&self, subject: &Subject) -> bool
        ensures { result ≡ refuses_now self.now subject.now.session subject.now.kind
            subject.now.paths.items }
    {
        self.rule.fits(subject) && self.passed >= self.rule.pass && self.refused < self.rule.refuse
    }

    /// Counts a request, if the rule matches it.
    fn count(&mut self, subject: &Subject)
        ensures { self.new ≡ counted_if (fits self.old.rule subject.now.session subject.now.kind
            subject.now.paths.items) self.old }
    {
        if !self.rule.fits(subject) {
            return;
        }
        if self.passed < self.rule.pass {
            self.passed += 1;
        } else if self.refused < self.rule.refuse {
            self.refused += 1;
        }
    }
}

/// The first rule that refuses a request.
pub(crate) fn first_refusing(rules: &[GivenRule], subject: &Subject) -> Option<usize>
    ensures found { IfSome result (λ number. (given : GivenRule)
        × (slice_get rules.now number ≡ Some given)
        × (refuses_now given subject.now.session subject.now.kind subject.now.paths.items ≡ true)) }
    ensures first { IfSome result (λ number. (other : ℕ) (given : GivenRule) → other < number
        → slice_get rules.now other ≡ Some given
        → refuses_now given subject.now.session subject.now.kind subject.now.paths.items
        ≡ false) }
    ensures none { IfNone result ((other : ℕ) (given : GivenRule)
        → slice_get rules.now other ≡ Some given
        → refuses_now given subject.now.session subject.now.kind subject.now.paths.items
        ≡ false) }
{
    'rules: for (number, given) in rules.iter().enumerate() {
        if given.refuses(subject) {
            return Some(number);
        }
    }
    None
}

/// The first `count` rules count a request.
pub(crate) fn count_with(rules: &mut Vec<GivenRule>, count: usize, subject: &Subject)
    requires { count ≤ length rules.old.items }
    ensures length { length rules.new.items ≡ length rules.old.items }
    ensures each { (number : ℕ) (given : GivenRule) → slice_get rules.old.items number ≡ Some given
        → slice_get rules.new.items number
        ≡ Some (counted_if (nat_lt number count && fits given.rule subject.now.session
        subject.now.kind subject.now.paths.items) given) }
{
    'rules: for number in 0..count {
        rules[number].count(subject);
    }
}
