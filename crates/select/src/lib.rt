// Which schemes of a bank may compete for a column.
#![tactic(auto)]

ghost use Rattle.std.specs.Prelude.{◌≡◌, ℕ, ◌<◌, ◌&&◌, length, map};
ghost use Rattle.column.specs.Kinds.{number_of};
ghost use Rattle.scheme.specs.Banks.{at};
ghost use Rattle.scheme.specs.Exclusion.{competes, eligible, excluded as excluded_by, in_history, pulled, pushed, push_of, wanted};
ghost use Rattle.scheme.specs.Rules.{Rule, children_seen, names, push_rule, pull_rule, push_seen, pull_seen};

use bank::Bank;
use bank::small::SmallBank;
use column::kinds::Kind;
use scheme::exclusion::{AncestorExclusion, ChildSelection, DescendantExclusion};

// A scheme, and the children that the rule names it at.
trait Exclusion {
    ghost rule: { Self → Rule };

    fn scheme(&self) -> u8
        ensures { result ≡ (rule self.now).scheme };

    fn children(&self) -> ChildSelection<'_>
        ensures { children_seen result ≡ (rule self.now).children };
}

impl Exclusion for DescendantExclusion<'_> {
    ghost rule = { push_rule };

    fn scheme(&self) -> u8 {
        self.excluded
    }

    fn children(&self) -> ChildSelection<'_> {
        self.children
    }
}

impl Exclusion for AncestorExclusion<'_> {
    ghost rule = { pull_rule };

    fn scheme(&self) -> u8 {
        self.ancestor
    }

    fn children(&self) -> ChildSelection<'_> {
        self.children
    }
}

// Whether a rule names the scheme at the child.
fn is_named<E: Exclusion>(rules: &[E], id: u8, child: usize) -> bool
    ensures { result ≡ names (map E.rule rules.now) id child }
{
    rules.iter().any(|rule| rule.scheme() == id && rule.children().contains(child))
}

// The push rules of the first scheme with the id.
fn push_rules<'a, B: Bank>(bank: &SmallBank<'a, B>, id: u8) -> &'a [DescendantExclusion<'a>]
    ensures { push_seen result.now ≡ push_of id (B.Bank.meanings bank.now.schemes.now) }
{
    bank.find(id)
        .map_or(&[], |j| bank.schemes.descendant_exclusions_at(j))
}

// Whether a rule of the ancestor names the scheme at the ancestor's child.
fn ancestor_pushes<B: Bank>(bank: &SmallBank<'_, B>, ancestor: u8, child: usize, id: u8) -> bool
    ensures { result ≡ names (push_of ancestor (B.Bank.meanings bank.now.schemes.now)) id child }
{
    is_named(push_rules(bank, ancestor), id, child)
}

fn is_in_history(history: &[(u8, usize)], id: u8) -> bool
    ensures { result ≡ in_history id history.now }
{
    history.iter().any(|entry| entry.0 == id)
}

fn is_pushed<B: Bank>(bank: &SmallBank<'_, B>, id: u8, history: &[(u8, usize)]) -> bool
    ensures { result ≡ pushed (B.Bank.meanings bank.now.schemes.now) id history.now }
{
    history
        .iter()
        .any(|entry| ancestor_pushes(bank, entry.0, entry.1, id))
}

fn is_pulled(rules: &[AncestorExclusion<'_>], history: &[(u8, usize)]) -> bool
    ensures { result ≡ pulled (pull_seen rules.now) history.now }
{
    history
        .iter()
        .any(|entry| is_named(rules, entry.0, entry.1))
}

// A scheme of a bank by its number, and the history of the node that it would stand at.
#[derive(Drop)]
pub struct Candidate<'a, 'b, B: Bank> {
    pub bank: &'a SmallBank<'a, B>,
    pub number: usize,
    pub history: &'b [(u8, usize)],
    ghost within: { number < length (B.Bank.meanings bank.now.schemes.now) },
}

impl<B: Bank> Candidate<'_, '_, B> {
    // Whether it stands in the history already, an ancestor pushes it away, or it keeps away from an ancestor.
    pub fn is_excluded(&self) -> bool
        ensures { let ms = B.Bank.meanings self.now.bank.now.schemes.now in result ≡ excluded_by ms (at ms self.now.number) self.now.history.now }
    {
        let schemes = self.bank.schemes;
        let id = schemes.id_at(self.number);
        is_in_history(self.history, id)
            || is_pushed(self.bank, id, self.history)
            || is_pulled(schemes.ancestor_exclusions_at(self.number), self.history)
    }

    // Whether it takes the kind and is not excluded.
    pub fn is_eligible(&self, kind: Kind) -> bool
        ensures { let ms = B.Bank.meanings self.now.bank.now.schemes.now in result ≡ competes ms (number_of kind) self.now.history.now (at ms self.now.number) }
    {
        self.bank.schemes.takes_at(self.number, kind) && !self.is_excluded()
    }

    // Whether it is eligible and wants distinct counts.
    fn is_wanting(&self, kind: Kind) -> bool
        ensures { let ms = B.Bank.meanings self.now.bank.now.schemes.now in result ≡ (competes ms (number_of kind) self.now.history.now (at ms self.now.number) && (at ms self.now.number).wants) }
    {
        self.is_eligible(kind) && self.bank.schemes.wants_at(self.number)
    }
}

// Whether one of the eligible schemes wants distinct counts.
pub fn any_wants<B: Bank>(bank: &SmallBank<'_, B>, kind: Kind, history: &[(u8, usize)]) -> bool
    ensures { result ≡ wanted (eligible (B.Bank.meanings bank.now.schemes.now) (number_of kind) history.now) }
{
    (0..bank.schemes.count()).any(
        |number|
            requires { number < length (B.Bank.meanings bank.now.schemes.now) }
        {
            let candidate = Candidate {
                bank,
                number,
                history,
            };
            candidate.is_wanting(kind)
        },
    )
}
