//! Validation rules of a table, and lists of them.
ghost use Rattle.std.specs.Prelude.{◌≡◌, ◌<◌, ◌≤◌, ◌↔◌, List, [], ◌∷◌, ◌++◌, length, slice_get, IsSome, IfSome, Some};
ghost use Rattle.tbl_rules.specs.declared.rules.TheConstants.{MAX_RULES};

use arrayvec::ArrayVec;
use std::marker::Model;

/// How many rules a table may have.
pub const MAX_RULES: usize = 8;

/// What a table's validation asks of one byte.
#[derive(Clone, Copy, Debug, Default, PartialEq, Eq)]
pub struct Rule {
    /// The byte's place in the table.
    pub offset: u32,
    /// The least value that it may have.
    pub low: u8,
    /// The greatest value that it may have.
    pub high: u8,
}

/// Up to [`MAX_RULES`] rules, in the order in which they are tried.
#[derive(Debug, Drop)]
pub struct RuleList {
    rules: ArrayVec<Rule, MAX_RULES>,
}

impl Model for RuleList {
    ghost use Rattle.std.specs.Prelude.{List, length, ◌≤◌};
    ghost use Rattle.tbl_rules.specs.declared.rules.Rule.{Rule};
    ghost use Rattle.tbl_rules.specs.declared.rules.TheConstants.{MAX_RULES};

    ghost Value = { List Rule };

    ghost view = { λ r. r.rules.items };

    ghost invariant = { λ r. length r.rules.items ≤ MAX_RULES };
}

impl RuleList {
    /// No rules.
    pub fn new() -> RuleList
        ensures { result ≡ [] }
    {
        RuleList {
            rules: ArrayVec::new(),
        }
    }

    /// These rules; None if and only if there are too many.
    pub fn try_new(rules: &[Rule]) -> Option<RuleList>
        ensures valid { IsSome result ↔ (length rules.now ≤ MAX_RULES) }
        ensures value { IfSome result (λ kept. kept ≡ rules.now) }
    {
        if rules.len() > MAX_RULES {
            return None;
        }
        let mut kept = ArrayVec::new();
        let _ = kept.try_extend_from_slice(rules);
        Some(RuleList { rules: kept })
    }

    /// Adds a rule, which is tried last.
    pub fn push(&mut self, rule: Rule)
        requires { length self.old < MAX_RULES }
        ensures { self.new ≡ self.old ++ rule ∷ [] }
    {
        self.rules.push(rule);
    }

    /// How many rules there are, at most [`MAX_RULES`].
    pub fn count(&self) -> u32
        ensures count { result ≡ length self.now }
        ensures few { result ≤ MAX_RULES }
    {
        self.rules.len() as u32
    }

    /// The rule at a place, in the order given; places count from 0.
    pub fn at(&self, i: u32) -> Rule
        requires { i < length self.now }
        ensures { slice_get self.now i ≡ Some result }
    {
        self.rules.as_slice()[i as usize]
    }

    /// The rules.
    pub fn as_slice(&self) -> &[Rule]
        ensures rules { result.now ≡ self.now }
        ensures few { length result.now ≤ MAX_RULES }
    {
        self.rules.as_slice()
    }

    /// The same rules once more.
    pub fn again(&self) -> RuleList
        ensures { result ≡ self.now }
    {
        let mut kept = ArrayVec::new();
        let _ = kept.try_extend_from_slice(self.rules.as_slice());
        RuleList { rules: kept }
    }
}
