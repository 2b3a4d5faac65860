//! Registrations of tables.
ghost use Rattle.std.specs.Prelude.{◌≡◌, ◌≤◌, ◌↔◌, true, false, length, IsSome, IfSome};
ghost use Rattle.tbl_words.specs.declared.history.Call.TheVariants.{Register};
ghost use Rattle.fsw_c.specs.Rules.{rule_in, rules_in};
ghost use Rattle.fsw_c.specs.TableAnswers.{TableCall, AnswersTables};
ghost use Rattle.fsw_c.specs.TableCodes.{gives_handle, handle_answer};

use crate::codes::CLOSED;
use crate::handle::FswCore;
use crate::table_codes::code_of_registration;
use std::alloc::Global;
use std::marker::Brand;
use step_count::Blank;
use tbl_rules::{MAX_RULES, Rule, RuleList};
use tbl_words::Registered;

// A rule that stands for others.
const NO_RULE: Rule = Rule {
    offset: 0,
    low: 0,
    high: 0,
};

/// A rule for one byte of a table.
#[repr(C)]
#[derive(Clone, Copy)]
pub struct FswRule {
    /// Which byte.
    pub offset: u32,
    /// Its least value.
    pub low: u8,
    /// And its greatest.
    pub high: u8,
}

impl FswRule {
    // The rule.
    fn rule(&self) -> Rule
        ensures { result ≡ rule_in self.now }
    {
        Rule {
            offset: self.offset,
            low: self.low,
            high: self.high,
        }
    }
}

// These rules; None if and only if there are more than 8.
fn rules_of(rules: &[FswRule]) -> Option<RuleList>
    ensures valid { IsSome result ↔ (length rules.now ≤ 8) }
    ensures value { IfSome result (λ kept. kept ≡ rules_in rules.now) }
{
    if rules.len() > MAX_RULES {
        return None;
    }
    let mut kept = RuleList::new();
    for rule in rules {
        kept.push(rule.rule());
    }
    Some(kept)
}

/// Registers a table of the caller's with at most 8 rules, and gives its owner's handle.
#[unsafe(no_mangle)]
#[tactic(auto, using(crate::proofs::Numbers::refused_handle, crate::proofs::Numbers::unasked_handle))]
pub extern "C" fn fsw_raw_table_register(
    alloc: Global,
    core: &mut FswCore,
    app: u32,
    name: &[u8],
    size: u32,
    option: u32,
    rules: &[FswRule],
    handle: &mut u32,
) -> u32
    ensures call { TableCall core.old.held.value core.new.held.value app
        (Register name.now size option (rules_in rules.now)) result }
    ensures kept { gives_handle result ≡ false → handle.new ≡ handle.old }
    ensures number { gives_handle result ≡ true →
        AnswersTables core.old.held.value core.new.held.value app
        (Register name.now size option (rules_in rules.now)) (handle_answer result handle.new) }
{
    let Some(mut it) = core.take(alloc) else {
        return CLOSED;
    };
    let Some(few) = rules_of(rules) else {
        // The box refuses them, after it has tested the application.
        let many = [NO_RULE; MAX_RULES + 1];
        let answer = it
            .tables
            .register::<Brand>(app, name, size, option, &many, Blank::new(1));
        *core = FswCore::open(it);
        return code_of_registration(&answer);
    };
    let answer = it
        .tables
        .register::<Brand>(app, name, size, option, few.as_slice(), Blank::new(1));
    *core = FswCore::open(it);
    if let Ok(Ok(Registered::New(number) | Registered::Duplicate(number))) = answer {
        *handle = number;
    }
    code_of_registration(&answer)
}
