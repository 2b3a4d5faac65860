//! Whether a value meets the rules of a table.
ghost use Rattle.std.specs.Prelude.{◌≡◌, ◌+◌, ◌<◌, ◌≤◌, length, slice_index, All};
ghost use Rattle.tbl_rules.specs.Rules.{is_met, failed_rule};
ghost use Rattle.tbl_words.specs.Machine.{with_range};
ghost use Rattle.tbl_rules.specs.declared.rules.TheConstants.{MAX_RULES};

use tbl_rules::Rule;

/// The number, from 1, of the first rule that a value fails, with the bytes from an offset on
/// replaced by these.
pub(crate) fn failed_rule(rules: &[Rule], value: &[u8], offset: u32, bytes: &[u8]) -> Option<u32>
    requires fit { All (λ rule. rule.offset < length value.now) rules.now }
    requires few { length rules.now ≤ MAX_RULES }
    requires range { offset + length bytes.now ≤ length value.now }
    ensures { result ≡ failed_rule rules.now (with_range value.now offset bytes.now) }
{
    let mut number = 0;
    for rule in rules {
        number += 1;
        if !is_met(*rule, value, offset, bytes) {
            return Some(number);
        }
    }
    None
}

// Whether the rule's byte is from its least value to its greatest.
fn is_met(rule: Rule, value: &[u8], offset: u32, bytes: &[u8]) -> bool
    requires place { rule.offset < length value.now }
    requires range { offset + length bytes.now ≤ length value.now }
    ensures { result ≡ is_met (with_range value.now offset bytes.now) rule }
{
    let byte = byte_at(rule.offset, value, offset, bytes);
    rule.low <= byte && byte <= rule.high
}

// The byte at a place of a value with the bytes from an offset on replaced by these.
fn byte_at(place: u32, value: &[u8], offset: u32, bytes: &[u8]) -> u8
    requires place { place < length value.now }
    requires range { offset + length bytes.now ≤ length value.now }
    ensures { result ≡ slice_index (with_range value.now offset bytes.now) place }
{
    if place < offset || place as usize >= offset as usize + bytes.len() {
        return value[place as usize];
    }
    bytes[(place - offset) as usize]
}
