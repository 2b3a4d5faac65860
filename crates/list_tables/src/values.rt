//! Values of tables, which are shared by those who hold them and never changed.
ghost use Rattle.std.specs.Prelude.{◌≡◌, ◌≤◌, replicate, length, slice_index, IfOk};
ghost use Rattle.tbl_words.specs.Machine.{with_range};
ghost use Rattle.tbl_rules.specs.Rules.{is_met, failed_rule};
ghost use Rattle.tbl_rules.specs.declared.rules.TheConstants.{MAX_RULES};

use std::alloc::{AllocError, Global};
use std::rc::Rc;
use tbl_rules::Rule;

/// A value.
pub(crate) type Value = Rc<Vec<u8>>;

/// So many zeros.
pub(crate) fn zeros(alloc: Global, size: u32) -> Result<Value, AllocError>
    ensures { IfOk result (λ value. value.value.items ≡ replicate size 0) }
{
    let mut bytes = Vec::new(alloc);
    bytes.resize(size as usize, 0)?;
    Ok(Rc::new(alloc, bytes)?)
}

/// The value once more, with the same bytes shared.
pub(crate) fn again(value: &Value) -> Result<Value, AllocError>
    ensures { IfOk result (λ other. other.value.items ≡ value.now.value.items) }
{
    value.clone()
}

/// The value with these bytes in place of those from an offset on.
pub(crate) fn with_range(
    alloc: Global,
    value: &[u8],
    offset: u32,
    bytes: &[u8],
) -> Result<Value, AllocError>
    ensures { IfOk result (λ kept. kept.value.items ≡ with_range value.now offset bytes.now) }
{
    let start = (offset as usize).min(value.len());
    let end = (offset as usize)
        .saturating_add(bytes.len())
        .min(value.len());
    let mut kept = Vec::from_slice(alloc, &value[..start])?;
    kept.extend_from_slice(bytes)?;
    kept.extend_from_slice(&value[end..])?;
    Ok(Rc::new(alloc, kept)?)
}

// The byte at a place; 0 if there is none.
fn byte_at(value: &[u8], place: u32) -> u8
    ensures { result ≡ slice_index value.now place }
{
    if (place as usize) < value.len() {
        value[place as usize]
    } else {
        0
    }
}

// Whether the rule's byte is from its least value to its greatest.
fn is_met(value: &[u8], rule: Rule) -> bool
    ensures { result ≡ is_met value.now rule }
{
    let byte = byte_at(value, rule.offset);
    rule.low <= byte && byte <= rule.high
}

/// The number, from 1, of the first rule that a value fails; None if it meets them all.
pub(crate) fn failed_rule(rules: &[Rule], value: &[u8]) -> Option<u32>
    requires { length rules.now ≤ MAX_RULES }
    ensures { result ≡ failed_rule rules.now value.now }
{
    let mut number = 0;
    for rule in rules {
        number += 1;
        if !is_met(value, *rule) {
            return Some(number);
        }
    }
    None
}
