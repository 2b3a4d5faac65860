//! The forms of lines, by their first words.
ghost use Rattle.std.specs.Prelude.{◌≡◌};
ghost use Rattle.app_script.specs.Forms.{call_form, form_of, file_form, form_in, is_misplaced};

use script_lines::{CallWord, call_word};
use script_words::text::is_same;

// The first version of scripts that have table files.
const FILE_VERSION: u32 = 2;

/// The form of a line, by its first word.
#[derive(Clone, Copy)]
pub enum Form {
    /// `script`
    Script,
    /// `set`
    Set,
    /// `sizes`
    Sizes,
    /// `seq`
    Seq,
    /// `app`
    App,
    /// A call line, by its first word.
    Call(CallWord),
    /// `tfile`, which scripts have from version 2 on.
    File,
}

// The form of a call line.
#[tactic(auto, unfolding(crate::specs::Forms::call_form))]
fn call_form(word: &[u8]) -> Option<Form>
    ensures { result ≡ call_form word.now }
{
    match call_word(word) {
        Some(first) => Some(Form::Call(first)),
        None => None,
    }
}

// The form of the line with this first word, in a script of any version.
#[tactic(auto, unfolding(crate::specs::Forms::form_of))]
fn form_of(word: &[u8]) -> Option<Form>
    ensures { result ≡ form_of word.now }
{
    if is_same(word, b"script") {
        Some(Form::Script)
    } else if is_same(word, b"set") {
        Some(Form::Set)
    } else if is_same(word, b"sizes") {
        Some(Form::Sizes)
    } else if is_same(word, b"seq") {
        Some(Form::Seq)
    } else if is_same(word, b"app") {
        Some(Form::App)
    } else {
        call_form(word)
    }
}

// The form of a line that not all versions have.
#[tactic(auto, unfolding(crate::specs::Forms::file_form))]
fn file_form(version: u32, word: &[u8]) -> Option<Form>
    ensures { result ≡ file_form version word.now }
{
    if version >= FILE_VERSION && is_same(word, b"tfile") {
        Some(Form::File)
    } else {
        None
    }
}

/// The form of the line with this first word, in a script of this version; None if no line
/// begins so.
#[tactic(auto, unfolding(crate::specs::Forms::form_in))]
pub(crate) fn form_in(version: u32, word: &[u8]) -> Option<Form>
    ensures { result ≡ form_in version word.now }
{
    match form_of(word) {
        Some(form) => Some(form),
        None => file_form(version, word),
    }
}

/// Whether a line of this form stands if it may not.
pub(crate) fn is_misplaced(form: Form, begun: bool, started: bool) -> bool
    ensures { result ≡ is_misplaced form begun started }
{
    match form {
        Form::Script => begun,
        Form::Set => started,
        Form::Sizes => started,
        Form::Seq => started,
        Form::App => false,
        Form::Call(_) => !started,
        Form::File => !started,
    }
}
