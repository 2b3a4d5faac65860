//! Reading a script line by line.
ghost use Rattle.std.specs.Prelude.{◌≡◌, ◌+◌, ◌<◌, ◌≤◌, ◌++◌, ◌∷◌, [], length, IsTrue, IfOk};
ghost use Rattle.std.specs.List.{list_all, list_any};
ghost use Rattle.std.specs.Prelude.{◌==◌};
ghost use Rattle.script_words.specs.Text.{is_same, is_text};
ghost use Rattle.fsw_base.specs.Starts.{are_count_starts};
ghost use Rattle.app_script.specs.Forms.{is_misplaced};
ghost use Rattle.app_script.specs.ScriptRanges.{IsScript};

use crate::app::App;
use crate::forms::{Form, form_in, is_misplaced};
use crate::script::Script;
use arrayvec::ArrayVec;
use fsw_base::{Config, CountStarts, FaultKind, MAX_APPS, MAX_STARTS};
use script_lines::{Line, call_line, table_file};
use script_settings::LimitName;
use script_settings::settings::{app, is_among, put_limit, seq, set, sizes, version};
use script_words::text::{first_word, is_same, is_text};
use script_words::{ByteText, LineFail};
use std::alloc::{AllocError, Global};
use std::marker::Model;
use std::mem;

// How many bytes a line may have.
const MAX_LINE: usize = 1024;

// How many call lines a script may have.
const MAX_CALLS: u32 = 20000;

// How many bytes the charges of a script may come to.
const MAX_CHARGE: usize = 16_777_216;

/// A script that is read line by line: what its lines told so far. It is for a text of which the
/// script is a part, and whose lines are numbered as a whole; [`crate::read_script`] reads a script
/// that stands alone.
#[derive(Drop)]
pub struct Reading {
    // A line that isn't skipped came before.
    begun: bool,
    // The version and the limits, without the counts at which ids start.
    config: Config,
    // Which limits were set.
    named: Vec<LimitName>,
    // Whether the block sizes were.
    sized: bool,
    // The counts at which ids start.
    starts: ArrayVec<(u16, u16), MAX_STARTS>,
    // An application has begun.
    started: bool,
    // The applications before the present one.
    done: Vec<App>,
    // The present one, once one has begun.
    present: App,
    // The call lines so far.
    calls: u32,
    // The sum of their charges.
    charged: u32,
}

impl Model for Reading {
    ghost use Rattle.app_script.specs.Grammar.{Progress};

    ghost Value = { Progress };

    ghost use Rattle.app_script.specs.Inside.{progress_in, KeepsCounts};

    ghost view = { progress_in };

    ghost invariant = { KeepsCounts };
}

// Whether an id has a start already.
fn has_start(starts: &[(u16, u16)], id: u16) -> bool
    ensures { result ≡ list_any (λ other. other.0 == id) starts.now }
{
    starts.iter().any(|other| other.0 == id)
}

// The starts as the configuration has them.
fn count_starts(starts: &[(u16, u16)]) -> CountStarts
    requires { IsTrue (are_count_starts starts.now) }
    ensures { result ≡ starts.now }
{
    match CountStarts::try_new(starts) {
        Some(starts) => starts,
        None => unreachable!(),
    }
}

// Whether one of these applications has the name.
fn are_named(apps: &[App], name: &[u8]) -> bool
    ensures { result ≡ list_any (λ app. is_same app.name name.now) apps.now }
{
    apps.iter().any(|app| is_same(app.name(), name))
}

impl Reading {
    ghost use Rattle.app_script.specs.Moves.{Moves};
    ghost use Rattle.app_script.specs.Grammar.{opening, after_version, after_set, after_sizes, after_seq, apps_of, after_app, after_call, after_file, after_form, after_known, after_words, after_line};
    ghost use Rattle.script_words.specs.Text.{words_of, behind_word};

    /// A script of which no line was read yet.
    ///
    /// # Errors
    /// If memory runs out.
    #[tactic(auto, unfolding(script_settings::specs::Accounts::account_of))]
    pub fn new(alloc: Global) -> Result<Reading, AllocError>
        ensures { IfOk result (λ reading. reading ≡ opening) }
    {
        let nobody = ByteText::new(alloc, &[])?;
        Ok(Reading {
            begun: false,
            config: Config::usual(),
            named: Vec::new(alloc),
            sized: false,
            starts: ArrayVec::new(),
            started: false,
            done: Vec::new(alloc),
            present: App::new(alloc, nobody),
            calls: 0,
            charged: 0,
        })
    }

    // script VERSION
    #[tactic(auto, unfolding(crate::specs::Grammar::after_version))]
    fn version(&mut self, rest: &[u8]) -> Result<(), LineFail>
        ensures { Moves result self.new (after_version self.old (words_of rest.now)) }
    {
        self.config.version = version(rest)?;
        Ok(())
    }

    // set NAME VALUE
    #[tactic(auto, unfolding(crate::specs::Grammar::after_set))]
    fn set(&mut self, rest: &[u8]) -> Result<(), LineFail>
        ensures { Moves result self.new (after_set self.old (words_of rest.now)) }
    {
        let (name, value) = set(rest)?;
        if is_among(name, self.named.as_slice()) {
            return Err(LineFail::Fault(FaultKind::Repeated));
        }
        self.named.push(name)?;
        put_limit(&mut self.config, name, value);
        Ok(())
    }

    // sizes S1 S2 ..
    #[tactic(auto, unfolding(crate::specs::Grammar::after_sizes))]
    fn sizes(&mut self, rest: &[u8]) -> Result<(), LineFail>
        ensures { Moves result self.new (after_sizes self.old (words_of rest.now)) }
    {
        let sizes = sizes(rest)?;
        if self.sized {
            return Err(LineFail::Fault(FaultKind::Repeated));
        }
        self.config.sizes = sizes;
        self.sized = true;
        Ok(())
    }

    // seq ID COUNT
    #[tactic(auto, using(crate::proofs::ScriptLemmas::starts_push), unfolding(crate::specs::Grammar::after_seq))]
    fn seq(&mut self, rest: &[u8]) -> Result<(), LineFail>
        ensures { Moves result self.new (after_seq self.old (words_of rest.now)) }
    {
        let (id, count) = seq(rest)?;
        if self.starts.len() >= MAX_STARTS {
            return Err(LineFail::Fault(FaultKind::OutOfRange));
        }
        if has_start(self.starts.as_slice(), id) {
            return Err(LineFail::Fault(FaultKind::Repeated));
        }
        self.starts.push((id, count));
        Ok(())
    }

    // Whether an application so far has the name.
    #[tactic(auto, using(crate::proofs::ScriptLemmas::list_any_push))]
    fn has_app(&self, name: &[u8]) -> bool
        ensures { result ≡ list_any (λ app. is_same app.name name.now) (apps_of self.now) }
    {
        are_named(self.done.as_slice(), name)
            || (self.started && is_same(self.present.name(), name))
    }

    /// How many applications there are so far, at most 16.
    pub fn app_count(&self) -> usize
        ensures { result ≡ length (apps_of self.now) }
    {
        if self.started {
            self.done.len() + 1
        } else {
            self.done.len()
        }
    }

    // app NAME
    #[tactic(auto, unfolding(crate::specs::Grammar::after_app))]
    fn app(&mut self, alloc: Global, rest: &[u8]) -> Result<(), LineFail>
        ensures { Moves result self.new (after_app self.old (words_of rest.now)) }
    {
        let name = app(rest)?;
        if self.has_app(name) {
            return Err(LineFail::Fault(FaultKind::Repeated));
        }
        if self.app_count() >= MAX_APPS as usize {
            return Err(LineFail::Fault(FaultKind::TooManyApps));
        }
        let name = ByteText::new(alloc, name)?;
        if !self.started {
            self.present = App::new(alloc, name);
            self.started = true;
            return Ok(());
        }
        self.done.reserve(1)?;
        let before = mem::replace(&mut self.present, App::new(alloc, name));
        self.done.push_reserved(before);
        Ok(())
    }

    // One call line more.
    #[tactic(auto, using(crate::proofs::ScriptLemmas::account_of_push), unfolding(crate::specs::Grammar::after_call))]
    fn call(&mut self, line: Line) -> Result<(), LineFail>
        ensures { Moves result self.new (after_call self.old line) }
    {
        if self.calls >= MAX_CALLS {
            return Err(LineFail::Fault(FaultKind::TooManyCalls));
        }
        let charge = self.present.charge(&line);
        if charge > MAX_CHARGE - self.charged as usize {
            return Err(LineFail::Fault(FaultKind::TooManyBytes));
        }
        self.present.push(line, charge as u32)?;
        self.calls += 1;
        self.charged += charge as u32;
        Ok(())
    }

    // The two call lines of a table file. Whether the script may have both is decided before the
    // bytes of either: a line has its first fault.
    #[tactic(auto, unfolding(crate::specs::Grammar::after_file))]
    fn file(&mut self, calls: (Line, Line)) -> Result<(), LineFail>
        ensures { Moves result self.new (after_file self.old calls) }
    {
        if self.calls >= MAX_CALLS - 1 {
            return Err(LineFail::Fault(FaultKind::TooManyCalls));
        }
        let (share, stage) = calls;
        self.call(share)?;
        self.call(stage)
    }

    // A line of this form, from the line behind its first word.
    #[tactic(auto, unfolding(crate::specs::Grammar::after_form))]
    fn form(&mut self, alloc: Global, form: Form, rest: &[u8]) -> Result<(), LineFail>
        ensures { Moves result self.new (after_form self.old form rest.now) }
    {
        match form {
            Form::Script => self.version(rest),
            Form::Set => self.set(rest),
            Form::Sizes => self.sizes(rest),
            Form::Seq => self.seq(rest),
            Form::App => self.app(alloc, rest),
            Form::Call(first) => {
                let line = call_line(alloc, first, rest)?;
                self.call(line)
            }
            Form::File => {
                let calls = table_file(alloc, rest)?;
                self.file(calls)
            }
        }
    }

    // Whether a line of this form stands if it may not.
    fn is_misplaced(&self, form: Form) -> bool
        ensures { result ≡ is_misplaced form self.now.begun self.now.started }
    {
        is_misplaced(form, self.begun, self.started)
    }

    // A line with this first word, if it is one.
    #[tactic(auto, unfolding(crate::specs::Grammar::after_known))]
    fn known(&mut self, alloc: Global, form: Option<Form>, rest: &[u8]) -> Result<(), LineFail>
        ensures { Moves result self.new (after_known self.old form rest.now) }
    {
        match form {
            None => Err(LineFail::Fault(FaultKind::UnknownWord)),
            Some(form) => {
                if self.is_misplaced(form) {
                    return Err(LineFail::Fault(FaultKind::Misplaced));
                }
                self.begun = true;
                self.form(alloc, form, rest)
            }
        }
    }

    // A line's words; a line without one, or whose first begins with a hash sign, is skipped.
    #[tactic(auto, unfolding(crate::specs::Grammar::after_words))]
    fn words(&mut self, alloc: Global, line: &[u8]) -> Result<(), LineFail>
        ensures { Moves result self.new
            (after_words self.old (words_of line.now) (behind_word line.now)) }
    {
        match first_word(line) {
            None => Ok(()),
            Some((first, rest)) => {
                if first.starts_with(b"#") {
                    return Ok(());
                }
                self.known(alloc, form_in(self.config.version, first), rest)
            }
        }
    }

    /// Reads the next line; `plain` says that its bytes are known to be text. After a failure the
    /// reading is of no use.
    ///
    /// # Errors
    /// `Fault` if the line is faulty, with its first fault in the order of [`FaultKind`].
    /// `Memory` if memory runs out.
    #[tactic(auto, unfolding(crate::specs::Grammar::after_line))]
    pub fn line(&mut self, alloc: Global, line: &[u8], plain: bool) -> Result<(), LineFail>
        requires { IsTrue plain → IsTrue (list_all is_text line.now) }
        ensures { Moves result self.new (after_line self.old line.now) }
    {
        if line.len() > MAX_LINE {
            return Err(LineFail::Fault(FaultKind::LineTooLong));
        }
        if !(plain || is_text(line)) {
            return Err(LineFail::Fault(FaultKind::BadByte));
        }
        self.words(alloc, line)
    }

    /// Whether an application has begun.
    pub fn has_started(&self) -> bool
        ensures { result ≡ self.now.started }
    {
        self.started
    }

    /// The script that was read, if an application has begun. Its lines told one in its ranges.
    ///
    /// # Errors
    /// If memory runs out.
    pub fn into_script(self) -> Result<Script, AllocError>
        requires text { IsScript (record { limits = self.limits; apps = apps_of self }) }
        requires started { IsTrue self.started }
        ensures { IfOk result
            (λ script. script ≡ record { limits = self.limits; apps = apps_of self }) }
    {
        let Reading {
            begun: _,
            config,
            named: _,
            sized: _,
            starts,
            started: _,
            done,
            present,
            calls: _,
            charged: _,
        } = self;
        let mut config = config;
        let mut apps = done;
        config.starts = count_starts(starts.as_slice());
        apps.push(present)?;
        Ok(Script::new(config, apps))
    }
}
