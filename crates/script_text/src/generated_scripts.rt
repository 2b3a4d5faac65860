//! A script, drawn from its number.
ghost use Rattle.std.specs.Prelude.{◌≡◌, ◌+◌, ◌<◌, ◌≤◌, [], ◌∷◌, ◌++◌, true, IfOk, OnOk, vec_len, vec_capacity};
ghost use Rattle.fsw_base.specs.declared.config.Scope.TheVariants.{Global as everywhere};
ghost use Rattle.script_lines.specs.declared.line.Line.TheVariants.{Subscribe, Send, Allocate, Form, TransmitBuffer};
ghost use Rattle.script_text.specs.Generated.{id_of, action, actions, first_lines, application, applications, generated};

use crate::draws::{Draft, Generator, Kind, kind_of};
use app_script::{App, Script};
use fsw_base::{Config, Scope};
use script_lines::{ByteText, Line};
use std::alloc::{AllocError, Global};

// How many applications there are.
const APPS: u8 = 4;

// How many actions an application has.
const ACTIONS: u32 = 250;

// How many lines an application has at most: three at first, and three an action.
const MAX_LINES: usize = 753;

// The line that subscribes an application's pipe to the message id of this one.
fn subscription(app: u8) -> Line
    ensures { result ≡ Subscribe (id_of app) 0 4 everywhere }
{
    Line::Subscribe {
        id: 0x0800 + app as u16,
        pipe: 0,
        limit: 4,
        scope: Scope::Global,
    }
}

// Adds the lines before the actions.
#[tactic(auto, unfolding(crate::specs::Generated::first_lines))]
fn push_first_lines(alloc: Global, lines: &mut Vec<Line>, app: u8) -> Result<(), AllocError>
    requires app { app < 10 }
    requires room { vec_len lines.old + 3 ≤ vec_capacity lines.old }
    ensures lines { OnOk result (lines.new.items ≡ lines.old.items ++ first_lines app) }
    ensures len { vec_len lines.new ≤ vec_len lines.old + 3 }
    ensures room { vec_capacity lines.new ≡ vec_capacity lines.old }
{
    let name = ByteText::new(alloc, &[b'P', b'0' + app])?;
    lines.push_reserved(Line::Create {
        pipe: 0,
        depth: 8,
        name,
    });
    lines.push_reserved(subscription(app));
    lines.push_reserved(subscription(app % 4 + 1));
    Ok(())
}

// Adds the line that sends a message.
fn push_send(lines: &mut Vec<Line>, message: Draft)
    requires room { vec_len lines.old + 3 ≤ vec_capacity lines.old }
    ensures lines { lines.new.items ≡
        lines.old.items ++ Send message.id message.size message.fill true ∷ [] }
    ensures len { vec_len lines.new ≤ vec_len lines.old + 3 }
    ensures room { vec_capacity lines.new ≡ vec_capacity lines.old }
{
    lines.push_reserved(Line::Send {
        id: message.id,
        size: message.size,
        fill: message.fill,
        inc: true,
    });
}

// Adds the lines that make a message in a buffer, and send it without a copy.
fn push_buffer(lines: &mut Vec<Line>, message: Draft)
    requires room { vec_len lines.old + 3 ≤ vec_capacity lines.old }
    ensures lines { lines.new.items ≡ lines.old.items ++ Allocate 0 message.size
        ∷ Form 0 message.id message.fill ∷ TransmitBuffer 0 true ∷ [] }
    ensures len { vec_len lines.new ≤ vec_len lines.old + 3 }
    ensures room { vec_capacity lines.new ≡ vec_capacity lines.old }
{
    lines.push_reserved(Line::Allocate {
        buf: 0,
        size: message.size,
    });
    lines.push_reserved(Line::Form {
        buf: 0,
        id: message.id,
        fill: message.fill,
    });
    lines.push_reserved(Line::TransmitBuffer { buf: 0, inc: true });
}

// Adds the lines of an action.
fn push_action(lines: &mut Vec<Line>, generator: &mut Generator)
    requires room { vec_len lines.old + 3 ≤ vec_capacity lines.old }
    ensures lines { lines.new.items ≡ lines.old.items ++ (action generator.old).0 }
    ensures moved { generator.new ≡ (action generator.old).1 }
    ensures len { vec_len lines.new ≤ vec_len lines.old + 3 }
    ensures room { vec_capacity lines.new ≡ vec_capacity lines.old }
{
    match kind_of(generator.draw(4)) {
        Kind::Send => push_send(lines, generator.draft()),
        Kind::SendBuffer => push_buffer(lines, generator.draft()),
        Kind::Receive => lines.push_reserved(Line::Receive { pipe: 0 }),
    }
}

// Adds the lines of all actions of an application.
fn push_actions(lines: &mut Vec<Line>, generator: &mut Generator)
    requires room { vec_len lines.old + 750 ≤ vec_capacity lines.old }
    ensures lines { lines.new.items ≡ lines.old.items ++ (actions 250 generator.old).0 }
    ensures moved { generator.new ≡ (actions 250 generator.old).1 }
{
    for _action in 0..ACTIONS {
        push_action(lines, generator);
    }
}

// The application of this number.
#[tactic(auto, unfolding(crate::specs::Generated::application))]
fn application(alloc: Global, generator: &mut Generator, app: u8) -> Result<App, AllocError>
    requires { app < 10 }
    ensures app { IfOk result (λ made. made ≡ (application app generator.old).0) }
    ensures moved { OnOk result (generator.new ≡ (application app generator.old).1) }
{
    let name = ByteText::new(alloc, &[b'G', b'0' + app])?;
    let mut lines = Vec::with_capacity(alloc, MAX_LINES)?;
    push_first_lines(alloc, &mut lines, app)?;
    push_actions(&mut lines, generator);
    Ok(App::of_lines(name, lines))
}

// All applications, in order of number.
fn applications(alloc: Global, generator: &mut Generator) -> Result<Vec<App>, AllocError>
    ensures { IfOk result (λ apps. apps.items ≡ (applications 1 4 generator.old).0) }
{
    let mut apps = Vec::with_capacity(alloc, APPS as usize)?;
    for app in 1..APPS + 1 {
        apps.push_reserved(application(alloc, generator, app)?);
    }
    Ok(apps)
}

/// The script of a number: what four applications, `G1` to `G4`, do under the usual limits. Each
/// makes a pipe, subscribes it to its own message id and to that of the next application, and then
/// has 250 actions, drawn at random: a message sent, one made in a buffer and sent without a copy,
/// or one received. It has at most 3012 call lines. Numbers alike modulo 2^31 have the same script.
///
/// # Errors
/// `AllocError` if there is no memory for the script.
#[tactic(auto, unfolding(crate::specs::Generated::generated))]
pub fn generate(alloc: Global, number: u32) -> Result<Script, AllocError>
    ensures { IfOk result (λ script. script ≡ generated number) }
{
    let mut generator = Generator::new(number);
    let apps = applications(alloc, &mut generator)?;
    Ok(Script::new(Config::usual(), apps))
}
