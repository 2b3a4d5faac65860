//! What the messages of a script come to, of which each may go over the bridge.
ghost use Rattle.std.specs.Prelude.{◌≡◌, ◌+◌, ◌*◌, ◌≤◌, length};
ghost use Rattle.script_settings.specs.Accounts.{no_calls, charge_of, account_of};
ghost use Rattle.bridge_plan.specs.Sends.{sent_by, sent_from, sends_of};

use app_script::{App, Line, Script};
use housekeeping::PACKET_BYTES;
use script_settings::Account;

/// What lines send.
#[derive(Clone, Copy, Debug, PartialEq, Eq)]
pub(crate) struct Sends {
    /// How many lines send a message.
    pub(crate) lines: u32,
    /// How many bytes these messages have at most.
    pub(crate) bytes: u32,
}

// What a line sends that has this charge in bytes.
#[tactic(auto, unfolding(crate::specs::Sends::sent_by))]
fn sent_by(line: &Line, account: &Account, charge: u32) -> Sends
    requires { charge ≡ charge_of account.now line.now }
    ensures sent { result ≡ sent_by account.now line.now }
    ensures lines { result.lines ≤ 1 }
    ensures bytes { result.bytes ≤ charge + 64 }
{
    match line {
        Line::Send { .. } | Line::SendRaw { .. } | Line::TransmitBuffer { .. } => Sends {
            lines: 1,
            bytes: charge,
        },
        Line::Housekeeping => Sends {
            lines: 1,
            bytes: PACKET_BYTES as u32,
        },
        _ => Sends { lines: 0, bytes: 0 },
    }
}

// What an application's lines send.
fn sent_by_app(app: &App) -> Sends
    requires { (account_of app.now.lines).bytes ≤ 16777216 }
    ensures sent { result ≡ sent_from no_calls app.now.lines }
    ensures lines { result.lines ≤ length app.now.lines }
    ensures bytes { result.bytes ≤ (account_of app.now.lines).bytes + 64 * length app.now.lines }
{
    let mut sends = Sends { lines: 0, bytes: 0 };
    let mut account = Account::new();
    for i in 0..app.lines() {
        let line = app.line(i);
        let charge = account.charge(line) as u32;
        let sent = sent_by(line, &account, charge);
        sends.lines += sent.lines;
        sends.bytes += sent.bytes;
        account.count(line, charge);
    }
    sends
}

/// What a script's lines send.
pub(crate) fn sends_of(script: &Script) -> Sends
    ensures sent { result ≡ sends_of script.now.apps }
    ensures lines { result.lines ≤ 20000 }
    ensures bytes { result.bytes ≤ 18057216 }
{
    script.recall_ranges();
    let mut sends = Sends { lines: 0, bytes: 0 };
    let apps = script.applications();
    for app in apps {
        let sent = sent_by_app(app);
        sends.lines += sent.lines;
        sends.bytes += sent.bytes;
    }
    sends
}
