// Whether a message is allowed under the settings: any message, any settings.
#![tactic(auto)]

ghost use Rattle.std.specs.Prelude.{◌≡◌};
ghost use Rattle.rules.specs.Messages.{allowed};
ghost use Rattle.settings.specs.Made.{settings_of};
ghost use Rattle.wire.specs.Meaning.{message_of};

use settings::Settings;
use wire::Message;

// Whether a message is allowed.
pub fn message_allowed(settings: Settings, message: Message) -> bool
    ensures { result ≡ allowed (settings_of settings) (message_of message) }
{
    match message {
        Message::Stated(x) => allowed_statements::statement_allowed(settings, x),
        Message::Vote {
            view,
            height,
            name,
            author,
        } => {
            let block = clauses::view_allowed(settings, view as u64)
                & clauses::block_allowed(height as u64, name);
            block & ((author as u64) < settings.n)
        }
        Message::Blame { view, author } => clauses::view_allowed(settings, view as u64)
            & ((author as u64) < settings.n),
        Message::BlameSet { view, mask } => clauses::view_allowed(settings, view as u64)
            & clauses::mask_allowed(settings, mask),
        Message::Status {
            height,
            name,
            cert,
            mask,
        } => {
            let block = clauses::block_allowed(height as u64, name);
            block & clauses::certificate_allowed(settings, height as u64, cert as u64, mask)
        }
    }
}
